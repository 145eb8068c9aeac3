//! The last front that was posted, as any thread reads it, and the leaves to read and to post.

ghost use Rattle.std.specs.Prelude.{◌≡◌, ◌≤◌, [], ◌∷◌, length, IfOk, All};
ghost use mathlib.Core.List.{IsPrefix};
ghost use Rattle.om_interval.specs.declared.pid.TheConstants.{MAX_PROCESSES};
ghost use Rattle.om_board.specs.Fronts.{first_front, IsAtMost, IsPosted, EndsWith, Follows};
ghost use Rattle.om_board.specs.steps.Posts.{MayFollow};

use crate::cell::{
    Cell, Ticket, WORDS, compare, copy_of, read_words, reader_of, show, write_words,
};
use crate::front::Front;
use om_interval::MAX_PROCESSES;
use std::alloc::{AllocError, Global};
use std::marker::{Brand, Model, PhantomData};
use std::sync::Wait;

/// Names the cell of one frontier and the programs of its processes, in proofs alone. Whoever makes a [`Blank`] goes on in a
/// function generic over it.
pub trait Naming {
    ghost use Rattle.std.specs.Prelude.{List};
    ghost use Rattle.om_process.specs.Process.{Program};
    ghost use Rattle.om_board.specs.CellNames.{CellName};

    ghost cell: { CellName };

    // By process.
    ghost programs: { List Program };

    // That the stores of the processes are clean: only then is it known what a process that comes back from one puts out.
    ghost OverClean: { Type 0 };
}

impl Naming for Brand {
    ghost use Rattle.std.specs.Prelude.{[]};
    ghost use Rattle.om_board.specs.steps.NoCell.{no_cell};

    ghost cell = { no_cell };

    ghost programs = { [] };

    ghost OverClean = { ⊥ };
}

/// The cell of a frontier that has no name yet. To a contract it is what a name says of it.
#[derive(Drop)]
pub struct Blank {
    cell: Cell,
    ticket: Ticket,
    n: usize,
}

impl Model for Blank {
    ghost use Rattle.std.specs.Prelude.{◌≡◌, ◌≤◌, [], ◌∷◌};
    ghost use Rattle.crossbeam_utils.specs.Seq.{cell_view};
    ghost use Rattle.om_interval.specs.declared.pid.TheConstants.{MAX_PROCESSES};
    ghost use Rattle.om_board.specs.CellNames.{CellName};
    ghost use Rattle.om_board.specs.steps.Posting.{writer, zero_words};

    ghost Value = { CellName };

    ghost view = { λ b. record { table = b.cell.table.shared.table_id; n = b.n } };

    ghost invariant = { λ b. (1 ≤ b.n) × (b.n ≤ MAX_PROCESSES) × (b.ticket.table_id ≡ b.cell.table.shared.table_id)
        × (cell_view b.ticket ≡ writer (zero_words ∷ [])) };
}

impl Blank {
    /// Makes a cell for the fronts of `n` processes.
    pub fn new(alloc: Global, n: usize) -> Result<Blank, AllocError>
        requires some { 1 ≤ n }
        requires within { n ≤ MAX_PROCESSES }
        ensures { IfOk result (λ blank. blank.n ≡ n) }
    {
        let (cell, ticket) = Cell::ruled(alloc, [0; WORDS])?;
        Ok(Blank { cell, ticket, n })
    }

    pub(crate) fn n(&self) -> usize
        ensures n { result ≡ self.now.n }
        ensures some { 1 ≤ result }
        ensures within { result ≤ MAX_PROCESSES }
    {
        self.n
    }

    // Makes of the cell the frontier, and the leave to post to it.
    pub(crate) fn open<K: Naming>(self) -> (Frontier<K>, Writer<K>)
        requires { self ≡ K.cell }
        ensures { result.1 ≡ first_front K.cell.n ∷ [] }
    {
        let Blank { cell, ticket, n } = self;
        let frontier = Frontier {
            cell,
            n,
            of: PhantomData,
        };
        let writer = Writer {
            ticket,
            version: 0,
            of: PhantomData,
        };
        (frontier, writer)
    }
}

/// The last front that was posted, which any thread reads without the board's lock.
#[derive(Drop)]
pub struct Frontier<K: Naming> {
    cell: Cell,
    n: usize,
    of: PhantomData<K>,
    ghost named: { cell.table.shared.table_id ≡ K.cell.table },
    ghost sized: { n ≡ K.cell.n },
    ghost some: { 1 ≤ n },
    ghost within: { n ≤ MAX_PROCESSES },
}

/// The leave to read a frontier. To a contract it is the fronts that were posted up to the last one that its holder has seen.
#[derive(Drop)]
pub struct Pass<K: Naming> {
    ticket: Ticket,
    of: PhantomData<K>,
}

impl<K: Naming> Model for Pass<K> {
    ghost use Rattle.std.specs.Prelude.{List};
    ghost use Rattle.crossbeam_utils.specs.Seq.{cell_view};
    ghost use Rattle.om_board.specs.declared.front.Front.{Front};
    ghost use Rattle.om_board.specs.steps.Posting.{fronts_in, IsReader};

    ghost Value = { List Front };

    ghost view = { λ p. fronts_in K.cell.n (cell_view p.ticket).seen };

    ghost invariant = { λ p. IsReader K.cell p.ticket.table_id (cell_view p.ticket) };
}

// The leave to post to a frontier. To a contract it is the fronts that were posted.
#[derive(Drop)]
pub(crate) struct Writer<K: Naming> {
    ticket: Ticket,
    // Of the last front.
    version: u64,
    of: PhantomData<K>,
}

impl<K: Naming> Model for Writer<K> {
    ghost use Rattle.std.specs.Prelude.{List};
    ghost use Rattle.crossbeam_utils.specs.Seq.{cell_view};
    ghost use Rattle.om_board.specs.declared.front.Front.{Front};
    ghost use Rattle.om_board.specs.steps.Posting.{fronts_in, IsWriter};

    ghost Value = { List Front };

    ghost view = { λ w. fronts_in K.cell.n (cell_view w.ticket).seen };

    ghost invariant = { λ w. IsWriter K.cell w.ticket.table_id (cell_view w.ticket) w.version };
}

impl<K: Naming> Frontier<K> {
    /// Returns the last front that was posted. It is not behind anything that this pass has seen. No lock is taken, but where
    /// a post comes between, the call waits until that is done.
    pub fn read<R: Wait>(&self, rt: &R, pass: &mut Pass<K>) -> Front
        ensures later { IsPrefix pass.old pass.new }
        ensures last { EndsWith pass.new result }
        ensures posted { IsPosted pass.new }
        ensures not_behind { All (λ seen. IsAtMost seen result) pass.old }
    {
        let words = read_words(&self.cell, rt, &mut pass.ticket);
        Front::from_words(self.n, &words)
    }
}

impl<K: Naming> Writer<K> {
    // Makes a pass that has seen all that was posted.
    pub(crate) fn pass(&mut self, frontier: &Frontier<K>) -> Pass<K>
        ensures all { result ≡ self.old }
        ensures same { self.new ≡ self.old }
    {
        let ticket = reader_of(&frontier.cell, &mut self.ticket);
        Pass {
            ticket,
            of: PhantomData,
        }
    }

    // Compares a reader's pass with what was posted, and gives it back with all of that.
    pub(crate) fn meet<R: Wait>(&mut self, rt: &R, frontier: &Frontier<K>, pass: Pass<K>) -> Pass<K>
        ensures behind { IsPrefix pass self.old }
        ensures all { result ≡ self.old }
        ensures same { self.new ≡ self.old }
    {
        let Pass { mut ticket, .. } = pass;
        let copy = copy_of(&frontier.cell, &mut ticket);
        show(&frontier.cell, &mut self.ticket, copy);
        compare(&frontier.cell, rt, &mut self.ticket);
        self.pass(frontier)
    }

    // Posts a front, where its version is not that of the last one.
    pub(crate) fn post<R: Wait>(&mut self, rt: &R, front: &Front, frontier: &Frontier<K>)
        requires places { length front.now.vec ≡ K.cell.n }
        requires may { MayFollow self.old front.now }
        ensures follows { Follows self.old front.now self.new }
        ensures posted { IsPosted self.new }
    {
        if front.version != self.version {
            write_words(&frontier.cell, rt, &mut self.ticket, front.to_words());
            self.version = front.version;
        }
    }
}
