//! The cell in which a front stands as words, the passes of its readers and of its writer, and its rule.

ghost use Rattle.std.specs.Prelude.{◌≡◌, [], ◌∷◌, ◌++◌, true, false};
ghost use mathlib.Core.List.{IsPrefix};
ghost use Rattle.crossbeam_utils.specs.Register.{Forks, Merges, Turns};
ghost use Rattle.crossbeam_utils.specs.Seq.{cell_view};
ghost use Rattle.om_board.specs.steps.Posting.{IsLog, Kept, Loads, MayStore, Stores, opened, reader, shown_to, writer, IsOfCell};

use atomic_table::{Join, Split};
use crossbeam_utils::atomic::seq_cell::{Pass, RuledSeqCell};
use crossbeam_utils::rule::{Outcome, Protocol};
use om_interval::MAX_PROCESSES;
use std::collections::LinkedList;
use std::sync::Wait;

/// How many words a front takes: version, round, and an interval for each process that there can be.
pub const WORDS: usize = 2 + MAX_PROCESSES;

/// What a pass of the cell knows: whether it writes, the words that it has seen there, oldest first, and those that another
/// pass showed it. It stands in proofs alone, and no value of it is made.
pub struct View {
    pub writes: bool,
    pub seen: LinkedList<[u64; WORDS]>,
    pub shown: LinkedList<[u64; WORDS]>,
}

/// The rule of the cell: one pass writes, the versions rise, and what each pass has seen begins what was written.
pub struct Posted;

impl Protocol<[u64; WORDS], View> for Posted {
    ghost use Rattle.std.specs.Prelude.{[], ◌∷◌};
    ghost use Rattle.om_board.specs.steps.Posting.{Kept, writer, zero_words};

    ghost holds = { Kept };

    ghost first = { writer (zero_words ∷ []) };
}

/// A reader reads the words.
pub struct Load;

impl Outcome<[u64; WORDS], View> for Load {
    ghost use Rattle.om_board.specs.steps.Posting.{Loads};

    ghost then = { Loads };
}

/// The writer writes words.
pub struct Store;

impl Outcome<[u64; WORDS], View> for Store {
    ghost use Rattle.om_board.specs.steps.Posting.{Stores};

    ghost then = { Stores };
}

/// The writer reads the words, and learns that what it was shown begins what it wrote.
pub struct Meet;

impl Outcome<[u64; WORDS], View> for Meet {
    ghost use Rattle.om_board.specs.steps.Posting.{Meets};

    ghost then = { Meets };
}

/// A copy of a reader's pass.
pub struct Twice;

impl Split<View> for Twice {
    ghost left = { λ v. v };

    ghost right = { λ v. v };
}

/// A reader's pass from the writer's.
pub struct Opens;

impl Split<View> for Opens {
    ghost use Rattle.om_board.specs.steps.Posting.{opened};

    ghost left = { λ v. v };

    ghost right = { opened };
}

/// A reader's pass is shown to the writer.
pub struct Shows;

impl Join<View> for Shows {
    ghost use Rattle.std.specs.Prelude.{[]};
    ghost use Rattle.om_board.specs.steps.Posting.{shown_to, reader};

    ghost both = { shown_to };

    ghost spent = { reader [] };
}

pub type Cell = RuledSeqCell<[u64; WORDS], View, Posted, WORDS>;

pub type Ticket = Pass<[u64; WORDS], View>;

// The steps of the cell at a condition that is the cell's own. Below each step has a function whose condition is in our words.

fn read_as<M: Outcome<[u64; WORDS], View>, R: Wait>(
    cell: &Cell,
    rt: &R,
    ticket: &mut Ticket,
) -> [u64; WORDS]
    requires own { IsOfCell cell.now.table.shared.table_id ticket.old.table_id }
    requires rule { Turns Kept ticket.old.id (cell_view ticket.old) (λ x. x) M.then }
    ensures own { IsOfCell ticket.old.table_id ticket.new.table_id }
    ensures rule { M.then (cell_view ticket.old) result result (cell_view ticket.new) }
{
    cell.load_as::<M, R>(rt, ticket)
}

fn write_as<R: Wait>(cell: &Cell, rt: &R, ticket: &mut Ticket, words: [u64; WORDS])
    requires own { IsOfCell cell.now.table.shared.table_id ticket.old.table_id }
    requires rule { Turns Kept ticket.old.id (cell_view ticket.old) (λ _. words) Stores }
    ensures own { IsOfCell ticket.old.table_id ticket.new.table_id }
    ensures view { cell_view ticket.new ≡ writer ((cell_view ticket.old).seen ++ words ∷ []) }
    ensures log { IsLog (cell_view ticket.new).seen }
{
    cell.swap_as::<Store, R>(rt, ticket, words);
}

fn split_as<M: Split<View>>(cell: &Cell, ticket: &mut Ticket) -> Ticket
    requires own { IsOfCell cell.now.table.shared.table_id ticket.old.table_id }
    requires rule { Forks Kept ticket.old.id (cell_view ticket.old) (M.left (cell_view ticket.old)) (M.right (cell_view ticket.old)) }
    ensures own { IsOfCell ticket.old.table_id ticket.new.table_id }
    ensures left { cell_view ticket.new ≡ M.left (cell_view ticket.old) }
    ensures right_own { IsOfCell ticket.old.table_id result.table_id }
    ensures right { cell_view result ≡ M.right (cell_view ticket.old) }
    ensures fresh { result.me.1 ≡ [] }
{
    cell.split_pass::<M>(ticket)
}

fn join_as(cell: &Cell, ticket: &mut Ticket, other: Ticket)
    requires own { IsOfCell cell.now.table.shared.table_id ticket.old.table_id }
    requires other_own { IsOfCell ticket.old.table_id other.table_id }
    requires fresh { other.me.1 ≡ [] }
    requires rule { Merges Kept ticket.old.id (cell_view ticket.old) other.id (cell_view other)
        (shown_to (cell_view ticket.old) (cell_view other)) (reader []) }
    ensures own { IsOfCell ticket.old.table_id ticket.new.table_id }
    ensures view { cell_view ticket.new ≡ shown_to (cell_view ticket.old) (cell_view other) }
{
    cell.join_pass::<Shows>(ticket, other);
}

// Reads the words, by a pass that reads.
pub(crate) fn read_words<R: Wait>(cell: &Cell, rt: &R, ticket: &mut Ticket) -> [u64; WORDS]
    requires own { IsOfCell cell.now.table.shared.table_id ticket.old.table_id }
    requires reads { (cell_view ticket.old).writes ≡ false }
    ensures own { IsOfCell ticket.old.table_id ticket.new.table_id }
    ensures loads { Loads (cell_view ticket.old) result result (cell_view ticket.new) }
{
    read_as::<Load, R>(cell, rt, ticket)
}

// Writes words, by the pass that writes.
pub(crate) fn write_words<R: Wait>(cell: &Cell, rt: &R, ticket: &mut Ticket, words: [u64; WORDS])
    requires own { IsOfCell cell.now.table.shared.table_id ticket.old.table_id }
    requires may { MayStore (cell_view ticket.old) words }
    ensures own { IsOfCell ticket.old.table_id ticket.new.table_id }
    ensures view { cell_view ticket.new ≡ writer ((cell_view ticket.old).seen ++ words ∷ []) }
    ensures log { IsLog (cell_view ticket.new).seen }
{
    write_as(cell, rt, ticket, words);
}

// Copies a pass that reads.
pub(crate) fn copy_of(cell: &Cell, ticket: &mut Ticket) -> Ticket
    requires own { IsOfCell cell.now.table.shared.table_id ticket.old.table_id }
    requires reads { (cell_view ticket.old).writes ≡ false }
    ensures own { IsOfCell ticket.old.table_id ticket.new.table_id }
    ensures same { cell_view ticket.new ≡ cell_view ticket.old }
    ensures copy_own { IsOfCell ticket.old.table_id result.table_id }
    ensures copy { cell_view result ≡ cell_view ticket.old }
    ensures fresh { result.me.1 ≡ [] }
{
    split_as::<Twice>(cell, ticket)
}

// Shows the writer the pass of a reader.
pub(crate) fn show(cell: &Cell, ticket: &mut Ticket, other: Ticket)
    requires own { IsOfCell cell.now.table.shared.table_id ticket.old.table_id }
    requires other_own { IsOfCell ticket.old.table_id other.table_id }
    requires fresh { other.me.1 ≡ [] }
    ensures own { IsOfCell ticket.old.table_id ticket.new.table_id }
    ensures view { cell_view ticket.new ≡ shown_to (cell_view ticket.old) (cell_view other) }
{
    join_as(cell, ticket, other);
}

// Compares what the writer was shown with what it wrote.
pub(crate) fn compare<R: Wait>(cell: &Cell, rt: &R, ticket: &mut Ticket)
    requires own { IsOfCell cell.now.table.shared.table_id ticket.old.table_id }
    requires writes { (cell_view ticket.old).writes ≡ true }
    ensures own { IsOfCell ticket.old.table_id ticket.new.table_id }
    ensures view { cell_view ticket.new ≡ writer (cell_view ticket.old).seen }
    ensures behind { IsPrefix (cell_view ticket.old).shown (cell_view ticket.old).seen }
{
    read_as::<Meet, R>(cell, rt, ticket);
}

// Makes a pass that reads, from the writer's.
pub(crate) fn reader_of(cell: &Cell, ticket: &mut Ticket) -> Ticket
    requires own { IsOfCell cell.now.table.shared.table_id ticket.old.table_id }
    ensures own { IsOfCell ticket.old.table_id ticket.new.table_id }
    ensures same { cell_view ticket.new ≡ cell_view ticket.old }
    ensures reader_own { IsOfCell ticket.old.table_id result.table_id }
    ensures reader { cell_view result ≡ opened (cell_view ticket.old) }
{
    split_as::<Opens>(cell, ticket)
}
