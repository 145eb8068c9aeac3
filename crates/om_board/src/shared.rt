//! What the threads of a cluster share.

ghost use Rattle.std.specs.Prelude.{◌≡◌, [], ◌∷◌, replicate, IfOk};
ghost use Rattle.om_board.specs.Fronts.{first_front};

use crate::board::Board;
use crate::frontier::{Blank, Frontier, Naming, Pass, Writer};
use om_manager::Manager;
use std::alloc::{AllocError, Global};
use std::sync::Mutex;
use std::sync::atomic::AtomicU64;

/// What the threads of a cluster share: the board, under a lock, and the frontier beside it.
#[derive(Drop)]
pub struct Shared<K: Naming> {
    pub board: Mutex<Board<K>>,
    pub frontier: Frontier<K>,
    /// How many failures were declared: raised by whoever declares one, while it holds the lock. Where it stands still no
    /// gathering was opened, so nobody has to take the lock to look for one.
    pub failures: AtomicU64,
}

// Makes `n` reading passes, each with all that was posted.
fn passes_of<K: Naming>(
    alloc: Global,
    n: usize,
    writer: &mut Writer<K>,
    frontier: &Frontier<K>,
) -> Result<Vec<Pass<K>>, AllocError>
    ensures passes { IfOk result (λ passes. passes.items ≡ replicate n writer.old) }
    ensures same { writer.new ≡ writer.old }
{
    let mut passes = Vec::with_capacity(alloc, n)?;
    for _ in 0..n {
        passes.push_reserved(writer.pass(frontier));
    }
    Ok(passes)
}

impl<K: Naming> Shared<K> {
    /// Makes a board of as many processes as the cell is for, at their start, with its frontier and a reading pass for each
    /// process.
    pub fn new(alloc: Global, blank: Blank) -> Result<(Shared<K>, Vec<Pass<K>>), AllocError>
        requires { blank ≡ K.cell }
        ensures { IfOk result (λ made. made.1.items ≡ replicate K.cell.n (first_front K.cell.n ∷ [])) }
    {
        let n = blank.n();
        let manager = Manager::new(alloc, n)?;
        let (frontier, mut writer) = blank.open::<K>();
        let passes = passes_of(alloc, n, &mut writer, &frontier)?;
        let shared = Shared {
            board: Mutex::new(Board::new(manager, writer)),
            frontier,
            failures: AtomicU64::new(0),
        };
        Ok((shared, passes))
    }
}
