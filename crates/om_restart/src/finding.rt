//! The look into a store that a run may take up.

ghost use Rattle.std.specs.Prelude.{◌≡◌, ◌≤◌, ◌↔◌, ◌∷◌, ℕ, List, [], false, IfOk, IsErrOf, IsTrue, take};
ghost use Rattle.std.specs.FinMap as map;
ghost use Rattle.std.specs.List.{AllZip};
ghost use Rattle.om_interval.specs.declared.pid.TheConstants.{MAX_PROCESSES};
ghost use Rattle.om_look.specs.Rows.{AreRowsOf};
ghost use Rattle.om_process.specs.Images.{program_of};
ghost use Rattle.om_restart.specs.Abouts.{IsAboutOf};
ghost use Rattle.om_restart.specs.Beyond.{HasReceipt, HasStray};
ghost use Rattle.om_restart.specs.Outputs.{IsRowOfOutput};
ghost use Rattle.om_restart.specs.Senders.{AreSendersIn, GoOnAlong};
ghost use Rattle.om_restart.specs.declared.finding.FindFault.TheVariants.{Memory};
ghost use Rattle.om_stable.specs.Calls.{IsCleanCall, UsesStore, LeavesContent};
ghost use Rattle.om_stable.specs.Content.{Content, rows_of};
ghost use Rattle.om_stable.specs.Ledger.{in_table};

use crate::found::Found;
use crate::output::read_output;
use crate::receiving::{add_following, has_strays, received_in};
use om_interval::{MAX_PROCESSES, Pid};
use om_look::{RowsFault, about_of, stored_rows};
use om_process::{Image, Made, PendingRow};
use om_stable::{Ledger, LedgerTable, StoreError};
use std::alloc::{AllocError, AllocFailed, Global};
use thiserror::Error;

/// Why a run cannot take a store up.
#[derive(Clone, Copy, Debug, PartialEq, Eq, Error)]
pub enum FindFault {
    /// It is of another process, number of processes or program, or it holds something and does not say what it is of.
    #[error("another cluster")]
    Another,
    /// The checkpoint or the receipt of this interval is none of the process.
    #[error("damaged {0}")]
    Damaged(u32),
    /// The receipt of this interval is not the next of its sender.
    #[error("mismatch {0}")]
    Mismatch(u32),
    /// The row of this number among its outputs is none.
    #[error("damaged output {0}")]
    Output(u64),
    /// The row of this number among its senders does not follow on the one before.
    #[error("damaged senders {0}")]
    Senders(u64),
    /// The store failed, and its count of failures rose.
    #[error("the store failed")]
    Fault,
    /// Memory ran out.
    #[error("no memory")]
    Memory,
}

impl From<AllocError> for FindFault {
    ghost from_gives = { λ _ fault. fault ≡ Memory };

    fn from(_e: AllocError) -> FindFault {
        FindFault::Memory
    }
}

impl<T: Drop> From<AllocFailed<T>> for FindFault {
    ghost from_gives = { λ _ fault. fault ≡ Memory };

    fn from(_e: AllocFailed<T>) -> FindFault {
        FindFault::Memory
    }
}

impl From<RowsFault> for FindFault {
    ghost use Rattle.om_restart.specs.steps.Faults.{of_rows};

    ghost from_gives = { λ e fault. fault ≡ of_rows e };

    fn from(e: RowsFault) -> FindFault {
        match e {
            RowsFault::Damaged(x) => FindFault::Damaged(x),
            RowsFault::Mismatch(x) => FindFault::Mismatch(x),
            RowsFault::Fault => FindFault::Fault,
            RowsFault::Memory => FindFault::Memory,
        }
    }
}

/// Looks at the store of process `own` of `n`, of this program, as a run that may take it up. The store keeps its content.
///
/// Refused with `Another` where it says that it is of another process, or holds something and does not say what it is of; with
/// `Output` and `Senders` at a row of a table; with `Damaged` and `Mismatch` at a record; with `Fault` and `Memory` where they arise.
pub fn find<S: Ledger>(
    alloc: Global,
    store: &mut S,
    own: Pid,
    n: usize,
    image: &Image,
) -> Result<Found, FindFault>
    requires { n ≤ MAX_PROCESSES }
    ensures rows { IsCleanCall S.is_clean S.IsSound store.old store.new
        → IfOk result (λ found. AreRowsOf own n (S.content store.old) found.rows.items) }
    ensures outputs { IsCleanCall S.is_clean S.IsSound store.old store.new
        → IfOk result (λ found. AllZip IsRowOfOutput (map.entries (S.ledger store.old).outputs) found.outputs.items) }
    ensures about { IsCleanCall S.is_clean S.IsSound store.old store.new
        → IfOk result (λ found. IsAboutOf own n (program_of image.now) (map.entries (S.ledger store.old).about) found.has_about) }
    ensures kept { IsCleanCall S.is_clean S.IsSound store.old store.new
        → IfOk result (λ found. AreSendersIn (map.entries (S.ledger store.old).senders) (take found.kept found.senders.items)) }
    ensures senders { IsCleanCall S.is_clean S.IsSound store.old store.new
        → IfOk result (λ found. GoOnAlong own n (S.content store.old) found.rows.items found.kept found.senders.items) }
    ensures receipt { IsCleanCall S.is_clean S.IsSound store.old store.new
        → IfOk result (λ found. IsTrue found.has_receipt ↔ HasReceipt (S.content store.old) found.rows.items) }
    ensures same { LeavesContent S.content S.is_clean S.IsSound store.old store.new }
    ensures used { UsesStore S.failed S.is_clean S.IsSound store.old (IsErrOf result FindFault.Fault) store.new }
{
    let tables = tables_of(alloc, store, own, n, image)?;
    let rows = stored_rows(alloc, store, own, n)?;
    let has_strays = has_strays(alloc, store, own, n, &rows)?;
    found_of(alloc, tables, rows, has_strays)
}

// What the further tables of a store hold.
#[derive(Drop)]
struct Tables {
    has_about: bool,
    outputs: Vec<Made>,
    senders: Vec<u8>,
}

// Returns what they hold of process `own` of `n`, of this program.
fn tables_of<S: Ledger>(
    alloc: Global,
    store: &mut S,
    own: Pid,
    n: usize,
    image: &Image,
) -> Result<Tables, FindFault>
    requires { n ≤ MAX_PROCESSES }
    ensures outputs { IsCleanCall S.is_clean S.IsSound store.old store.new
        → IfOk result (λ tables. AllZip IsRowOfOutput (map.entries (S.ledger store.old).outputs) tables.outputs.items) }
    ensures about { IsCleanCall S.is_clean S.IsSound store.old store.new
        → IfOk result (λ tables. IsAboutOf own n (program_of image.now) (map.entries (S.ledger store.old).about) tables.has_about) }
    ensures senders { IsCleanCall S.is_clean S.IsSound store.old store.new
        → IfOk result (λ tables. AreSendersIn (map.entries (S.ledger store.old).senders) tables.senders.items) }
    ensures same { LeavesContent S.content S.is_clean S.IsSound store.old store.new }
    ensures used { UsesStore S.failed S.is_clean S.IsSound store.old (IsErrOf result FindFault.Fault) store.new }
{
    let about = rows_in(alloc, store, LedgerTable::About)?;
    let outputs = rows_in(alloc, store, LedgerTable::Outputs)?;
    let senders = rows_in(alloc, store, LedgerTable::Senders)?;
    tables_in(alloc, own, n, image, &about, &outputs, &senders)
}

// Reads the rows of a table.
fn rows_in<S: Ledger>(
    alloc: Global,
    store: &mut S,
    table: LedgerTable,
) -> Result<Vec<(u64, Vec<u8>)>, FindFault>
    ensures rows { IsCleanCall S.is_clean S.IsSound store.old store.new
        → IfOk result (λ rows. rows_of rows.items ≡ map.entries (in_table (S.ledger store.old) table)) }
    ensures same { LeavesContent S.content S.is_clean S.IsSound store.old store.new }
    ensures tables { IsCleanCall S.is_clean S.IsSound store.old store.new → S.ledger store.new ≡ S.ledger store.old }
    ensures used { UsesStore S.failed S.is_clean S.IsSound store.old (IsErrOf result FindFault.Fault) store.new }
{
    match store.all_in(alloc, table) {
        Ok(rows) => Ok(rows),
        Err(StoreError::Memory) => Err(FindFault::Memory),
        Err(_) => Err(FindFault::Fault),
    }
}

// Returns what these rows of the three tables are, of process `own` of `n` and this program.
fn tables_in(
    alloc: Global,
    own: Pid,
    n: usize,
    image: &Image,
    about: &[(u64, Vec<u8>)],
    outputs: &[(u64, Vec<u8>)],
    senders: &[(u64, Vec<u8>)],
) -> Result<Tables, FindFault>
    requires { n ≤ MAX_PROCESSES }
    ensures outputs { IfOk result (λ tables. AllZip IsRowOfOutput (rows_of outputs.now) tables.outputs.items) }
    ensures about { IfOk result (λ tables. IsAboutOf own n (program_of image.now) (rows_of about.now) tables.has_about) }
    ensures senders { IfOk result (λ tables. AreSendersIn (rows_of senders.now) tables.senders.items) }
    ensures never_fault { IsErrOf result FindFault.Fault → ⊥ }
{
    let own_about = about_of(alloc, own, n, image)?;
    Ok(Tables {
        has_about: says(about, &own_about)?,
        outputs: outputs_of(alloc, outputs)?,
        senders: senders_of(alloc, senders)?,
    })
}

// Returns whether the rows say that the store is of what these bytes tell.
fn says(rows: &[(u64, Vec<u8>)], about: &[u8]) -> Result<bool, FindFault>
    ensures said { IfOk result (λ said. IsTrue said → rows_of rows.now ≡ (0, about.now) ∷ []) }
    ensures silent { IfOk result (λ said. said ≡ false → rows_of rows.now ≡ []) }
    ensures other { IsErrOf result FindFault.Fault → ⊥ }
{
    if rows.is_empty() {
        return Ok(false);
    }
    let [(number, bytes)] = rows else {
        return Err(FindFault::Another);
    };
    if *number != 0 || bytes.as_slice() != about {
        return Err(FindFault::Another);
    }
    Ok(true)
}

// Reads the outputs that are the rows of a table.
fn outputs_of(alloc: Global, rows: &[(u64, Vec<u8>)]) -> Result<Vec<Made>, FindFault>
    ensures outputs { IfOk result (λ outputs. AllZip IsRowOfOutput (rows_of rows.now) outputs.items) }
    ensures never_fault { IsErrOf result FindFault.Fault → ⊥ }
{
    let mut outputs = Vec::new(alloc);
    for (seq, rec) in rows {
        match read_output(alloc, *seq, rec)? {
            Some(output) => outputs.push(output)?,
            None => return Err(FindFault::Output(*seq)),
        }
    }
    Ok(outputs)
}

// Reads the senders that are the rows of a table, of which each begins behind the one before.
fn senders_of(alloc: Global, rows: &[(u64, Vec<u8>)]) -> Result<Vec<u8>, FindFault>
    ensures senders { IfOk result (λ senders. AreSendersIn (rows_of rows.now) senders.items) }
    ensures never_fault { IsErrOf result FindFault.Fault → ⊥ }
{
    let mut senders = Vec::new(alloc);
    for (first, chunk) in rows {
        if *first != senders.len() as u64 {
            return Err(FindFault::Senders(*first));
        }
        senders.extend_from_slice(chunk)?;
    }
    Ok(senders)
}

// Returns all that was found. What holds something says what it is of.
fn found_of(
    alloc: Global,
    tables: Tables,
    rows: Vec<PendingRow>,
    has_strays: bool,
) -> Result<Found, FindFault>
    ensures rows { IfOk result (λ found. found.rows ≡ rows) }
    ensures outputs { IfOk result (λ found. found.outputs ≡ tables.outputs) }
    ensures about { IfOk result (λ found. found.has_about ≡ tables.has_about) }
    ensures kept { (known : List (ℕ × List ℕ)) → AreSendersIn known tables.senders.items
        → IfOk result (λ found. AreSendersIn known (take found.kept found.senders.items)) }
    ensures senders { (own n : ℕ) (held : Content) → n ≤ MAX_PROCESSES → AreRowsOf own n held rows.items
        → IfOk result (λ found. GoOnAlong own n held found.rows.items found.kept found.senders.items) }
    ensures receipt { (own n : ℕ) (held : Content) → n ≤ MAX_PROCESSES → AreRowsOf own n held rows.items
        → (IsTrue has_strays ↔ HasStray held rows.items)
        → IfOk result (λ found. IsTrue found.has_receipt ↔ HasReceipt held found.rows.items) }
    ensures never_fault { IsErrOf result FindFault.Fault → ⊥ }
{
    let Tables {
        has_about,
        outputs,
        mut senders,
    } = tables;
    let kept = senders.len();
    let received = received_in(alloc, &rows)?;
    add_following(&mut senders, &received)?;
    let found = Found {
        rows,
        outputs,
        senders,
        kept,
        has_about,
        has_receipt: has_strays || !received.is_empty(),
    };
    if !has_about && (found.is_begun() || found.is_beyond_start()) {
        return Err(FindFault::Another);
    }
    Ok(found)
}
