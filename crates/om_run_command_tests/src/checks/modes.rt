//! What is carried out in each mode, over stores that keep what they are given and over stores that do not.

use super::rings::ring;
use crate::beside::Beside;
use crate::rows::outcome_of;
use om_commands::{BytesForm, CommandError};
use om_interval::Pid;
use om_run_commands::{RunMode, run_file};
use om_runner::{InMemory, OpenFault, Opener};
use om_stable::{Ledger, LedgerTable, MemStable, Stable, StoreError, WriteBatch};
use std::alloc::{AllocError, Global};
use std::process::Abort;
use std::sync::Wait;
use std::thread::Threads;
use std::time::Clock;

// The turns of a worker.
const TURNS: u64 = 50_000_000;

// A receipt has so many bytes before the body of its message.
const HEAD: usize = 26;

// A store in memory that puts other receipts than it is given: the last byte of each body is another.
#[derive(Drop)]
pub(super) struct Altering {
    inner: MemStable,
}

// A record with another last byte, where it has a body.
fn altered(alloc: Global, record: &[u8]) -> Result<Vec<u8>, AllocError> {
    let mut bytes = record.to_vec(alloc)?;
    if bytes.len() > HEAD {
        if let Some(last) = bytes.last_mut() {
            *last ^= 255;
        }
    }
    Ok(bytes)
}

fn all_altered(alloc: Global, records: &[Vec<u8>]) -> Result<Vec<Vec<u8>>, AllocError> {
    let mut all = Vec::new(alloc);
    for record in records {
        all.push(altered(alloc, record)?)?;
    }
    Ok(all)
}

impl Stable for Altering {
    ghost use Rattle.std.specs.Prelude.{false};

    ghost content = { λ s. s.inner };

    ghost failed = { λ s. 0 };

    ghost is_clean = { λ _. false };

    ghost IsSound = { λ _. Unit {0} };

    ghost call_gives = { λ _ _ _. Unit {0} };

    fn put_receipts(
        &mut self,
        alloc: Global,
        first: u32,
        recs: &[Vec<u8>],
    ) -> Result<(), StoreError> {
        let Ok(all) = all_altered(alloc, recs) else {
            return Err(StoreError::Memory);
        };
        if u64::from(first) + all.len() as u64 > 4_294_967_296 {
            return Err(StoreError::Memory);
        }
        self.inner.put_receipts(alloc, first, &all)
    }

    fn put_checkpoint(&mut self, alloc: Global, x: u32, bytes: &[u8]) -> Result<(), StoreError> {
        self.inner.put_checkpoint(alloc, x, bytes)
    }

    fn effective(&mut self, alloc: Global, x: u32) -> Result<Option<(u32, Vec<u8>)>, StoreError> {
        self.inner.effective(alloc, x)
    }

    fn receipts(
        &mut self,
        alloc: Global,
        after: u32,
        to: u32,
    ) -> Result<Vec<(u32, Vec<u8>)>, StoreError> {
        self.inner.receipts(alloc, after, to)
    }

    fn cut(&mut self, alloc: Global, r: u32) -> Result<(), StoreError> {
        self.inner.cut(alloc, r)
    }

    fn prune(&mut self, alloc: Global, c: u32) -> Result<(), StoreError> {
        self.inner.prune(alloc, c)
    }

    fn failures(&self) -> u64 {
        self.inner.failures()
    }
}

impl Ledger for Altering {
    ghost use Rattle.std.specs.Prelude.{false, refl};
    ghost use Rattle.om_stable.specs.Ledger.{blank};

    ghost ledger = { λ _. blank };

    ghost keeps = { λ _. false };

    ghost stays = { λ old new error clean gives. refl };

    fn put_in(
        &mut self,
        _alloc: Global,
        _table: LedgerTable,
        _first: u64,
        _recs: &[Vec<u8>],
    ) -> Result<(), StoreError> {
        Ok(())
    }

    fn all_in(
        &mut self,
        alloc: Global,
        _table: LedgerTable,
    ) -> Result<Vec<(u64, Vec<u8>)>, StoreError> {
        Ok(Vec::new(alloc))
    }

    fn put_batch(&mut self, alloc: Global, batch: &WriteBatch<'_>) -> Result<(), StoreError> {
        let Ok(all) = all_altered(alloc, batch.receipts) else {
            return Err(StoreError::Memory);
        };
        if u64::from(batch.first) + all.len() as u64 > 4_294_967_296 {
            return Err(StoreError::Memory);
        }
        let altered = WriteBatch {
            receipts: &all,
            ..*batch
        };
        self.inner.put_batch(alloc, &altered)
    }
}

// Makes such stores.
#[derive(Drop)]
pub(super) struct AllAltering;

impl<R> Opener<R> for AllAltering {
    type Store = Altering;

    fn make(&self, _rt: &R, alloc: Global, _pid: Pid) -> Result<Altering, OpenFault> {
        Ok(Altering {
            inner: MemStable::new(alloc),
        })
    }
}

// s sends its first word to r twice. r puts out both together; before that it fails as the second comes, and so takes the first from
// its store.
pub(super) const TWICE: &str = "\
program snd 64 00100893 00100513 00000593 00400613 00000073 00100893 00100513 00000593 00400613 00000073 00000893 00000513 00000073
program rcv 256 00200893 08000513 00400593 00000073 00200893 08400513 00400593 00000073 00300893 08000513 00800593 00000073 \
00000893 00000513 00000073
proc s snd
proc r rcv
kill r 2
flush 1
";

const TWICE_ENDS: &str = "out r 0 9308100093081000\nend s ended 0\nend r ended 0\n";

const ALTERED_ENDS: &str = "out r 0 930810ff93081000\nend s ended 0\nend r ended 0\n";

// Returns what a run in a mode answers and writes, over stores that are made so.
pub(super) fn carry_out<R: Threads + Wait + Clock + Sync, O: Opener<R> + Sync>(
    rt: &R,
    alloc: Global,
    mode: RunMode<'static>,
    opener: &O,
    beside: &mut Beside,
    mut input: &[u8],
) -> (Result<(), CommandError>, Vec<u8>) {
    let written = Vec::new(alloc);
    let form = BytesForm::Hex;
    let (answer, written) = run_file(
        rt, alloc, mode, form, TURNS, opener, beside, &mut input, written,
    );
    (outcome_of(answer), written)
}

// By mode: what is answered and written where the stores alter what they are given. Only a check sees it.
static ALTERED: [(RunMode<'static>, Result<(), CommandError>, &str); 5] = [
    (RunMode::Plain, Ok(()), ALTERED_ENDS),
    (RunMode::Check, Err(CommandError::Unlike), ""),
    (RunMode::Witness, Err(CommandError::Unlike), ""),
    (RunMode::Record, Ok(()), ALTERED_ENDS),
    (RunMode::Follow, Ok(()), ALTERED_ENDS),
];

fn check_altered<R: Threads + Wait + Clock + Abort + Sync>(
    rt: &R,
    alloc: Global,
    mode: RunMode<'static>,
) {
    let mut beside = Beside::new(alloc);
    let input = TWICE.as_bytes();
    let told = carry_out(rt, alloc, mode, &AllAltering, &mut beside, input);
    for (row, answer, text) in &ALTERED {
        if *row == mode {
            assert!(rt;
                told.0 == *answer && told.1.as_slice() == text.as_bytes(),
                "{mode:?}"
            );
        }
    }
}

// What is answered and written where the stores keep what they are given.
fn check_kept<R: Threads + Wait + Clock + Abort + Sync>(
    rt: &R,
    alloc: Global,
    mode: RunMode<'static>,
) {
    let mut beside = Beside::new(alloc);
    let input = TWICE.as_bytes();
    let told = carry_out(rt, alloc, mode, &InMemory, &mut beside, input);
    let is_right = told.0 == Ok(()) && told.1.as_slice() == TWICE_ENDS.as_bytes();
    assert!(rt; is_right, "{mode:?}");
}

#[test]
fn stores_that_alter_are_seen_by_a_check(rt: HostRuntime) {
    for (mode, _, _) in &ALTERED {
        check_kept(&rt, rt.alloc(), *mode);
        check_altered(&rt, rt.alloc(), *mode);
    }
}

// By mode: whether the file has a script, and one with comments.
static FILES: [(RunMode<'static>, bool, bool); 5] = [
    (RunMode::Plain, false, false),
    (RunMode::Check, false, false),
    (RunMode::Witness, true, false),
    (RunMode::Record, true, true),
    (RunMode::Follow, false, false),
];

// The lines of the programs and processes, and then events.
fn is_script(rt: &impl Abort, file: &[u8], head: &str) -> bool {
    let text = str::from_utf8(file).ok().expect(rt, "a text");
    text.starts_with(head) && text.contains("\nrun 0 ") && text.contains("\ngive 1 0\n")
}

// The file of a run in a mode is a script with comments or without, or has nothing.
fn check_file<R: Threads + Wait + Clock + Abort + Sync>(
    rt: &R,
    alloc: Global,
    head: &str,
    (mode, is_written, has_comments): (RunMode<'static>, bool, bool),
) {
    let mut beside = Beside::new(alloc);
    let input = TWICE.as_bytes();
    let told = carry_out(rt, alloc, mode, &InMemory, &mut beside, input);
    let file = beside.file.as_slice();
    let is_right = if is_written {
        is_script(rt, file, head) && file.contains(&b'#') == has_comments
    } else {
        file.is_empty()
    };
    assert!(rt; told.0 == Ok(()) && is_right, "{mode:?}");
}

#[test]
fn scripts_are_written_by_their_modes(rt: HostRuntime) {
    let end = TWICE.find("kill").expect(&rt, "kills");
    let head = TWICE.get(..end).expect(&rt, "lines");
    for row in &FILES {
        check_file(&rt, rt.alloc(), head, *row);
    }
}

// How often it was made ready, and how often it was told the end.
fn check_counts(rt: &impl Abort, beside: &Beside, begun: u32, ended: u32) {
    let is_right = beside.begun == begun && beside.ended == ended;
    assert!(rt; is_right, "{begun} {ended}");
}

fn check_beside<R: Threads + Wait + Clock + Abort + Sync>(
    rt: &R,
    alloc: Global,
    mode: RunMode<'static>,
    input: &[u8],
) {
    let mut beside = Beside::new(alloc);
    let told = carry_out(rt, alloc, mode, &InMemory, &mut beside, input);
    assert!(rt;
        told.0 == Ok(()) && beside.outcome == Some(told.0),
        "{mode:?}"
    );
    assert!(rt; beside.processes == 3, "{mode:?}");
    check_counts(rt, &beside, 1, 1);
}

// What is beside a run is made ready once, for the processes of the file, and is told how it ended.
#[test]
fn what_is_beside_a_run(rt: HostRuntime) {
    let input = ring(&rt, rt.alloc(), 3, "");
    for (mode, _, _) in &FILES {
        check_beside(&rt, rt.alloc(), *mode, input.as_bytes());
    }
}

// A run of this input in a mode is refused so, and nothing is written.
fn check_refused<R: Threads + Wait + Clock + Abort + Sync>(
    rt: &R,
    alloc: Global,
    mode: RunMode<'static>,
    beside: &mut Beside,
    (input, error): (&[u8], CommandError),
) {
    let told = carry_out(rt, alloc, mode, &InMemory, beside, input);
    assert!(rt; told.0 == Err(error) && told.1.is_empty(), "{mode:?}");
}

// A file that is refused has nothing made ready, and where nothing can be made ready nothing runs.
fn check_not_begun<R: Threads + Wait + Clock + Abort + Sync>(
    rt: &R,
    alloc: Global,
    mode: RunMode<'static>,
) {
    let mut beside = Beside::new(alloc);
    let faulty = (b"fuel 1\n".as_slice(), CommandError::EmptyScript);
    check_refused(rt, alloc, mode, &mut beside, faulty);
    check_counts(rt, &beside, 0, 0);
    beside.refuses = true;
    let whole = (TWICE.as_bytes(), CommandError::StoreFault);
    check_refused(rt, alloc, mode, &mut beside, whole);
    check_counts(rt, &beside, 1, 0);
    assert!(rt; beside.file.is_empty(), "{mode:?}");
}

#[test]
fn runs_that_are_not_begun(rt: HostRuntime) {
    for (mode, _, _) in &FILES {
        check_not_begun(&rt, rt.alloc(), *mode);
    }
}
