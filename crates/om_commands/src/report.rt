//! The text of what the notes of a cluster lead to.

ghost use Rattle.std.specs.Prelude.{◌≡◌, ◌≢◌, ◌≤◌, ◌++◌, ◌∷◌, [], ℕ, List, length, Err, Ok, IfOk, OnOk, string_bytes};
ghost use Rattle.om_interval.specs.declared.pid.TheConstants.{MAX_PROCESSES};
ghost use Rattle.om_recover.specs.Offered.{offered, TellsChange};
ghost use Rattle.om_recover.specs.Recoverable.{IsGreatest};
ghost use Rattle.om_recover.specs.declared.note.NoteError.TheVariants.{Memory};
ghost use Rattle.om_commands.specs.Report.{IsReport, answer_word, offered_row, intervals_text};

use crate::record_script::NoteLine;
use om_interval::{DepVec, Pid};
use om_recover::{Note, NoteError, Records, RowKind, Work};
use std::alloc::{AllocError, Global};
use std::fmt::Write;

/// Makes the text of the notes of a cluster of `n` processes: a line for the answer to each with the recovery state
/// after it, and the recovery state in the end.
pub fn report(alloc: Global, n: usize, notes: &[NoteLine]) -> Result<String, AllocError>
    requires some { 1 ≤ n }
    requires within { n ≤ MAX_PROCESSES }
    ensures { IfOk result (λ text. IsReport n notes.now (string_bytes text)) }
{
    let mut records = Records::new(alloc, n)?;
    let zeros = records.recovery();
    let mut text = String::new(alloc);
    let mut state = String::new(alloc);
    push_state(&mut state, &zeros)?;
    let mut work = Work::new();
    for note in notes {
        let answer = answer_to(alloc, &mut records, note, &zeros, &mut work);
        push_answer(&mut text, answer)?;
        write_state(&mut state, answer, &records)?;
        text.push_str(&state)?;
    }
    text.push_str("recovery")?;
    text.push_str(&state)?;
    Ok(text)
}

// Writes the text of the recovery state anew where an answer says that the state rose. Most answers leave it.
fn write_state(
    text: &mut String,
    answer: Result<Note, NoteError>,
    records: &Records,
) -> Result<(), AllocError>
    ensures { OnOk result ((state : List ℕ) → TellsChange answer state records.now.state
        → string_bytes text.old ≡ intervals_text state → string_bytes text.new ≡ intervals_text records.now.state) }
{
    if let Ok(Note::Noted { raised: true }) = answer {
        text.clear();
        push_state(text, &records.recovery())?;
    }
    Ok(())
}

// Offers a note's row to the records. A number of 16 or above is no process of any cluster.
fn answer_to(
    alloc: Global,
    records: &mut Records,
    note: &NoteLine,
    zeros: &DepVec,
    work: &mut Work,
) -> Result<Note, NoteError>
    requires { length zeros.now ≡ length records.old.state }
    ensures answer { offered (length records.old.state) records.old.rows (offered_row zeros.now note.now) result records.new.rows }
    ensures change { TellsChange result records.old.state records.new.state }
    ensures greatest { IsGreatest (length records.old.state) records.new.rows records.new.state }
{
    let Some(pid) = Pid::new(note.pid) else {
        // The read tells the proof that the records are sound.
        let _ = records.recovery();
        return Err(NoteError::Stranger);
    };
    match note.kind {
        RowKind::Log => records.note_logged(alloc, pid, note.interval, &note.vec, zeros, work),
        RowKind::Checkpoint => records.note_checkpoint(
            alloc,
            pid,
            note.interval,
            &note.vec,
            zeros,
            work,
        ),
    }
}

// Writes the word of an answer and a colon. Want of memory has no word.
fn push_answer(text: &mut String, answer: Result<Note, NoteError>) -> Result<(), AllocError>
    ensures word { OnOk result (string_bytes text.new ≡ (string_bytes text.old ++ answer_word answer) ++ 58 ∷ []) }
    ensures written { OnOk result (answer ≢ Err Memory) }
{
    match answer {
        Ok(note) => text.push_str(note_word(note))?,
        Err(error) => push_error(text, error)?,
    }
    text.push(':')
}

fn note_word(note: Note) -> &'static str
    ensures { result.now ≡ answer_word (Ok note) }
{
    match note {
        Note::Noted { raised: true } => "raised",
        Note::Noted { raised: false } => "noted",
        Note::Known => "known",
    }
}

fn push_error(text: &mut String, error: NoteError) -> Result<(), AllocError>
    ensures word { OnOk result (string_bytes text.new ≡ string_bytes text.old ++ answer_word (Err error)) }
    ensures written { OnOk result (error ≢ Memory) }
{
    match error {
        NoteError::Stranger => text.push_str("stranger"),
        NoteError::BadVector => text.push_str("bad-vector"),
        NoteError::Differs => text.push_str("differs"),
        NoteError::Disorder(y) => write!(text, "disorder {y}"),
        NoteError::Memory => Err(AllocError),
    }
}

/// Writes the intervals of a state, each after a space, and ends the line.
pub fn push_state(text: &mut String, state: &DepVec) -> Result<(), AllocError>
    ensures { OnOk result (string_bytes text.new ≡ string_bytes text.old ++ intervals_text state.now) }
{
    for interval in state.as_slice() {
        write!(text, " {interval}")?;
    }
    text.push('\n')
}
