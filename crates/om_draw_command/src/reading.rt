//! What is read of a world, before and behind an event.

ghost use Rattle.std.specs.Prelude.{◌≡◌, ◌∷◌, ◌-◌, [], if◌then◌else◌, IfOk, IsTrue, length, true};
ghost use Rattle.om_manager.specs.State.{process_count};
ghost use Rattle.om_draw_command.specs.Reading.{handed_by, newly_handed};
ghost use Rattle.om_draw_command.specs.steps.Making.{has_made, makes};
ghost use Rattle.om_world.specs.Played.{Played};
ghost use Rattle.om_world.specs.World.{IsKnown, all_clean};

use om_interval::{MAX_PROCESSES, Pid};
use om_process::ProcCore;
use om_sheet::{EndState, LABEL_BYTES, Label, PlayedEvent, process_of};
use om_stable::Stable;
use om_world::{Answer, Event, World};
use std::alloc::{AllocError, Global};

// What is known of a process before an event.
#[derive(Clone, Copy)]
struct ProcessBefore {
    // The messages that it keeps, by receiver.
    kept: [usize; MAX_PROCESSES],
    // How many outputs it has handed in.
    next: u64,
}

// Returns how many messages a process keeps, by receiver.
fn kept_of(core: &ProcCore) -> [usize; MAX_PROCESSES] {
    let mut kept = [0; MAX_PROCESSES];
    for to in 0..core.vec().n() {
        kept[to] = core.outbox(Pid::at(to)).len();
    }
    kept
}

fn before<S: Stable>(world: &World<S>, p: usize) -> ProcessBefore
    ensures { result.next ≡ handed_by world.now.manager p }
{
    if p >= world.manager().recovery().n() {
        return ProcessBefore {
            kept: [0; MAX_PROCESSES],
            next: 0,
        };
    }
    let kept = match world.core(Pid::at(p)) {
        Some(core) => kept_of(core),
        None => [0; MAX_PROCESSES],
    };
    ProcessBefore {
        kept,
        next: world.manager().next_output(Pid::at(p)),
    }
}

// Returns how many frames an event made, by receiver.
fn new_frames(
    answer: Answer,
    before: &[usize; MAX_PROCESSES],
    after: &[usize; MAX_PROCESSES],
) -> [usize; MAX_PROCESSES] {
    match answer {
        Answer::Ran { sent, .. } if sent > 0 => risen(before, after),
        Answer::Resent(_) => *after,
        _ => [0; MAX_PROCESSES],
    }
}

fn risen(
    before: &[usize; MAX_PROCESSES],
    after: &[usize; MAX_PROCESSES],
) -> [usize; MAX_PROCESSES] {
    let mut more = [0; MAX_PROCESSES];
    for p in 0..MAX_PROCESSES {
        more[p] = after[p].saturating_sub(before[p]);
    }
    more
}

fn label_of(bytes: &[u8]) -> Label {
    let mut first = [0; LABEL_BYTES];
    let count = bytes.len().min(LABEL_BYTES);
    first[..count].copy_from_slice(&bytes[..count]);
    Label {
        bytes: first,
        size: bytes.len(),
    }
}

// Returns the label of the output of a number, which a process keeps.
fn label_at<S: Stable>(world: &World<S>, p: usize, number: u64) -> Label {
    if p < MAX_PROCESSES
        && let Some(core) = world.core(Pid::at(p))
        && let Some(made) = core.outputs_from(number).first()
    {
        return label_of(made.bytes.as_slice());
    }
    label_of(&[])
}

fn has_made(answer: Answer) -> bool
    ensures { result ≡ has_made answer }
{
    match answer {
        Answer::Ran { made, .. } => made > 0,
        _ => false,
    }
}

fn makes(event: Event, answer: Answer) -> bool
    ensures { result ≡ makes event answer }
{
    match event {
        Event::Run { .. } => has_made(answer),
        _ => false,
    }
}

// Returns how many outputs an event handed in, of a process that had handed in so many before it and has so many now.
fn fresh_of(event: Event, answer: Answer, before: u64, now: u64) -> u64
    ensures { result ≡ (if makes event answer then now - before else 0) }
{
    if makes(event, answer) {
        now.saturating_sub(before)
    } else {
        0
    }
}

/// Returns what an event of a line showed, by its answer: `old` is the world before it, as far as it is read.
fn step_of<S: Stable>(
    world: &World<S>,
    line: usize,
    event: Event,
    answer: Answer,
    p: usize,
    old: &ProcessBefore,
) -> PlayedEvent
    ensures line { result.line ≡ line }
    ensures event { result.event ≡ event }
    ensures answer { result.answer ≡ answer }
    ensures recovery { result.recovery ≡ world.now.manager.recovery }
    ensures fresh { result.fresh ≡ (if makes event answer then handed_by world.now.manager p - old.now.next else 0) }
{
    let new = before(world, p);
    PlayedEvent {
        line,
        event,
        answer,
        frames: new_frames(answer, &old.kept, &new.kept),
        first: old.next,
        fresh: fresh_of(event, answer, old.next, new.next),
        label: label_at(world, p, old.next),
        recovery: world.manager().recovery(),
    }
}

// Returns the one answer.
fn only(answers: &[Answer]) -> Answer
    requires { length answers.now ≡ 1 }
    ensures { answers.now ≡ result ∷ [] }
{
    match answers {
        [answer] => *answer,
        _ => unreachable!(),
    }
}

/// Plays an event that stands on a line, and says what it showed.
pub fn play_step<S: Stable>(
    alloc: Global,
    world: &mut World<S>,
    line: usize,
    event: Event,
) -> Result<PlayedEvent, AllocError>
    ensures played { IsKnown world.new → IfOk result (λ step. Played world.old (event ∷ []) (step.answer ∷ []) world.new) }
    ensures line { IfOk result (λ step. step.line ≡ line) }
    ensures event { IfOk result (λ step. step.event ≡ event) }
    ensures recovery { IfOk result (λ step. step.recovery ≡ world.new.manager.recovery) }
    ensures fresh { IfOk result (λ step. step.fresh ≡ newly_handed event step.answer world.old.manager world.new.manager) }
    ensures size { process_count world.new.manager ≡ process_count world.old.manager }
    ensures always { ((store : S) → IsTrue (S.is_clean store)) → all_clean world.new.health ≡ true }
    ensures origins { world.new.origins ≡ world.old.origins }
{
    let p = process_of(event).unwrap_or(MAX_PROCESSES);
    let old = before(world, p);
    let answers = world.play(alloc, &[event])?;
    let answer = only(&answers);
    Ok(step_of(world, line, event, answer, p, &old))
}

/// Returns where each of so many processes stands.
pub fn standings_of<S: Stable>(
    alloc: Global,
    world: &World<S>,
    n: usize,
) -> Result<Vec<Option<EndState>>, AllocError> {
    let mut end_states = Vec::new(alloc);
    for p in 0..n.min(MAX_PROCESSES) {
        end_states.push(end_state_of(world, Pid::at(p)))?;
    }
    Ok(end_states)
}

fn end_state_of<S: Stable>(world: &World<S>, pid: Pid) -> Option<EndState> {
    let core = world.core(pid)?;
    Some(EndState {
        inc: core.inc(),
        interval: core.interval(),
        status: core.status(),
    })
}
