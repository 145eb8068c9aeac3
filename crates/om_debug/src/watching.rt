//! Which bytes of memory an instruction or a message reads or writes, and which watchpoint that meets.

ghost use Rattle.std.specs.Prelude.{◌≡◌, Some, length, slice_get};
ghost use Rattle.om_machine.specs.derived.NextStep.{next_of};
ghost use Rattle.om_machine.specs.Effects.{address_of};
ghost use Rattle.om_debug.specs.Moments.{next_at};
ghost use Rattle.om_debug.specs.Watching.{access_of, changes, first_changed, first_met, heeds, inst_access, inst_at, meets, overlaps, ran_met, receipt_access, watch_met};

use crate::moment::{Next, next_at};
use om_isa::{Imm12, Inst, Reg, decode};
use om_machine::{EnvCall, Event, Machine};
use om_requests::{Watch, Watched};
use om_timeline::{Deed, Position};

// Bytes of memory that are read or written, from an address on.
#[derive(Clone, Copy, Debug, PartialEq, Eq)]
pub(crate) struct Access {
    pub(crate) address: u32,
    pub(crate) length: u32,
    pub(crate) writes: bool,
}

// Returns the instruction at pc, if one is there.
fn inst_at(machine: &Machine) -> Option<Inst>
    ensures { result ≡ inst_at machine.now }
{
    let at = machine.pc() as usize;
    let memory = machine.memory();
    if at + 4 > memory.len() {
        return None;
    }
    let mut bytes = [0; 4];
    bytes.copy_from_slice(&memory[at..at + 4]);
    decode(u32::from_le_bytes(bytes), machine.ext())
}

fn bytes_at(machine: &Machine, base: Reg, imm: Imm12, length: u32, writes: bool) -> Access
    ensures address { result.address ≡ address_of machine.now base imm }
    ensures length { result.length ≡ length }
    ensures writes { result.writes ≡ writes }
{
    Access {
        address: machine.reg(base).wrapping_add(imm.value().cast_unsigned()),
        length,
        writes,
    }
}

// Returns what an instruction reads or writes, if anything.
fn access_of(machine: &Machine, inst: Inst) -> Option<Access>
    ensures { result ≡ access_of machine.now inst }
{
    match inst {
        Inst::Lb { rs1, imm, .. } => Some(bytes_at(machine, rs1, imm, 1, false)),
        Inst::Lh { rs1, imm, .. } => Some(bytes_at(machine, rs1, imm, 2, false)),
        Inst::Lw { rs1, imm, .. } => Some(bytes_at(machine, rs1, imm, 4, false)),
        Inst::Lbu { rs1, imm, .. } => Some(bytes_at(machine, rs1, imm, 1, false)),
        Inst::Lhu { rs1, imm, .. } => Some(bytes_at(machine, rs1, imm, 2, false)),
        Inst::Sb { rs1, imm, .. } => Some(bytes_at(machine, rs1, imm, 1, true)),
        Inst::Sh { rs1, imm, .. } => Some(bytes_at(machine, rs1, imm, 2, true)),
        Inst::Sw { rs1, imm, .. } => Some(bytes_at(machine, rs1, imm, 4, true)),
        _ => None,
    }
}

// Returns what the instruction at pc reads or writes, if anything.
fn inst_access(machine: &Machine) -> Option<Access>
    ensures { result ≡ inst_access machine.now }
{
    access_of(machine, inst_at(machine)?)
}

// Returns where a message of so many bytes goes.
fn receipt_access(event: Event, bytes: usize) -> Option<Access>
    ensures { result ≡ receipt_access event bytes }
{
    match event {
        Event::Call(EnvCall::Receive { addr, cap }) => Some(Access {
            address: addr,
            length: bytes.min(cap as usize) as u32,
            writes: true,
        }),
        _ => None,
    }
}

fn heeds(kind: Watched, writes: bool) -> bool
    ensures { result ≡ heeds kind writes }
{
    match kind {
        Watched::Writes => writes,
        Watched::Reads => !writes,
        Watched::Both => true,
    }
}

fn overlaps(watch: Watch, access: Access) -> bool
    ensures { result ≡ overlaps watch access }
{
    u64::from(access.address) < u64::from(watch.address) + u64::from(watch.length)
        && u64::from(watch.address) < u64::from(access.address) + u64::from(access.length)
}

fn meets(watch: Watch, access: Access) -> bool
    ensures { result ≡ meets watch access }
{
    heeds(watch.kind, access.writes) && overlaps(watch, access)
}

// Returns the first watchpoint that an access meets.
fn first_met(watches: &[Watch], access: Option<Access>) -> Option<Watch>
    ensures { result ≡ first_met access watches.now }
{
    match access {
        Some(access) => first_met_by(watches, access),
        None => None,
    }
}

fn first_met_by(watches: &[Watch], access: Access) -> Option<Watch>
    ensures { result ≡ first_met (Some access) watches.now }
{
    for watch in watches {
        if meets(*watch, access) {
            return Some(*watch);
        }
    }
    None
}

// Returns whether the bytes of a watchpoint are others in the second machine.
fn changes(watch: Watch, before: &Machine, after: &Machine) -> bool
    ensures { result ≡ changes watch before.now after.now }
{
    if !heeds(watch.kind, true) {
        return false;
    }
    let old = before.bytes(watch.address, watch.length);
    let new = after.bytes(watch.address, watch.length);
    match (old, new) {
        (Some(old), Some(new)) => old != new,
        _ => false,
    }
}

// Returns the first watchpoint whose bytes are others in the second machine.
fn first_changed(watches: &[Watch], before: &Machine, after: &Machine) -> Option<Watch>
    ensures { result ≡ first_changed before.now after.now watches.now }
{
    for watch in watches {
        if changes(*watch, before, after) {
            return Some(*watch);
        }
    }
    None
}

// Returns the watchpoint that is met by what comes next at a position.
#[tactic(auto, using(crate::proofs::Quiet::none_met_of, crate::proofs::Quiet::watch_read, crate::proofs::Quiet::watch_past))]
pub(crate) fn watch_met(
    watches: &[Watch],
    machine: &Machine,
    deeds: &[Deed],
    at: Position,
) -> Option<Watch>
    ensures { result ≡ watch_met watches.now machine.now (slice_get deeds.now at.event) (next_at deeds.now at.event at.turns) }
{
    // Nothing is looked up where nothing is watched.
    if watches.is_empty() {
        return None;
    }
    if at.event >= deeds.len() {
        return None;
    }
    let next = next_at(deeds, at);
    match &deeds[at.event] {
        Deed::Nothing => None,
        Deed::Ran(_) => ran_met(watches, machine, next),
        Deed::Took(_, body) => {
            first_met(
                watches,
                receipt_access(machine.peek(), body.as_slice().len()),
            )
        }
        Deed::Fell => None,
        Deed::Back(after) => first_changed(watches, machine, after),
    }
}

fn ran_met(watches: &[Watch], machine: &Machine, next: Next) -> Option<Watch>
    ensures { result ≡ ran_met watches.now machine.now next }
{
    match next {
        Next::Still => None,
        Next::Instructions(_) => first_met(watches, inst_access(machine)),
        Next::Receipt => None,
        Next::Failure => None,
        Next::Return => None,
    }
}
