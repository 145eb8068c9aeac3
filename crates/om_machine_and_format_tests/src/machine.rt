use crate::same::{assert_same, assert_same_at};
use om_isa::{Ext, MAX_MEMORY, MIN_MEMORY, Reg, WRITABLE_REGISTERS, is_memory_size};
use om_machine::Cause::{
    Break, DataMisaligned, DataOutside, FetchOutside, Illegal, TargetMisaligned, UnknownCall,
};
use om_machine::{Cause, EnvCall, Event, LoadFault, Machine, Ran, laws};
use std::alloc::Global;
use std::process::Abort;

// A machine of RV32I whose image is these words.
fn loaded(alloc: Global, words: &[u32], size: u32) -> Result<Machine, LoadFault> {
    let mut image = Vec::new(alloc);
    for word in words {
        image.extend_from_slice(&word.to_le_bytes())?;
    }
    Machine::load(alloc, &image, size, Ext::I)
}

fn reg(machine: &Machine, r: u8) -> Option<u32> {
    Reg::new(r).map(|r| machine.reg(r))
}

fn place(machine: &Machine) -> (u32, u64) {
    (machine.pc(), machine.count())
}

// A branch to the address two behind its own, untaken and then taken.
const BRANCHES: [u32; 3] = [0x00029163, 0x00100293, 0x00029163];

// The sign bit, shifted right with its copies and then without.
const SHIFTS: [u32; 3] = [0x80000137, 0x41F15193, 0x01F15213];

type Stop = (&'static [u32], u32, u64, Cause, u32, (u8, u32));

// Image, size, the steps that go, the cause of the trap, pc there, and a register with its number. From the word FFFFFFFF
// on, one more of each cause: words of no instruction, ebreak, a fetch behind memory, a jump and a taken branch to address
// 2, 2 bytes at address 1, a byte read and a byte written behind memory, a call with only the topmost bit set, and a word of
// RV32M, which RV32I does not have.
const STOPS: [Stop; 20] = [
    (&BRANCHES, 12, 2, TargetMisaligned, 8, (5, 1)),
    (&[0x000010B7, 0xFFF0B093], 8, 2, FetchOutside, 8, (1, 1)),
    (&SHIFTS, 12, 3, FetchOutside, 12, (2, 0x8000_0000)),
    (&SHIFTS, 12, 3, FetchOutside, 12, (3, 0xFFFF_FFFF)),
    (&SHIFTS, 12, 3, FetchOutside, 12, (4, 1)),
    (&[0x002000EF], 8, 0, TargetMisaligned, 0, (1, 0)),
    (&[0xFFE02083], 8, 0, DataMisaligned, 0, (1, 0)),
    (&[0xFFC02083], 8, 0, DataOutside, 0, (1, 0)),
    (&[0x00500893, 0x00000073], 8, 1, UnknownCall, 4, (17, 5)),
    (&[0xFFFFFFFF], 4, 0, Illegal, 0, (0, 0)),
    (&[0x00000013], 8, 1, Illegal, 4, (0, 0)),
    (&[0x00100073], 4, 0, Break, 0, (0, 0)),
    (&[0x08000067], 8, 1, FetchOutside, 128, (0, 0)),
    (&[0x002000E7], 8, 0, TargetMisaligned, 0, (1, 0)),
    (&[0x00000163], 8, 0, TargetMisaligned, 0, (0, 0)),
    (&[0x00101083], 8, 0, DataMisaligned, 0, (1, 0)),
    (&[0x00804083], 8, 0, DataOutside, 0, (1, 0)),
    (&[0x00000423], 8, 0, DataOutside, 0, (0, 0)),
    (&[0x800008B7, 0x73], 8, 1, UnknownCall, 4, (17, 0x8000_0000)),
    (&[0x022081B3], 4, 0, Illegal, 0, (3, 0)),
];

fn assert_stop(rt: &impl Abort, machine: &mut Machine, stop: &Stop) {
    let (image, _, steps, cause, pc, (r, value)) = *stop;
    let event = Event::Trap(cause);
    let told = (machine.run(1000), machine.peek(), machine.step());
    let state = (place(machine), reg(machine, r));
    let ran = Ran { steps, event };
    let wanted = ((ran, event, event), ((pc, steps), Some(value)));
    assert_same_at(rt, &image, &(told, state), &wanted);
}

#[test]
fn programs_stop_where_the_tables_say(rt: HostRuntime) {
    let alloc = rt.alloc();
    for stop in &STOPS {
        let mut machine = loaded(alloc, stop.0, stop.1).expect(&rt, "a machine");
        assert_stop(&rt, &mut machine, stop);
    }
}

// A machine with two numbers in x1 and x2 and with one word.
fn with_operands(alloc: Global, a: u32, b: u32, word: u32, ext: Ext) -> Result<Machine, LoadFault> {
    let mut regs = [0; WRITABLE_REGISTERS];
    regs[0] = a;
    regs[1] = b;
    Machine::restore(alloc, &regs, 0, 0, &word.to_le_bytes(), ext)
}

type Results = (u32, u32, [u32; 8]);

// x1, x2, and what mul to remu of them are, by the RV32M tables.
const RESULTS: [Results; 3] = [
    (
        0x8000_0000,
        0xFFFF_FFFF,
        [
            0x8000_0000,
            0,
            0x8000_0000,
            0x7FFF_FFFF,
            0x8000_0000,
            0,
            0,
            0x8000_0000,
        ],
    ),
    (
        0xFFFF_FFF9,
        2,
        [
            0xFFFF_FFF2,
            0xFFFF_FFFF,
            0xFFFF_FFFF,
            1,
            0xFFFF_FFFD,
            0x7FFF_FFFC,
            0xFFFF_FFFF,
            1,
        ],
    ),
    (7, 0, [0, 0, 0, 0, 0xFFFF_FFFF, 0xFFFF_FFFF, 7, 7]),
];

type Step = (Ext, Event, [Option<u32>; 3], (u32, u64));

// The extension, the event of one step over a word of x1 and x2 into x3, and then these registers, pc and the count.
fn one_step(rt: &impl Abort, alloc: Global, (a, b): (u32, u32), word: u32, ext: Ext) -> Step {
    let mut machine = with_operands(alloc, a, b, word, ext).expect(rt, "a machine");
    let (ext, event) = (machine.ext(), machine.step());
    let registers = [reg(&machine, 1), reg(&machine, 2), reg(&machine, 3)];
    (ext, event, registers, place(&machine))
}

// Without the M extension there is no such instruction.
fn assert_results(rt: &impl Abort, alloc: Global, (a, b, results): &Results) {
    let operands = (*a, *b);
    let mut word = 0x0220_81B3;
    for result in results {
        let with = one_step(rt, alloc, operands, word, Ext::Im);
        let without = one_step(rt, alloc, operands, word, Ext::I);
        let registers = [Some(*a), Some(*b), Some(*result)];
        let wanted = (Ext::Im, Event::Went, registers, (4, 1));
        let registers = [Some(*a), Some(*b), Some(0)];
        let refused = (Ext::I, Event::Trap(Illegal), registers, (0, 0));
        assert_same_at(rt, &word, &(with, without), &(wanted, refused));
        word = word.wrapping_add(0x1000);
    }
}

#[test]
fn products_and_quotients_are_those_of_the_tables(rt: HostRuntime) {
    let alloc = rt.alloc();
    for results in &RESULTS {
        assert_results(&rt, alloc, results);
    }
}

// Fuel, and the count behind a run with it, one run after the other.
const FUELS: [(u64, u64); 3] = [(0, 0), (1000, 1000), (1, 1001)];

fn assert_runs(rt: &impl Abort, machine: &mut Machine) {
    for (fuel, count) in &FUELS {
        let ran = Ran {
            steps: *fuel,
            event: Event::Went,
        };
        let told = (machine.run(*fuel), machine.peek(), place(machine));
        assert_same_at(rt, fuel, &told, &(ran, Event::Went, (0, *count)));
    }
}

#[test]
fn fuel_ends_a_run(rt: HostRuntime) {
    let mut machine = loaded(rt.alloc(), &[0x0000006F], 4).expect(&rt, "a machine");
    assert_runs(&rt, &mut machine);
}

#[test]
fn a_jump_by_the_register_that_it_writes(rt: HostRuntime) {
    let mut machine = loaded(rt.alloc(), &[0x005000E7], 8).expect(&rt, "a machine");
    let told = (machine.step(), machine.pc(), reg(&machine, 1));
    assert_same(&rt, &told, &(Event::Went, 4, Some(4)));
}

type Load = (&'static [u32], u32, (bool, Result<u32, LoadFault>));

// Image, size, whether a memory can have it, and the size of the machine. The sizes of a memory: 4 to 65,536 bytes, a multiple
// of 4. An image may be as long as its memory.
const LOADS: [Load; 9] = [
    (&[0, 0], 6, (false, Err(LoadFault::BadSize))),
    (&[0, 0], 4, (true, Err(LoadFault::ImageTooLong))),
    (&[0, 0], 8, (true, Ok(8))),
    (&[], 0, (false, Err(LoadFault::BadSize))),
    (&[], 3, (false, Err(LoadFault::BadSize))),
    (&[], 4, (true, Ok(4))),
    (&[], 65_535, (false, Err(LoadFault::BadSize))),
    (&[], 65_536, (true, Ok(65_536))),
    (&[], 65_540, (false, Err(LoadFault::BadSize))),
];

fn loaded_size(alloc: Global, words: &[u32], size: u32) -> Result<u32, LoadFault> {
    match loaded(alloc, words, size) {
        Ok(machine) => Ok(machine.size()),
        Err(fault) => Err(fault),
    }
}

#[test]
fn machines_are_as_large_as_they_were_asked_to_be(rt: HostRuntime) {
    let alloc = rt.alloc();
    assert_same(&rt, &(MIN_MEMORY, MAX_MEMORY), &(4, 65_536));
    for (words, size, wanted) in &LOADS {
        let told = (
            is_memory_size(*size as usize),
            loaded_size(alloc, words, *size),
        );
        assert_same_at(&rt, size, &told, wanted);
    }
}

// A machine of the image 1, 2, 3.
fn small(rt: &impl Abort, alloc: Global) -> Machine {
    Machine::load(alloc, &[1, 2, 3], 8, Ext::I).expect(rt, "a machine")
}

#[test]
fn images_lie_at_the_start_of_memory(rt: HostRuntime) {
    let machine = small(&rt, rt.alloc());
    let told = (machine.ext(), machine.regs(), machine.memory());
    let memory = [1, 2, 3, 0, 0, 0, 0, 0].as_slice();
    assert_same(&rt, &told, &(Ext::I, [0; WRITABLE_REGISTERS], memory));
}

type Range = (u32, u32, Option<&'static [u8]>);

// Address, length, and the bytes there.
const RANGES: [Range; 5] = [
    (0, 8, Some(&[1, 2, 3, 0, 0, 0, 0, 0])),
    (2, 2, Some(&[3, 0])),
    (8, 0, Some(&[])),
    (7, 2, None),
    (0xFFFF_FFFF, 1, None),
];

fn assert_bytes(rt: &impl Abort, bytes: Option<&[u8]>, (addr, len, wanted): &Range) {
    assert_same_at(rt, &(addr, len), &bytes, wanted);
}

fn assert_ranges(rt: &impl Abort, machine: &Machine) {
    for range in &RANGES {
        assert_bytes(rt, machine.bytes(range.0, range.1), range);
    }
}

#[test]
fn bytes_are_told_where_all_lie_in_memory(rt: HostRuntime) {
    assert_ranges(&rt, &small(&rt, rt.alloc()));
}

const WORDS: [u8; 8] = [0x13, 0, 0, 0, 5, 6, 7, 8];

// A machine at address 4 and count 9, with 1 in x1 and all bits of x31.
fn restored(rt: &impl Abort, alloc: Global) -> Machine {
    let mut regs = [0; WRITABLE_REGISTERS];
    regs[0] = 1;
    regs[30] = 0xFFFF_FFFF;
    Machine::restore(alloc, &regs, 4, 9, &WORDS, Ext::Im).expect(rt, "a machine")
}

fn assert_restored(rt: &impl Abort, machine: &Machine) {
    let mut regs = [0; WRITABLE_REGISTERS];
    regs[0] = 1;
    regs[30] = 0xFFFF_FFFF;
    let told = (place(machine), machine.ext(), machine.memory());
    let registers = (machine.regs(), reg(machine, 0), reg(machine, 1));
    let wanted = ((4, 9), Ext::Im, WORDS.as_slice());
    assert_same(rt, &(told, registers), &(wanted, (regs, Some(0), Some(1))));
}

// Returns whether the machine that is restored from what this one tells, with this extension, is the same, and whether it is
// another.
fn compared(rt: &impl Abort, alloc: Global, machine: &Machine, ext: Ext) -> (bool, bool) {
    let (regs, memory) = (machine.regs(), machine.memory());
    let other = Machine::restore(alloc, &regs, machine.pc(), machine.count(), memory, ext);
    let other = other.expect(rt, "a machine");
    (*machine == other, *machine != other)
}

// A machine is restored as it was told, and another extension makes another machine.
#[test]
fn machines_are_restored_as_they_were_told(rt: HostRuntime) {
    let alloc = rt.alloc();
    let machine = restored(&rt, alloc);
    assert_restored(&rt, &machine);
    let same = compared(&rt, alloc, &machine, machine.ext());
    let other = compared(&rt, alloc, &machine, Ext::I);
    assert_same(&rt, &(same, other), &((true, false), (false, true)));
    // The laws are called for the theorems on them: they do nothing.
    laws::loading_makes_a_machine();
    laws::restoring_gives_the_machine();
    laws::step_is_a_function();
    laws::step_counts_or_stays();
    laws::call_has_room();
    laws::runs_go_on();
    laws::step_leaves_a_machine();
    laws::finishing_leaves_a_machine();
    om_isa::laws::limits();
}

const NOP: [u8; 4] = [0x13, 0, 0, 0];

const FULL: Event = Event::Trap(Cause::CountFull);

// A machine of RV32I at this address and this count, with 7 in x5 and no operation in its memory.
fn counted(rt: &impl Abort, alloc: Global, pc: u32, count: u64) -> Machine {
    assert!(rt; pc % 4 == 0);
    let mut regs = [0; WRITABLE_REGISTERS];
    regs[4] = 7;
    Machine::restore(alloc, &regs, pc, count, &NOP, Ext::I).expect(rt, "memory")
}

// Returns whether a machine is the one of a full count that was made at this address.
fn is_full(rt: &impl Abort, alloc: Global, machine: &Machine, pc: u32) -> bool {
    *machine == counted(rt, alloc, pc, u64::MAX) && machine.memory() == NOP.as_slice()
}

fn assert_full(rt: &impl Abort, machine: &Machine, told: (Event, Event), pc: u32) {
    let state = (place(machine), reg(machine, 5));
    assert_same(
        rt,
        &(told, state),
        &((FULL, FULL), ((pc, u64::MAX), Some(7))),
    );
}

// A machine of a full count stays as it is, wherever pc is.
#[test]
fn a_full_count_stops_the_machine(rt: HostRuntime) {
    let alloc = rt.alloc();
    for pc in &[0, 8] {
        let mut machine = counted(&rt, alloc, *pc, u64::MAX);
        let told = (machine.peek(), machine.step());
        assert_full(&rt, &machine, told, *pc);
        assert_same(&rt, &is_full(&rt, alloc, &machine, *pc), &true);
    }
}

// The last instruction that is counted, and the one behind it.
#[test]
fn the_last_instruction_is_counted(rt: HostRuntime) {
    let mut machine = counted(&rt, rt.alloc(), 0, u64::MAX - 1);
    let told = (machine.step(), machine.count(), machine.step());
    assert_same(&rt, &told, &(Event::Went, u64::MAX, FULL));
}

type Call = (u32, EnvCall, (u32, u32), (u32, u64), [u8; 4]);

// The word that puts a number into x17, the call with x10 = 16, x11 = 2 and x12 = 4, and behind it x10 and x11, pc and the
// count, and the word at 16. The machine stays at an exit.
const CALLS: [Call; 5] = [
    (
        0x00000893,
        EnvCall::Exit { code: 16 },
        (16, 2),
        (16, 4),
        [0x73, 0, 0, 0],
    ),
    (
        0x00100893,
        EnvCall::Send {
            to: 16,
            addr: 2,
            len: 4,
        },
        (9, 2),
        (20, 5),
        [0x73, 0, 0, 0],
    ),
    (
        0x00200893,
        EnvCall::Receive { addr: 16, cap: 2 },
        (3, 6),
        (20, 5),
        [1, 2, 0, 0],
    ),
    (
        0x00300893,
        EnvCall::Output { addr: 16, len: 2 },
        (9, 2),
        (20, 5),
        [0x73, 0, 0, 0],
    ),
    (0x00400893, EnvCall::Who, (1, 3), (20, 5), [0x73, 0, 0, 0]),
];

// Finishes the call at which the machine stands, if it is no exit.
fn finish(rt: &impl Abort, machine: &mut Machine) {
    match machine.peek() {
        Event::Call(EnvCall::Send { .. } | EnvCall::Output { .. }) => machine.finish_word(9),
        Event::Call(EnvCall::Receive { addr, cap }) => {
            assert!(rt; machine.bytes(addr, cap).is_some());
            machine.finish_receive(6, &[1, 2, 3]);
        }
        Event::Call(EnvCall::Who) => machine.finish_who(1, 3),
        _ => {}
    }
}

// A machine that runs into the call of this number.
fn at_call(rt: &impl Abort, alloc: Global, number: u32) -> Machine {
    let image = [number, 0x01000513, 0x00200593, 0x00400613, 0x00000073];
    loaded(alloc, &image, 20).expect(rt, "a machine")
}

fn assert_call(rt: &impl Abort, machine: &Machine, ran: Ran, call: &Call) {
    let (_, call, (first, second), behind, word) = *call;
    let event = Event::Call(call);
    let told = (reg(machine, 10), reg(machine, 11), machine.bytes(16, 4));
    let wanted = (Some(first), Some(second), Some(word.as_slice()));
    let ran = (ran, place(machine));
    assert_same(
        rt,
        &(ran, told),
        &((Ran { steps: 4, event }, behind), wanted),
    );
}

#[test]
fn calls_are_seen_and_finished(rt: HostRuntime) {
    let alloc = rt.alloc();
    for call in &CALLS {
        let mut machine = at_call(&rt, alloc, call.0);
        let ran = machine.run(1000);
        finish(&rt, &mut machine);
        assert_call(&rt, &machine, ran, call);
    }
}

const CAUSES: [(u32, Cause); 9] = [
    (1, Cause::Illegal),
    (2, Cause::Break),
    (3, Cause::FetchOutside),
    (4, Cause::TargetMisaligned),
    (5, Cause::DataMisaligned),
    (6, Cause::DataOutside),
    (7, Cause::UnknownCall),
    (8, Cause::BufferOutside),
    (9, Cause::CountFull),
];

#[test]
fn causes_have_their_numbers(rt: HostRuntime) {
    for (number, cause) in &CAUSES {
        assert_same(&rt, &cause.number(), number);
    }
}
