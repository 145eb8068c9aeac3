//! What a debugger asks for.

/// A thread that is meant.
#[derive(Clone, Copy, Debug, PartialEq, Eq)]
pub enum Thread {
    /// Whichever.
    Any,
    /// The thread of this number, from 1 on.
    Numbered(u32),
}

/// How a process is to go on.
#[derive(Clone, Copy, Debug, PartialEq, Eq)]
pub enum Resume {
    /// By one instruction.
    Step,
    /// As long as pc is at the first address or above, and below the second.
    Range(u32, u32),
    /// Until something stops it.
    Continue,
}

/// Which accesses a watchpoint stops at.
#[derive(Clone, Copy, Debug, PartialEq, Eq)]
pub enum Watched {
    Writes,
    Reads,
    Both,
}

/// A watchpoint: so many bytes of memory from an address on.
#[derive(Clone, Copy, Debug, PartialEq, Eq)]
pub struct Watch {
    pub kind: Watched,
    pub address: u32,
    pub length: u32,
}

/// A command of the user for what answers.
#[derive(Clone, Copy, Debug, PartialEq, Eq)]
pub enum Command {
    /// Where time stands, and the process.
    Where,
    /// The events around.
    Events,
    /// To go to before the event of this number.
    Goto(u32),
    /// Which commands there are.
    Help,
}

/// What a packet asks.
#[derive(Clone, Copy, Debug, PartialEq, Eq)]
pub enum Request {
    /// Which packets are answered: `qSupported`.
    Supported,
    /// That no packet is acknowledged from now on: `QStartNoAckMode`.
    StartNoAckMode,
    /// Why it stands: `?`.
    Why,
    /// All registers: `g`.
    Registers,
    /// So many bytes of memory from the first number on: `mADDRESS,LENGTH`.
    Memory(u32, u32),
    /// Whose registers and memory are meant from now on: `HgTHREAD`.
    Select(Thread),
    /// Who goes on: `HcTHREAD`.
    SelectGoing(Thread),
    /// Whether a thread is there: `TTHREAD`.
    IsAlive(Thread),
    /// A piece of the description of the machine, from an offset on, of at most so many bytes.
    Target(u32, u32),
    /// A piece of the list of threads.
    Threads(u32, u32),
    /// Whether the end is to leave the process: `qAttached`.
    Attached,
    /// How one may go on: `vCont?`.
    Actions,
    /// To go on: `vCont;ACTION..`.
    Resume(Resume),
    /// To go back by one instruction: `bs`.
    BackStep,
    /// To go back until something stops it: `bc`.
    BackContinue,
    /// To stop before the instruction at an address: `Z0,ADDRESS,KIND`, or `Z1`.
    SetBreak(u32),
    /// Not to stop there any more: `z0,ADDRESS,KIND`, or `z1`.
    ClearBreak(u32),
    /// To stop before an access to these bytes: `Z2,ADDRESS,LENGTH`, or `Z3`, or `Z4`.
    SetWatch(Watch),
    /// Not to stop there any more: `z2,ADDRESS,LENGTH`, or `z3`, or `z4`.
    ClearWatch(Watch),
    /// A command of the user: `qRcmd,HEX`.
    Monitor(Command),
    /// To leave: `D`.
    Detach,
    /// To end: `k`.
    Kill,
    /// To write memory or registers: `M`, `X`, `G`, `P`.
    Write,
    /// One of these, with numbers or words that it cannot have.
    Malformed,
    /// Anything else.
    Unknown,
}
