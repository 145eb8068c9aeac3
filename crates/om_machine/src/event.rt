//! What a step of a machine was: calls, traps, and instructions that went.

ghost use Rattle.std.specs.Prelude.{◌≡◌};
ghost use Rattle.om_machine.specs.Causes.{cause_number};

/// What one step of a machine was.
#[derive(Clone, Copy, Debug, PartialEq, Eq)]
pub enum Event {
    /// One instruction is done.
    Went,
    /// The machine stands at an environment call.
    Call(EnvCall),
    /// The machine cannot go on.
    Trap(Cause),
}

/// An environment call by its number in x17, with its arguments in x10 to x12.
#[derive(Clone, Copy, Debug, PartialEq, Eq)]
pub enum EnvCall {
    /// 0: the process has ended. It is never finished.
    Exit { code: u32 },
    /// 1: sends `len` bytes of memory from `addr` on to a process.
    Send { to: u32, addr: u32, len: u32 },
    /// 2: waits for a message, of which at most `cap` bytes go to memory from `addr` on.
    Receive { addr: u32, cap: u32 },
    /// 3: hands out `len` bytes of memory from `addr` on.
    Output { addr: u32, len: u32 },
    /// 4: asks for the process's own number and the number of processes.
    Who,
}

/// Why a machine cannot go on.
#[derive(Clone, Copy, Debug, PartialEq, Eq)]
pub enum Cause {
    /// No instruction has this word.
    Illegal = 1,
    /// The instruction is EBREAK.
    Break = 2,
    /// The word at pc does not lie in memory.
    FetchOutside = 3,
    /// The target of a taken branch or of a jump is not a multiple of 4.
    TargetMisaligned = 4,
    /// The address of 2 or 4 bytes is not a multiple of their number.
    DataMisaligned = 5,
    /// The bytes do not lie in memory.
    DataOutside = 6,
    /// No environment call has the number in x17.
    UnknownCall = 7,
    /// The bytes of an environment call do not lie in memory. A machine never answers it: whoever finishes the calls
    /// finds it.
    BufferOutside = 8,
    /// The count of finished instructions is at its last value.
    CountFull = 9,
}

impl Cause {
    /// Returns the cause's number, 1 to 9, as texts give it.
    pub fn number(self) -> u32
        ensures { result ≡ cause_number self }
    {
        self as u32
    }
}
