//! An output as it is handed in.

ghost use Rattle.std.specs.Prelude.{◌≡◌};
ghost use Rattle.om_process.specs.declared.queues.Made.{Made};

use om_manager::Output;
use om_process::Made;

/// An output of a process, whether the process keeps it or a manager: as it is handed in.
pub trait HandedOutput {
    /// The output as its process made it.
    ghost made: { Self → Made };

    /// Returns its number among the outputs of its process, from 0.
    fn number(&self) -> u64
        ensures { result ≡ (made self.now).seq };

    /// Returns the interval in which it was made.
    fn interval(&self) -> u32
        ensures { result ≡ (made self.now).interval };

    /// Returns what was put out.
    fn bytes(&self) -> &[u8]
        ensures { result.now ≡ (made self.now).bytes };
}

impl HandedOutput for Made {
    ghost made = { λ output. output };

    fn number(&self) -> u64 {
        self.seq
    }

    fn interval(&self) -> u32 {
        self.interval
    }

    fn bytes(&self) -> &[u8] {
        self.bytes.as_slice()
    }
}

impl HandedOutput for Output {
    ghost use Rattle.om_member.specs.Handed.{made_of};

    ghost made = { made_of };

    fn number(&self) -> u64 {
        self.seq
    }

    fn interval(&self) -> u32 {
        self.interval
    }

    fn bytes(&self) -> &[u8] {
        self.bytes.as_slice()
    }
}
