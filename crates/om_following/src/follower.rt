//! Who is told of the outputs of a cluster as they are released.

ghost use Rattle.std.specs.Prelude.{◌++◌, ◌∷◌, [], List, IsTrue};
ghost use Rattle.om_report.specs.Telling.{Told, told_of};

use om_interval::Pid;
use om_manager::Output;
use om_report::RunFault;

/// Is told of the outputs of a cluster as they are released.
pub trait Follower: Drop {
    /// Between the first and the second it was told of these outputs, in this order.
    ghost Tells: { Self → Self → List Told → Type 0 };

    /// Is told of an output of the process. Where it answers false, it wants no more, and the run ends.
    fn tell(&mut self, pid: Pid, output: &Output) -> bool
        ensures told { IsTrue result → (start : Self) (told : List Told) → Tells start self.old told
            → Tells start self.new (told ++ told_of pid output.now ∷ []) };

    /// Is told that there is no more for now. Where it answers false, it wants no more, and the run ends.
    fn pause(&mut self) -> bool
        ensures same { IsTrue result → (start : Self) (told : List Told) → Tells start self.old told → Tells start self.new told };
}

/// Why a run that is followed came to no end.
#[derive(Clone, Copy, Debug, PartialEq, Eq)]
pub enum FollowFault {
    /// The run itself came to none.
    Run(RunFault),
    /// The follower wanted no more.
    Unwanted,
}
