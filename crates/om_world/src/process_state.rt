//! Where a process of a world stands.

ghost use Rattle.std.specs.Prelude.{◌≡◌};
ghost use Rattle.om_world.specs.steps.Members.{place_of};

use om_member::MemberState;

/// Where a process of a world stands.
#[derive(Clone, Copy, Debug, PartialEq, Eq)]
pub enum ProcessState {
    /// It runs.
    Up,
    /// It joined a gathering, and has not resumed.
    In,
    /// It failed, and whether that was declared to the manager.
    Down { declared: bool },
}

impl ProcessState {
    // Returns the place of a process that stands so.
    pub(crate) fn of(standing: &MemberState) -> ProcessState
        ensures { result ≡ place_of standing.now }
    {
        match standing {
            MemberState::Up(_) => ProcessState::Up,
            MemberState::In(_) => ProcessState::In,
            MemberState::Down { declared } => ProcessState::Down {
                declared: *declared,
            },
        }
    }
}
