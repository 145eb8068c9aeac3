//! What the processes of a cluster tell of their waiting.

ghost use Rattle.std.specs.Prelude.{◌≡◌, ◌≢◌, ◌≤◌, ◌<◌, ◌↔◌, ℕ, IsTrue, length, map, sum, take, true};
ghost use Rattle.om_interval.specs.declared.pid.TheConstants.{MAX_PROCESSES};
ghost use Rattle.om_board.specs.Waits.{put_by, taken_by, waits};
ghost use Rattle.om_board.specs.steps.Waiting.{DoWait};

use om_interval::MAX_PROCESSES;

/// What a process told of its waiting.
#[derive(Clone, Copy, Debug, PartialEq, Eq)]
pub enum Waiting {
    /// It has to put all messages that it keeps anew before it may wait.
    Owes,
    /// It puts all messages that it keeps anew, or has put them, and does not wait yet.
    Offers,
    /// It waits with all of them put. So many messages it has put and taken since the run began.
    Waits(u64, u64),
}

impl Waiting {
    pub(crate) fn owes(&self) -> bool
        ensures { IsTrue result ↔ self.now ≡ Waiting.Owes }
    {
        match self {
            Waiting::Owes => true,
            Waiting::Offers | Waiting::Waits(_, _) => false,
        }
    }

    pub(crate) fn waits(&self) -> bool
        ensures { result ≡ waits self.now }
    {
        match self {
            Waiting::Waits(_, _) => true,
            Waiting::Owes | Waiting::Offers => false,
        }
    }

    fn put(&self) -> u64
        ensures { result ≡ put_by self.now }
    {
        match self {
            Waiting::Waits(put, _) => *put,
            Waiting::Owes | Waiting::Offers => 0,
        }
    }

    fn taken(&self) -> u64
        ensures { result ≡ taken_by self.now }
    {
        match self {
            Waiting::Waits(_, taken) => *taken,
            Waiting::Owes | Waiting::Offers => 0,
        }
    }
}

// Returns whether the first n processes wait.
pub(crate) fn all_wait(waiting: &[Waiting; MAX_PROCESSES], n: usize) -> bool
    requires { n ≤ MAX_PROCESSES }
    ensures { IsTrue result ↔ DoWait n waiting.now }
{
    waiting[..n].iter().all(|one| one.waits())
}

fn put_in_all(waiting: &[Waiting]) -> u128
    requires { length waiting.now ≤ MAX_PROCESSES }
    ensures { result ≡ sum (map put_by waiting.now) }
{
    let mut total: u128 = 0;
    for one in waiting {
        total += u128::from(one.put());
    }
    total
}

fn taken_in_all(waiting: &[Waiting]) -> u128
    requires { length waiting.now ≤ MAX_PROCESSES }
    ensures { result ≡ sum (map taken_by waiting.now) }
{
    let mut total: u128 = 0;
    for one in waiting {
        total += u128::from(one.taken());
    }
    total
}

// Returns whether the first n processes have taken as many messages as they have put.
pub(crate) fn are_matched(waiting: &[Waiting; MAX_PROCESSES], n: usize) -> bool
    requires { n ≤ MAX_PROCESSES }
    ensures { IsTrue result ↔ sum (map put_by (take n waiting.now)) ≡ sum (map taken_by (take n waiting.now)) }
{
    let first = &waiting[..n];
    put_in_all(first) == taken_in_all(first)
}
