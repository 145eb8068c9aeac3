//! The turns of a worker in which nothing happens.

ghost use Rattle.std.specs.Prelude.{◌≡◌, ◌≤◌, ◌<◌, ◌↔◌, ◌+◌, ◌-◌, ◌*◌, min, IsTrue};
ghost use Rattle.om_pacing.specs.declared.idle.TheConstants.{FIRST_SLEEP, IDLE_TURNS, LONGEST_SLEEP};

/// After how many turns in which nothing happened a worker resends the messages that are kept.
pub const IDLE_TURNS: u32 = 1_024;

/// How long a worker sleeps first, in milliseconds.
pub const FIRST_SLEEP: u64 = 1;

/// How long a worker sleeps at most, in milliseconds.
pub const LONGEST_SLEEP: u64 = 1_000;

/// Says how a worker passed a turn in which nothing happened.
#[derive(Clone, Copy, PartialEq, Eq)]
pub enum Pause {
    /// It was woken, while it yielded or slept.
    Woken,
    /// Nobody ended its sleep.
    Slept,
}

/// Says what a pause comes to.
#[derive(Clone, Copy)]
pub struct Passed {
    /// How many turns it counts as.
    pub turns: u32,
    /// Whether the messages that are kept are to be resent.
    pub resends: bool,
}

/// Counts how long a worker has been idle.
#[derive(Drop)]
pub struct Idle {
    /// Turns in which nothing happened, since something did or all was resent.
    pub turns: u32,
    /// For how many milliseconds it sleeps next.
    pub sleep: u64,
    ghost few: { turns < IDLE_TURNS },
    ghost some: { FIRST_SLEEP ≤ sleep },
    ghost bounded: { sleep ≤ LONGEST_SLEEP },
}

impl Idle {
    /// Makes the idle times of a worker at its start.
    pub fn new() -> Idle
        ensures turns { result.turns ≡ 0 }
        ensures sleep { result.sleep ≡ FIRST_SLEEP }
    {
        Idle {
            turns: 0,
            sleep: FIRST_SLEEP,
        }
    }

    /// Begins anew, as something happens.
    pub fn end(&mut self)
        ensures turns { self.new.turns ≡ 0 }
        ensures sleep { self.new.sleep ≡ FIRST_SLEEP }
    {
        *self = Idle::new();
    }

    /// Returns for how many milliseconds the worker sleeps next.
    pub fn sleep(&self) -> u64
        ensures { result ≡ self.now.sleep }
    {
        self.sleep
    }

    /// Returns whether no sleep has passed to its end since something happened.
    pub fn is_fresh(&self) -> bool
        ensures { IsTrue result ↔ self.now.sleep ≡ FIRST_SLEEP }
    {
        self.sleep == FIRST_SLEEP
    }

    /// Begins the turns anew, as a message comes that was received before: nothing else happens.
    pub fn interrupt(&mut self)
        ensures turns { self.new.turns ≡ 0 }
        ensures sleep { self.new.sleep ≡ self.old.sleep }
    {
        self.turns = 0;
    }

    /// Counts a pause. A sleep that nobody ended counts as all turns that are left before a resend, and the next is twice as long.
    pub fn count(&mut self, pause: Pause) -> Passed
        ensures one { pause ≡ Pause.Woken → result.turns ≡ 1 }
        ensures rest { pause ≡ Pause.Slept → result.turns ≡ IDLE_TURNS - self.old.turns }
        ensures resends { IsTrue result.resends ↔ self.old.turns + result.turns ≡ IDLE_TURNS }
        ensures counted { self.old.turns + result.turns < IDLE_TURNS → self.new.turns ≡ self.old.turns + result.turns }
        ensures resent { self.old.turns + result.turns ≡ IDLE_TURNS → self.new.turns ≡ 0 }
        ensures same { pause ≡ Pause.Woken → self.new.sleep ≡ self.old.sleep }
        ensures doubled { pause ≡ Pause.Slept → self.new.sleep ≡ min (2 * self.old.sleep) LONGEST_SLEEP }
    {
        let (turns, sleep) = match pause {
            Pause::Woken => (1, self.sleep),
            Pause::Slept => (IDLE_TURNS - self.turns, (2 * self.sleep).min(LONGEST_SLEEP)),
        };
        let count = self.turns + turns;
        let resends = count == IDLE_TURNS;
        *self = Idle {
            turns: if resends { 0 } else { count },
            sleep,
        };
        Passed { turns, resends }
    }
}
