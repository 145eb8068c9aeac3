//! The front of a manager, and the words that spell it.

ghost use Rattle.std.specs.Prelude.{◌≡◌, ◌≤◌};
ghost use Rattle.om_interval.specs.declared.pid.TheConstants.{MAX_PROCESSES};
ghost use Rattle.om_manager.specs.Sound.{IsManager};
ghost use Rattle.om_board.specs.Fronts.{front_of};
ghost use Rattle.om_board.specs.steps.Posting.{AreWords, words_in, front_in};

use crate::cell::WORDS;
use om_interval::{DepVec, MAX_PROCESSES};
use om_manager::Manager;

/// What others follow of a manager: its version, its round, and its recovery state.
#[derive(Clone, Copy, Debug, PartialEq, Eq)]
pub struct Front {
    pub version: u64,
    pub round: u32,
    pub vec: DepVec,
}

impl Front {
    /// Makes the front of a manager.
    pub fn of(manager: &Manager) -> Front
        ensures front { result ≡ front_of manager.now }
        ensures sound { IsManager manager.now }
    {
        Front {
            version: manager.version(),
            round: manager.round(),
            vec: manager.recovery(),
        }
    }

    pub(crate) fn to_words(&self) -> [u64; WORDS]
        ensures words { result ≡ words_in self.now }
        ensures spelled { AreWords result }
    {
        let Front {
            version,
            round,
            vec,
        } = *self;
        let mut words = [0; WORDS];
        words[0] = version;
        words[1] = u64::from(round);
        words[2..].copy_from_slice(&vec.to_words());
        words
    }

    // Makes the front of `n` processes from the words that spell it.
    pub(crate) fn from_words(n: usize, words: &[u64; WORDS]) -> Front
        requires some { 1 ≤ n }
        requires within { n ≤ MAX_PROCESSES }
        requires spelled { AreWords words.now }
        ensures { result ≡ front_in n words.now }
    {
        Front {
            version: words[0],
            round: words[1] as u32,
            vec: DepVec::from_words(&words[2..2 + n]),
        }
    }
}
