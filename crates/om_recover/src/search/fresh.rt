//! What rows of one process that were added made stable.

ghost use Rattle.std.specs.Prelude.{◌≡◌};
ghost use Rattle.om_recover.specs.steps.Fresh.{fresh_with};

/// Of the intervals of a process that became stable above its place of the recovery state, two.
#[derive(Clone, Copy, Debug)]
pub struct Fresh {
    /// The least.
    pub least: u32,
    /// The highest of those at which a row was added.
    pub high: u32,
}

impl Fresh {
    /// Returns what is fresh with one interval more.
    pub fn with(known: Option<Fresh>, x: u32) -> Fresh
        ensures { result ≡ fresh_with known x }
    {
        match known {
            None => Fresh { least: x, high: x },
            Some(fresh) => Fresh {
                least: fresh.least.min(x),
                high: fresh.high.max(x),
            },
        }
    }
}
