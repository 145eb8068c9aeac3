//! How the database of a store is opened.

ghost use Rattle.std.specs.Prelude.{◌≡◌, IfSome};

use sqlite::Options;
use std::hash::{BuildHasher, RandomState};

/// How many pages that were read each connection to a store keeps in memory, of the length that its database has (1 KiB where a run
/// made it). They are cleared as it is opened, and a store that is pruned has few.
pub const CACHE_PAGES: usize = 256;

/// Returns how the database of a store is opened; `None` where the system gives no random number. Pages that are read again are
/// tested by digests under a key that is drawn at random.
pub fn connection_options(rt: &HostRuntime) -> Option<Options>
    ensures cache { IfSome result (λ options. options.cache_pages ≡ CACHE_PAGES) }
{
    let state = RandomState::new(rt).ok()?;
    Some(Options {
        cache_pages: CACHE_PAGES,
        ..Options::new(state.hash_one(&0u8))
    })
}
