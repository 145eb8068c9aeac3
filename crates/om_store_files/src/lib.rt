//! The files of the stores of a cluster: their names, how a run makes them and what of them it removes, what else it may not
//! overwrite, and what the system answered where one of them failed. What stands in them is no matter here.
//!
//! - `names`: how they are named, and `identity`: which file one is, whatever its names
//! - `places`: the files that a run makes for stores of its own; `files_before`: those that a run finds which takes up stores
//! - `clashing`: whether a file that is to be written beside them is one that the run has, or a database
//! - `options`: how the database of one is opened
//! - `settling`: each store in its one file, behind a run; `halves`: that file, and a copy of its log; `log_copy`: that copy, in memory
//! - `noting`: what the system answered where one of them failed; `noted_pair`: a file and its log, opened so
#![tactic(auto)]

mod clashing;
mod files_before;
mod halves;
mod identity;
mod log_copy;
mod names;
mod noted_pair;
mod noting;
mod options;
mod places;
mod settling;

pub use clashing::{Clash, clash_with_databases, clash_with_streams, clashes_with_stores};
pub use files_before::FilesBefore;
pub use identity::Identity;
pub use names::{is_written, log_of, store_of};
pub use noted_pair::open_noted;
pub use noting::{Note, NotedFile, Notes};
pub use options::{CACHE_PAGES, connection_options};
pub use places::{PlaceError, Places};
pub use settling::settle;
