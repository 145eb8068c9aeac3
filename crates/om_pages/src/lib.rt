//! The pages of a memory: which of them hold a byte other than zero, and marks by which most need not be looked at.
//!
//! Nothing is trusted here.
//!
//! In an order of reading: `pages` (what a page is), `kept` (those that are not all zero), `marks` (those that may not be).
#![tactic(auto)]

pub use kept::{is_kept, kept_indices};
pub use marks::{kept_among, mark, marks_of, marks_of_front};
pub use pages::{PAGE, page_count, page_of, page_size};

mod kept;
mod marks;
mod pages;
