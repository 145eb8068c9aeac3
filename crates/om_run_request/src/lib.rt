//! The request for a run, carried out: the cluster of an input is run as it is asked for, over memory or over files.
//!
//! In an order of reading:
//!
//! - `modes`: what the words of the command line ask for, as the commands have it
//! - `asked`: the run that is asked for, over any stores, with any context: the text by what is asked
//! - `surroundings`: what a run of the program has beside its input and its text: files, and reasons
//! - `watching`: a run of which more is said on standard error
//! - `stores`: the run over memory or over the files of a prefix
#![tactic(auto)]

mod asked;
mod modes;
mod stores;
mod surroundings;
mod watching;

pub use asked::run_asked;
pub use modes::{form_of, mode_of};
pub use stores::run_request;
