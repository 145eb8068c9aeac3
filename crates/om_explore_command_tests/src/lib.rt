//! Tests of the command `explore`.
#![tactic(auto)]

#[cfg(test)]
mod asking;
#[cfg(test)]
mod clusters;
#[cfg(test)]
mod clusters_in_c;
#[cfg(test)]
mod explore;
