//! Tests of the stores: in memory, behind a fuse or a cache, and in tables, also over files that stop.
#![tactic(auto)]

#[cfg(test)]
mod caches;
#[cfg(test)]
mod databases;
#[cfg(test)]
mod ledgers;
#[cfg(test)]
mod stopping;
#[cfg(test)]
mod stores;
