//! Tests of `replay` and of what looks into a store, over stores in memory and in tables; of the files of a cluster; and of
//! clusters over stores in tables: what the commands write of them, and what each store holds behind a run.
#![tactic(auto)]

#[cfg(test)]
mod bodies;
#[cfg(test)]
mod clusters;
#[cfg(test)]
mod files;
#[cfg(test)]
mod pages;
#[cfg(test)]
mod places;
#[cfg(test)]
mod replay;
#[cfg(test)]
mod runs;
#[cfg(test)]
mod show;
#[cfg(test)]
mod tables;
