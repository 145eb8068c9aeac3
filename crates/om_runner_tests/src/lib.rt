//! Tests of the threads: the frontier beside its board, the inboxes, and clusters.
#![tactic(auto)]

#[cfg(test)]
mod at_work;
#[cfg(test)]
mod barriers;
#[cfg(test)]
mod boards;
#[cfg(test)]
mod checked_restarts;
#[cfg(test)]
mod clusters;
#[cfg(test)]
mod ended;
#[cfg(test)]
mod flights;
#[cfg(test)]
mod inboxes;
#[cfg(test)]
mod reports;
#[cfg(test)]
mod resends;
#[cfg(test)]
mod restarts;
#[cfg(test)]
mod rows;
#[cfg(test)]
mod scribes;
#[cfg(test)]
mod threads;
#[cfg(test)]
mod waiting;
#[cfg(test)]
mod watching;
#[cfg(test)]
mod worlds;
