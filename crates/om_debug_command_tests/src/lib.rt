//! Tests of the command `debug`.
#![tactic(auto)]

#[cfg(test)]
mod bank_session;
#[cfg(test)]
mod group_session;
#[cfg(test)]
mod groups;
#[cfg(test)]
mod lasts;
#[cfg(test)]
mod records;
#[cfg(test)]
mod restarts;
#[cfg(test)]
mod sessions;
#[cfg(test)]
mod told;
#[cfg(test)]
mod trap_session;
