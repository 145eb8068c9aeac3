//! Tests of the command `debug` over stores.
#![tactic(auto)]

#[cfg(test)]
mod files;
#[cfg(test)]
mod packets;
#[cfg(test)]
mod places;
#[cfg(test)]
mod stores;
