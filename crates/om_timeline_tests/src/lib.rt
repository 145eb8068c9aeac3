//! Tests of any moment of a record, and of the process of a store at any moment that the store knows of.
#![tactic(auto)]

#[cfg(test)]
mod moments;
#[cfg(test)]
mod places;
#[cfg(test)]
mod stores;
