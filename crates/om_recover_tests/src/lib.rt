//! Tests of the records and of the manager over them; the records also against a plain search.
#![tactic(auto)]

#[cfg(test)]
mod batch;
#[cfg(test)]
mod manager;
#[cfg(test)]
mod records;
#[cfg(test)]
mod waiting;
