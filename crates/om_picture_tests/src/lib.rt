//! Pictures of scripts, compared byte for byte, by their digests.
#![tactic(auto)]

#[cfg(test)]
mod parts;
#[cfg(test)]
mod pictures;
