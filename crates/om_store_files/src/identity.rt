//! Which file one is, whatever its names.

use std::fs::Metadata;
use std::os::unix::fs::MetadataExt;

/// A file of the system, as long as it is there.
#[derive(Clone, Copy, Debug, PartialEq, Eq)]
pub struct Identity {
    pub device: u64,
    pub node: u64,
}

impl Identity {
    pub(crate) fn of(metadata: &Metadata) -> Identity {
        Identity {
            device: metadata.dev(),
            node: metadata.ino(),
        }
    }
}
