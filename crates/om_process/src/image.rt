//! Images of programs.

ghost use Rattle.std.specs.Prelude.{◌≡◌, IfOk};
ghost use Rattle.om_process.specs.Images.{program_of};

use om_isa::Ext;
use std::alloc::{AllocError, Global};

/// A program.
#[derive(Debug, Drop)]
pub struct Image {
    /// What lies at the start of its memory.
    pub bytes: Vec<u8>,
    /// The size of its memory, in bytes.
    pub size: u32,
    /// The instructions that it may use.
    pub ext: Ext,
}

impl Image {
    /// Copies the image into memory of its own. Refused only where memory ran out.
    pub fn copy(&self, alloc: Global) -> Result<Image, AllocError>
        ensures { IfOk result (λ copy. program_of copy ≡ program_of self.now) }
    {
        Ok(Image {
            bytes: Vec::from_slice(alloc, &self.bytes)?,
            size: self.size,
            ext: self.ext,
        })
    }
}
