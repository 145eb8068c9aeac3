//! What a store says that it is of, so that no run takes up another's.

ghost use Rattle.std.specs.Prelude.{◌≡◌, ◌≤◌, IfOk};
ghost use Rattle.om_interval.specs.declared.pid.TheConstants.{MAX_PROCESSES};
ghost use Rattle.om_look.specs.About.{about};
ghost use Rattle.om_machine.specs.State.{number_of_ext};
ghost use Rattle.om_process.specs.Images.{program_of};

use om_interval::Pid;
use om_isa::Ext;
use om_process::Image;
use std::alloc::{AllocError, Global};

/// The first byte of such a record.
pub const ABOUT_KIND: u8 = 0x41;

/// The second byte: the version.
pub const ABOUT_VERSION: u8 = 1;

/// Returns the record that says that a store is of process `own` of `n`, of this program. Refused only where memory ran out.
pub fn about_of(alloc: Global, own: Pid, n: usize, image: &Image) -> Result<Vec<u8>, AllocError>
    requires { n ≤ MAX_PROCESSES }
    ensures { IfOk result (λ bytes. bytes.items ≡ about own n (program_of image.now)) }
{
    let mut bytes = Vec::new(alloc);
    let head = [
        ABOUT_KIND,
        ABOUT_VERSION,
        own.index() as u8,
        n as u8,
        extension_of(image.ext),
    ];
    bytes.extend_from_slice(&head)?;
    bytes.extend_from_slice(&image.size.to_le_bytes())?;
    bytes.extend_from_slice(&image.bytes)?;
    Ok(bytes)
}

fn extension_of(ext: Ext) -> u8
    ensures { result ≡ number_of_ext ext }
{
    match ext {
        Ext::I => 0,
        Ext::Im => 1,
    }
}
