//! An output as a store keeps it.

ghost use Rattle.std.specs.Prelude.{◌≡◌, ◌⊎◌, ◌+◌, ◌<◌, IfNone, IfOk, IfSome, length};
ghost use Rattle.om_format.specs.declared.limits.TheConstants.{MAX_BODY};
ghost use Rattle.om_restart.specs.Outputs.{output_bytes};
ghost use Rattle.om_restart.specs.declared.output.TheConstants.{OUTPUT_HEAD};

use om_format::{Body, MAX_BODY};
use om_process::Made;
use std::alloc::{AllocError, Global};

/// How many bytes of an output's record tell its interval, the least first.
pub const OUTPUT_HEAD: usize = 4;

/// Returns the record of an output: its interval, and its bytes. Its number is that of its row. Refused only where memory ran
/// out.
pub fn output_record(alloc: Global, output: &Made) -> Result<Vec<u8>, AllocError>
    ensures { IfOk result (λ rec. rec.items ≡ output_bytes output.now) }
{
    let mut rec = Vec::new(alloc);
    rec.extend_from_slice(&output.interval.to_le_bytes())?;
    rec.extend_from_slice(output.bytes.as_slice())?;
    Ok(rec)
}

/// Returns the output of this number of which `rec` is the record; none where it is too short to tell its interval, or longer
/// than that of any output. Refused only where memory ran out.
pub fn read_output(alloc: Global, seq: u64, rec: &[u8]) -> Result<Option<Made>, AllocError>
    ensures read { IfOk result (λ read. IfSome read (λ made. rec.now ≡ output_bytes made)) }
    ensures number { IfOk result (λ read. IfSome read (λ made. made.seq ≡ seq)) }
    ensures none { IfOk result (λ read. IfNone read ((length rec.now < OUTPUT_HEAD) ⊎ (OUTPUT_HEAD + MAX_BODY < length rec.now))) }
{
    if rec.len() < OUTPUT_HEAD || rec.len() - OUTPUT_HEAD > MAX_BODY {
        return Ok(None);
    }
    let interval = u32::from_le_bytes([rec[0], rec[1], rec[2], rec[3]]);
    let bytes = Body::from_slice(alloc, &rec[OUTPUT_HEAD..])?;
    Ok(Some(Made {
        seq,
        interval,
        bytes,
    }))
}
