//! Images, from the words of a line.

ghost use Rattle.std.specs.Prelude.{◌≡◌, ◌*◌, ◌^◌, ◌<◌, ◌≤◌, length, map, flat_map, true, IfOk, OnOk};
ghost use Rattle.std.specs.Int.{to_le_bytes, w32};
ghost use Rattle.om_isa.specs.Memory.{is_memory_size};
ghost use Rattle.om_process.specs.Images.{program_of};
ghost use Rattle.om_scripts.specs.Programs.{IsProgram, program_in};
ghost use Rattle.om_text.specs.Reading.{Gives, all_read};
ghost use Rattle.om_text.specs.Numbers.{hex_word};
ghost use Rattle.om_text.specs.declared.error.LineError.{LineError};

use byteorder::{ByteOrder, LittleEndian};
use om_isa::Ext;
use om_process::Image;
use om_text::{BuildError, LineError, hex_word};
use std::alloc::{AllocError, Global};

// Reads the words of the machine that the words write.
pub(crate) fn words_in(alloc: Global, words: &[&[u8]]) -> Result<Vec<u32>, BuildError<LineError>>
    ensures words { Gives (λ ws. ws.items) result (all_read hex_word LineError.BadWord (map (λ word. word.now) words.now)) }
{
    let mut all = Vec::new(alloc);
    for word in words {
        let Some(number) = hex_word(word) else {
            return Err(LineError::BadWord.into());
        };
        all.push(number)?;
    }
    Ok(all)
}

// Makes the image of a program in words.
pub(crate) fn image_of(
    alloc: Global,
    ext: Ext,
    size: u32,
    words: &[u32],
) -> Result<Image, AllocError>
    requires size { is_memory_size size ≡ true }
    requires fits { 4 * length words.now ≤ size }
    ensures program { IfOk result (λ image. program_of image ≡ program_in ext size words.now) }
    ensures right { IfOk result (λ image. IsProgram (program_of image)) }
{
    let bytes = bytes_of(alloc, words)?;
    Ok(Image { bytes, size, ext })
}

// Returns the bytes of the words, the lowest of each first.
fn bytes_of(alloc: Global, words: &[u32]) -> Result<Vec<u8>, AllocError>
    requires { 4 * length words.now < 2 ^ 64 }
    ensures bytes { IfOk result (λ bytes. bytes.items ≡ flat_map (to_le_bytes w32) words.now) }
{
    let mut bytes = vec![in alloc; 0; 4 * words.len()]?;
    LittleEndian::write_u32_into(words, &mut bytes);
    Ok(bytes)
}
