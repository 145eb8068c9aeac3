//! What a store says that it is of, as text.

ghost use Rattle.std.specs.Prelude.{◌≡◌, ◌++◌, ◌≤◌, ℕ, IfNone, IfSome, OnOk, length, string_bytes};
ghost use Rattle.om_isa.specs.declared.ext.Ext.{Ext};
ghost use Rattle.om_ledger_text.specs.Lines.{IsAbout, about_text, extension_text};
ghost use Rattle.om_ledger_text.specs.steps.Abouts.{program_in};
ghost use Rattle.om_look.specs.About.{about};
ghost use Rattle.om_process.specs.Process.{Program};

use om_isa::Ext;
use om_look::{ABOUT_KIND, ABOUT_VERSION};
use std::alloc::AllocError;
use std::fmt::Write;

// How many bytes stand before the image: kind, version, process, number of processes, extension, and the size of memory.
const HEAD: usize = 9;

// What a store is of: a process, how many there are, and its program.
#[derive(Drop)]
pub(crate) struct About<'a> {
    pub(crate) own: u8,
    pub(crate) n: u8,
    pub(crate) ext: Ext,
    pub(crate) size: u32,
    pub(crate) image: &'a [u8],
}

// Returns what the bytes say, if they say what a store is of.
pub(crate) fn about_in(bytes: &[u8]) -> Option<About<'_>>
    ensures said { IfSome result (λ a. bytes.now ≡ about a.own a.n (program_in a.ext a.size a.image.now)) }
    ensures none { IfNone result (IsAbout bytes.now → ⊥) }
{
    if bytes.len() < HEAD || bytes[0] != ABOUT_KIND || bytes[1] != ABOUT_VERSION {
        return None;
    }
    let ext = match bytes[4] {
        0 => Ext::I,
        1 => Ext::Im,
        _ => return None,
    };
    Some(About {
        own: bytes[2],
        n: bytes[3],
        ext,
        size: u32::from_le_bytes([bytes[5], bytes[6], bytes[7], bytes[8]]),
        image: &bytes[HEAD..],
    })
}

fn extension_word(ext: Ext) -> &'static str
    ensures { result.now ≡ extension_text ext }
{
    match ext {
        Ext::I => "rv32i",
        Ext::Im => "rv32im",
    }
}

// Writes what a store is of.
pub(crate) fn push_about(text: &mut String, a: &About<'_>) -> Result<(), AllocError>
    ensures { OnOk result (string_bytes text.new ≡ string_bytes text.old
        ++ about_text a.now.own a.now.n (program_in a.now.ext a.now.size a.now.image.now)) }
{
    let (own, n, size) = (a.own, a.n, a.size);
    let word = extension_word(a.ext);
    let len = a.image.len();
    write!(
        text,
        " process {own} of {n} program {word} memory {size} image {len}"
    )
}
