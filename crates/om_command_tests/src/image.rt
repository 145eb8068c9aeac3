//! The command `image`: raw images as lines of scripts.

use crate::commands::Failing;
use om_image::{ImageError, image};
use om_isa::Ext;
use om_text::LineError;
use std::alloc::Global;
use std::process::Abort;

// The extension, the name, the size and the bytes of an image, and its line or why there is none.
type Row = (
    Ext,
    &'static str,
    &'static str,
    &'static [u8],
    Result<&'static str, ImageError>,
);

// `addi x17, x0, 1`, `ecall`, and their bytes as GNU as 2.40 lays them down.
static ROWS: [Row; 15] = [
    (
        Ext::I,
        "pc",
        "64",
        &[0x93, 0x08, 0x10, 0x00, 0x73, 0, 0, 0],
        Ok("program pc 64 00100893 00000073\n"),
    ),
    (
        Ext::Im,
        "pc",
        "8",
        &[0x93, 0x08, 0x10, 0x00, 0x73, 0, 0, 0],
        Ok("program-m pc 8 00100893 00000073\n"),
    ),
    (Ext::I, "none", "4", &[], Ok("program none 4\n")),
    (Ext::I, "p", "4", &[0xAB], Ok("program p 4 000000ab\n")),
    (Ext::I, "p", "4", &[1, 2, 3], Ok("program p 4 00030201\n")),
    (
        Ext::I,
        "p",
        "4",
        &[0xFF, 0xFF, 0xFF, 0xFF],
        Ok("program p 4 ffffffff\n"),
    ),
    (
        Ext::I,
        "p",
        "4",
        &[1, 2, 3, 4, 5],
        Err(ImageError::Line(LineError::ImageTooLong)),
    ),
    // The first bytes of an ELF file of 32 bits; without the last of its mark, and with another first.
    (
        Ext::I,
        "a b",
        "6",
        &[0x7F, b'E', b'L', b'F', 1],
        Err(ImageError::Elf),
    ),
    (
        Ext::I,
        "p",
        "4",
        &[0x7F, b'E', b'L'],
        Ok("program p 4 004c457f\n"),
    ),
    (
        Ext::I,
        "p",
        "4",
        &[0x7E, b'E', b'L', b'F'],
        Ok("program p 4 464c457e\n"),
    ),
    (
        Ext::I,
        "p",
        "65540",
        &[],
        Err(ImageError::Line(LineError::BadSize)),
    ),
    (
        Ext::I,
        "p",
        "6",
        &[],
        Err(ImageError::Line(LineError::BadSize)),
    ),
    (
        Ext::I,
        "a b",
        "6",
        &[],
        Err(ImageError::Line(LineError::BadName)),
    ),
    (
        Ext::I,
        "a b",
        "4294967296",
        &[],
        Err(ImageError::Line(LineError::BadNumber)),
    ),
    (
        Ext::I,
        "",
        "4",
        &[],
        Err(ImageError::Line(LineError::BadName)),
    ),
];

fn check(rt: &impl Abort, alloc: Global, (ext, name, size, bytes, want): &Row) {
    let mut text = Vec::new(alloc);
    let mut bytes = *bytes;
    let told = image(
        alloc,
        *ext,
        name.as_bytes(),
        size.as_bytes(),
        &mut bytes,
        &mut text,
    );
    let (answer, line) = match want {
        Ok(line) => (Ok(()), *line),
        Err(error) => (Err(*error), ""),
    };
    assert_eq!(rt;
        (told, text.as_slice()),
        (answer, line.as_bytes()),
        "{name} {size}"
    );
}

#[test]
fn images_have_their_lines(rt: HostRuntime) {
    for row in &ROWS {
        check(&rt, rt.alloc(), row);
    }
}

// A memory may have 65,536 bytes; of a longer input one byte more is read, and what is behind it is left.
#[test]
fn the_longest_image(rt: HostRuntime) {
    let alloc = rt.alloc();
    let bytes = vec![in alloc; 0x5A; 65_540].expect(&rt, "memory");
    for (len, left, want) in [
        (65_536, 0, Ok(())),
        (65_537, 0, Err(ImageError::Line(LineError::ImageTooLong))),
        (65_540, 3, Err(ImageError::Line(LineError::ImageTooLong))),
    ] {
        let mut reader = bytes.get(..len).expect(&rt, "bytes");
        let mut text = Vec::new(alloc);
        let told = image(alloc, Ext::I, b"p", b"65536", &mut reader, &mut text);
        let words = if want.is_ok() { 16 + 9 * 16_384 } else { 0 };
        assert_eq!(rt; (told, reader.len(), text.len()), (want, left, words));
    }
}

#[test]
fn an_image_that_is_not_written(rt: HostRuntime) {
    let mut reader: &[u8] = &[1, 2, 3, 4];
    let told = image(
        rt.alloc(),
        Ext::I,
        b"p",
        b"4",
        &mut reader,
        &mut Failing { calls: 0 },
    );
    assert!(&rt; told == Err(ImageError::CannotWrite), "{told:?}");
}
