//! Formats of files that are known by how they begin.

use gds_records::{forms, kinds};

/// Beginnings, and what has them.
const KNOWN: &[(&[u8], &str)] = &[
    (b"%SEMI-OASIS", "an OASIS layout: export it as GDSII"),
    (b"\x1F\x8B", "a gzip file: unpack it with gunzip"),
    (b"BZh", "a bzip2 file: unpack it with bunzip2"),
    (b"\xFD7zXZ\x00", "an xz file: unpack it with unxz"),
    (b"\x28\xB5\x2F\xFD", "a zstd file: unpack it with unzstd"),
    (b"\x04\x22\x4D\x18", "an lz4 file: unpack it with unlz4"),
    (b"PK\x03\x04", "a zip file: unpack it with unzip"),
    (b"7z\xBC\xAF\x27\x1C", "a 7-Zip file: unpack it with 7z"),
    (b"%PDF", "a PDF document"),
    (b"%!PS", "a PostScript document"),
    (b"\x89PNG", "a PNG picture"),
    (b"\x7FELF", "a program"),
    (b"<?xml", "an XML document"),
    (
        b"<!DOCTYPE",
        "a web page, as where a download asks for a login",
    ),
    (b"<html", "a web page, as where a download asks for a login"),
    (
        b"HEADER ",
        "a GDSII layout as text: export it as a GDSII stream",
    ),
    (b"VERSION ", "a LEF or DEF text: export the layout as GDSII"),
    (b"\xEF\xBB\xBF", "a text in UTF-8 with a byte order mark"),
    (b"\xFF\xFE", "a text in UTF-16"),
    (b"\xFE\xFF", "a text in UTF-16"),
];

/// What a file that begins with these bytes is, where this is known.
pub fn format_of(bytes: &[u8]) -> Option<&'static str> {
    for (beginning, what) in KNOWN {
        if bytes.starts_with(*beginning) {
            return Some(*what);
        }
    }
    None
}

/// Whether a file that begins with these bytes is a GDSII layout: with a HEADER of any even length.
pub fn is_gdsii(bytes: &[u8]) -> bool {
    match bytes {
        [_, low, kinds::HEADER, forms::TWO_BYTE_NUMBERS, ..] => *low % 2 == 0,
        _ => false,
    }
}

/// Whether the bytes begin as a text does, with four signs of ASCII, spaces or other white ones.
pub fn begins_as_text(bytes: &[u8]) -> bool {
    let Some(beginning) = bytes.get(..4) else {
        return false;
    };
    for byte in beginning {
        if !matches!(*byte, b'\t' | b'\n' | b'\x0C' | b'\r' | b' '..=b'~') {
            return false;
        }
    }
    true
}
