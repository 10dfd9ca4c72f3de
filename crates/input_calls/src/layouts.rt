//! Records, libraries that are read from them, and libraries that are written.

ghost use Rattle.std.specs.Prelude.{All, IfOk, length, ◌<◌, ◌^◌};
ghost use Rattle.lists.specs.Differing.{AreDifferent};
ghost use Rattle.library_model.specs.Names.{names_of};
ghost use Rattle.library_model.specs.Points.{AreWellPointed};
ghost use Rattle.gds_write.specs.WellFormed.{IsWellFormed};

use crate::printing::printed;
use crate::texts::{expect_fault, joined};
use gds_records::{Record, Records};
use gds_syntax::{Library, SyntaxFault, read_library};
use gds_write::write_library;
use row_files::records_of;
use row_tables::{Case, Text};
use std::alloc::Global;

/// A library `L` up to the elements of its structure `T`, of which the first begins at 94.
const FRONT: &str = "HEADER 600; BGNLIB 0 0 0 0 0 0 0 0 0 0 0 0; LIBNAME L; UNITS 1 1
BGNSTR 0 0 0 0 0 0 0 0 0 0 0 0; STRNAME T
";

/// The end of the structure and of the library.
const END: &str = "\nENDSTR; ENDLIB";

/// What is printed of the library before its elements.
const PRINTED_FRONT: &str =
    "library L, units 41100000000000004110000000000000\nstructure T at 60\n";

/// The bytes of these records. In a row with `elements` they are those of the structure `T` of a library `L`.
fn stream_of(case: &mut Case<'_>, records: &str) -> Vec<u8> {
    let mut text = Text::new(case.alloc);
    if case.has("elements") {
        text.say(FRONT);
        text.say(records);
        text.say(END);
    } else {
        text.say(records);
    }
    match records_of(case.alloc, text.shown()) {
        Some(bytes) => bytes,
        None => {
            case.note("records", "not records");
            Vec::new(case.alloc)
        }
    }
}

/// The bytes of the row's stream, which is given as `bytes`, in `parts`, as `elements`, or as `stream`.
pub fn stream(case: &mut Case<'_>) -> Vec<u8> {
    if case.has("bytes") {
        return case.bytes("bytes");
    }
    if case.has("parts") {
        let text = joined(case);
        return stream_of(case, text.shown());
    }
    let records = case.text(if case.has("elements") {
        "elements"
    } else {
        "stream"
    });
    stream_of(case, records)
}

/// The library of a stream of at most 268,435,456 bytes.
pub fn read(alloc: Global, bytes: &[u8]) -> Result<Library, SyntaxFault>
    ensures names_differ { IfOk result (λ library. AreDifferent (names_of library.structures)) }
    ensures well_formed { IfOk result IsWellFormed }
    ensures well_pointed { IfOk result (λ library. AreWellPointed library.structures) }
    ensures few_structures { IfOk result (λ library. length library.structures < 2 ^ 32) }
    ensures few_elements { IfOk result (λ library. All (λ structure. length structure.elements < 2 ^ 32) library.structures) }
{
    if bytes.len() > 268_435_456 {
        return Err(SyntaxFault::Memory);
    }
    read_library(alloc, bytes)
}

/// `[[library]]`: what the stream is read as. `gives` is the number and the place of the fault, and `fault` all of it. `holds` is the
/// library, and `keeps` what a library `L` with one structure `T` at 60 has of elements.
pub fn library(case: &mut Case<'_>) {
    match read(case.alloc, stream(case).as_slice()) {
        Ok(library) => {
            let text = printed(case.alloc, &library, true);
            if case.has("holds") {
                case.expect_text("holds", text.shown());
            } else {
                let kept = text.shown().strip_prefix(PRINTED_FRONT);
                case.expect_text("keeps", kept.unwrap_or(text.shown()));
            }
        }
        Err(fault) => {
            expect_fault(case, fault.number(), fault.place());
            case.expect_if_wanted("fault", format_args!("{fault:?}"));
        }
    }
}

/// `[[rewritten]]`: `elements` of a library, or a whole `stream`, and what they are `written` as, which is read as the same library but
/// for the offsets of its parts.
pub fn rewritten(case: &mut Case<'_>) {
    let Ok(library) = read(case.alloc, stream(case).as_slice()) else {
        return case.note("stream", "not a library");
    };
    let written = write_library(case.alloc, &library);
    let written = case.list(written);
    let wanted = wanted_bytes(case);
    compare_bytes(case, wanted.as_slice(), written.as_slice());
    compare_read(case, &library, wanted.as_slice());
}

/// The bytes of the records that are `written`.
pub fn wanted_bytes(case: &mut Case<'_>) -> Vec<u8> {
    let records = case.text("written");
    stream_of(case, records)
}

/// Compares bytes that are written, of which the second came.
pub fn compare_bytes(case: &mut Case<'_>, wanted: &[u8], came: &[u8]) {
    let wanted = hex::encode(case.alloc, wanted);
    let came = hex::encode(case.alloc, came);
    match (wanted, came) {
        (Ok(wanted), Ok(came)) => case.compare("written", wanted.as_str(), came.as_str()),
        _ => case.no_memory(),
    }
}

/// Compares the library with what the bytes are read as, but for the offsets of their parts.
pub fn compare_read(case: &mut Case<'_>, library: &Library, bytes: &[u8]) {
    let Ok(again) = read(case.alloc, bytes) else {
        return case.note("read again", "not a library");
    };
    let wanted = printed(case.alloc, library, false);
    let came = printed(case.alloc, &again, false);
    case.compare("read again", wanted.shown(), came.shown());
}

/// `[[index]]`: `names`, and the number of the library's structure with each, or `none`.
pub fn index(case: &mut Case<'_>) {
    let Ok(library) = read(case.alloc, stream(case).as_slice()) else {
        return case.note("stream", "not a library");
    };
    let Ok(index) = library.index(case.alloc) else {
        return case.no_memory();
    };
    for name in case.texts("names").as_slice() {
        match index.find(name.as_bytes()) {
            Some(number) => case.expect("gives", number),
            None => case.expect_text("gives", "none"),
        }
    }
}

/// `[[records]]`: the records of `stream`, or of `bytes`, what is answered then, and what is answered once more. There are a million
/// bytes at most.
pub fn records(case: &mut Case<'_>) {
    let bytes = stream(case);
    if bytes.len() > 1_000_000 {
        return case.note("stream", "too long");
    }
    let mut text = Text::new(case.alloc);
    let mut records = Records::new(bytes.as_slice());
    for _ in 0u32..1_000_000 {
        match records.next() {
            Ok(Some(record)) => print_record(&mut text, &record),
            Ok(None) => break,
            Err(fault) => {
                text.print(format_args!("{fault:?}\nagain "));
                break;
            }
        }
    }
    match records.next() {
        Ok(Some(record)) => print_record(&mut text, &record),
        Ok(None) => text.say("end"),
        Err(fault) => text.print(format_args!("{fault:?}")),
    }
    case.expect_text("gives", text.shown());
}

/// Appends a line on the record.
fn print_record(text: &mut Text, record: &Record<'_>) {
    text.print(record.at);
    text.say(": kind ");
    text.print(record.kind);
    text.say(", form ");
    text.print(record.form);
    text.say(", ");
    text.print(record.body.len());
    text.say(" bytes\n");
}
