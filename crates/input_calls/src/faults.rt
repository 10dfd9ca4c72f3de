//! What faults say: their numbers, their places and their texts.

use crate::texts::print_fault;
use command_line::WordsFault;
use edge_io::ReadError;
use flatten::PlaceFault;
use gds_records::RecordFault;
use gds_syntax::SyntaxFault;
use layer_map::MapFault;
use rect_cover::CoverFault;
use row_tables::{Case, Text};
use std::fmt::Display;

const WORDS: &[WordsFault] = &[WordsFault::Usage, WordsFault::Memory];

const MAPS: &[MapFault] = &[
    MapFault::Syntax,
    MapFault::BadKey { path: 1 },
    MapFault::BadValue { path: 3 },
    MapFault::RepeatedPair { path: 112 },
    MapFault::RepeatedName { path: 301 },
    MapFault::UnknownMetal { path: 304 },
    MapFault::RepeatedTerminal { path: 1010 },
    MapFault::LimitPassed { path: 7 },
    MapFault::Memory,
];

const RECORDS: &[RecordFault] = &[
    RecordFault::Truncated { at: 7 },
    RecordFault::BadLength { at: 8, len: 3 },
    RecordFault::BadRecord {
        at: 9,
        kind: 0x77,
        form: 0,
    },
    RecordFault::BadSize { at: 10 },
];

const LAYOUTS: &[SyntaxFault] = &[
    SyntaxFault::Record(RecordFault::BadLength { at: 7, len: 3 }),
    SyntaxFault::Unexpected { at: 8, kind: 2 },
    SyntaxFault::Missing { at: 9, kind: 13 },
    SyntaxFault::RepeatedStructure { at: 10 },
    SyntaxFault::PointCount { at: 11 },
    SyntaxFault::NotClosed { at: 12 },
    SyntaxFault::Magnified { at: 13 },
    SyntaxFault::BadAngle { at: 14 },
    SyntaxFault::AbsoluteAngle { at: 15 },
    SyntaxFault::EmptyArray { at: 16 },
    SyntaxFault::UnevenArray { at: 17 },
    SyntaxFault::Memory,
];

const PLACES: &[PlaceFault] = &[
    PlaceFault::UnknownStructure { at: 94 },
    PlaceFault::Cycle { at: 60 },
    PlaceFault::NoTop,
    PlaceFault::ManyTops { at: 162 },
    PlaceFault::TooDeep { at: 60 },
    PlaceFault::TooManyShapes { at: 60 },
    PlaceFault::OutOfRange { at: 4_294_967_295 },
    PlaceFault::Memory,
];

const COVERS: &[CoverFault] = &[
    CoverFault::OutOfRange { at: 94 },
    CoverFault::NotRectilinear { at: 95 },
    CoverFault::RoundPath { at: 96 },
    CoverFault::OddWidth { at: 97 },
    CoverFault::Reversal { at: 98 },
    CoverFault::BadExtension { at: 99 },
    CoverFault::PointPath { at: 4_294_967_295 },
    CoverFault::Memory,
];

const READS: &[ReadError] = &[ReadError::Fault, ReadError::TooLong, ReadError::Memory];

/// Appends what errors of reading files say.
fn print_reads(text: &mut Text) {
    for error in READS {
        text.print(error);
        text.say("\n");
    }
}

/// Appends a line on a fault: its number, its place and its text.
fn print(text: &mut Text, number: u8, place: u64, fault: impl Display + Drop) {
    print_fault(text, number, place);
    text.say(": ");
    text.print(fault);
    text.say("\n");
}

/// Appends what faults of words say.
fn print_words(text: &mut Text) {
    for fault in WORDS {
        print(text, fault.number(), fault.place(), fault);
    }
}

/// Appends what faults of layer maps say.
fn print_maps(text: &mut Text) {
    for fault in MAPS {
        print(text, fault.number(), fault.place(), fault);
    }
}

/// Appends what faults of records say.
fn print_records(text: &mut Text) {
    for fault in RECORDS {
        print(text, fault.number(), fault.place(), fault);
    }
}

/// Appends what faults of layouts say.
fn print_layouts(text: &mut Text) {
    for fault in LAYOUTS {
        print(text, fault.number(), fault.place(), fault);
    }
}

/// Appends what faults of placing say.
fn print_places(text: &mut Text) {
    for fault in PLACES {
        print(text, fault.number(), fault.place(), fault);
    }
}

/// Appends what faults of covers say.
fn print_covers(text: &mut Text) {
    for fault in COVERS {
        print(text, fault.number(), fault.place(), fault);
    }
}

/// `[[words_faults]]`, `[[map_faults]]`, `[[record_faults]]`, `[[layout_faults]]`, `[[place_faults]]`, `[[cover_faults]]` and
/// `[[read_errors]]`: what faults and errors `say`, one a line. The answer is whether the row is of one of these kinds.
pub fn said(case: &mut Case<'_>) -> bool {
    let mut text = Text::new(case.alloc);
    match case.kind {
        "words_faults" => print_words(&mut text),
        "map_faults" => print_maps(&mut text),
        "record_faults" => print_records(&mut text),
        "layout_faults" => print_layouts(&mut text),
        "place_faults" => print_places(&mut text),
        "cover_faults" => print_covers(&mut text),
        "read_errors" => print_reads(&mut text),
        _ => return false,
    }
    case.expect_text("say", text.shown());
    true
}
