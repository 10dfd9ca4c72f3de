//! The stream of the two bars, cut and changed.

use gds_records::{RecordFault, Records};
use gds_syntax::{SyntaxFault, read_library};
use samples::TWO_BARS;
use std::alloc::Global;

/// Where each of its records begins, and where the last one ends.
const STARTS: [u16; 19] = [
    0, 6, 34, 40, 60, 88, 94, 98, 104, 110, 154, 158, 162, 168, 174, 218, 222, 226, 230,
];

/// The number and the place of the fault of a stream of at most a million bytes, if it is refused.
fn refusal(alloc: Global, bytes: &[u8]) -> Option<(u8, u64)> {
    let read = if bytes.len() > 1_000_000 {
        Err(SyntaxFault::Memory)
    } else {
        read_library(alloc, bytes)
    };
    match read {
        Ok(_) => None,
        Err(fault) => Some((fault.number(), fault.place())),
    }
}

/// Whether so many records come from the bytes, and then this fault, which is given again if the reader is asked again.
fn stops(bytes: &[u8], count: usize, fault: RecordFault) -> bool {
    if bytes.len() > 1000 {
        return false;
    }
    let mut records = Records::new(bytes);
    for _ in 0..count {
        if !matches!(records.next(), Ok(Some(_))) {
            return false;
        }
    }
    records.next() == Err(fault) && records.next() == Err(fault)
}

/// Whether the stream ends after so many records with the one from `at` to `end`, wherever it is cut within that, and is refused there.
fn is_cut_within(alloc: Global, count: usize, at: u16, end: u16) -> bool {
    let fault = RecordFault::Truncated { at: u32::from(at) };
    for cut in at..end {
        let front = TWO_BARS.get(..usize::from(cut)).unwrap_or(TWO_BARS);
        if !stops(front, count, fault) || refusal(alloc, front) != Some((10, u64::from(at))) {
            return false;
        }
    }
    true
}

#[test]
fn cut_streams_end_at_the_record_that_is_cut(rt: HostRuntime) {
    for (count, (at, end)) in STARTS.iter().zip(&STARTS[1..]).enumerate() {
        assert!(rt; is_cut_within(rt.alloc(), count, *at, *end), "at {at}");
    }
}

/// What is answered for changed bytes.
#[derive(Clone, Copy)]
enum Answer {
    /// A library.
    Accepted,
    /// This number and this place.
    Refused(u8, u64),
    /// A library or any number from 10 to 23.
    Any,
}

/// Whether the stream is refused so, if it is.
fn is_answered(refusal: Option<(u8, u64)>, answer: Answer) -> bool {
    match answer {
        Answer::Accepted => refusal.is_none(),
        Answer::Refused(number, place) => refusal == Some((number, place)),
        Answer::Any => match refusal {
            Some((number, _)) => 10 <= number && number <= 23,
            None => true,
        },
    }
}

/// Other values of a byte: what is turned over in it.
const FLIPS: &[u8] = &[1, 2, 4, 8, 16, 32, 64, 128, 255];

/// Whether the stream is answered so if the byte at this offset has one of the other values.
fn is_changed_at(alloc: Global, at: u16, answer: Answer) -> bool {
    for flip in FLIPS {
        let mut bytes = *TWO_BARS;
        if let Some(byte) = bytes.get_mut(usize::from(at)) {
            *byte ^= *flip;
        }
        if !is_answered(refusal(alloc, &bytes), answer) {
            return false;
        }
    }
    true
}

/// The last byte of a record's head is the form of its data, which is one for each kind.
#[test]
fn other_forms_are_refused(rt: HostRuntime) {
    for at in &STARTS[..18] {
        let answer = Answer::Refused(12, u64::from(*at));
        assert!(rt;
            is_changed_at(rt.alloc(), at.saturating_add(3), answer),
            "at {at}"
        );
    }
}

/// Offsets, from one to before another.
type Span = (u16, u16);

/// Bytes that may have any value: the version, dates, the library's name, and units; the dates and the name of the structure; and of
/// each bar its layer, its datatype, and the points but the first and the last.
const FREE: &[Span] = &[
    (4, 6),
    (10, 34),
    (38, 40),
    (44, 60),
    (64, 88),
    (92, 94),
    (102, 104),
    (108, 110),
    (122, 146),
    (166, 168),
    (172, 174),
    (186, 210),
];

/// The first and the last points of the left bar and of the right one, which have to be equal.
const LEFT: &[Span] = &[(114, 122), (146, 154)];

const RIGHT: &[Span] = &[(178, 186), (210, 218)];

/// Whether one of these spans has the offset.
fn is_in(spans: &[Span], at: u16) -> bool {
    for (start, end) in spans {
        if *start <= at && at < *end {
            return true;
        }
    }
    false
}

/// What is answered if the byte at this offset has another value.
fn answer_at(at: u16) -> Answer {
    if is_in(FREE, at) {
        Answer::Accepted
    } else if is_in(LEFT, at) {
        Answer::Refused(18, 94)
    } else if is_in(RIGHT, at) {
        Answer::Refused(18, 158)
    } else {
        Answer::Any
    }
}

#[test]
fn changed_streams_are_answered(rt: HostRuntime) {
    for at in 0u16..230 {
        assert!(rt; is_changed_at(rt.alloc(), at, answer_at(at)), "at {at}");
    }
}
