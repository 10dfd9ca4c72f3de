//! Files and sinks in memory, of which some calls fail.

use crate::texts::text_of;
use edge_io::{MemFiles, MemSink, read_whole, write_all};
use lists::Name;
use row_tables::Case;

/// `[[file]]`: the file `a` holds a text, so many `times`, and the calls whose numbers are listed in `fails` fail. If the file that
/// is named by `reads` is read up to the `limit`, it `gives` all of the text, or this is what is wrong, and so many failures are `counted`.
pub fn file(case: &mut Case<'_>) {
    let name = case.text("reads");
    let limit: u16 = case.number("limit");
    let times = if case.has("times") {
        case.number("times")
    } else {
        1
    };
    let text = case.text("holds").repeat(case.alloc, times);
    let text = case.done(text, String::new(case.alloc));
    let file = case.list(Vec::from_slice(case.alloc, b"a"));
    let holds = case.list(Vec::from_slice(case.alloc, text.as_bytes()));
    let mut files = Vec::new(case.alloc);
    case.push(&mut files, (Name::from_vec(file), holds));
    let mut files = MemFiles::new(files, case.numbers("fails"));
    match read_whole(case.alloc, &mut files, name.as_bytes(), usize::from(limit)) {
        Ok(read) if read.as_slice() == text.as_bytes() => case.expect_text("gives", "all"),
        Ok(_) => case.expect_text("gives", "other bytes"),
        Err(error) => case.expect("gives", error),
    }
    case.expect("counted", files.faults);
}

/// `[[sink]]`: a sink with this `room`, whose calls fail that are listed in `fails`. Of `abc` and then `d` it `takes` this, and
/// `failures` are how many writes fail, how many failures it counts, and how many calls.
pub fn sink(case: &mut Case<'_>) {
    let room = case.number("room");
    let Ok(mut sink) = MemSink::with(case.alloc, room, case.numbers("fails")) else {
        return case.no_memory();
    };
    let first = write_all(&mut sink, b"abc").is_err();
    let second = write_all(&mut sink, b"d").is_err();
    let failed = u64::from(first) + u64::from(second);
    case.expect_text("takes", text_of(sink.written.as_slice()));
    case.expect_list("failures", &[failed, sink.faults, sink.calls]);
}
