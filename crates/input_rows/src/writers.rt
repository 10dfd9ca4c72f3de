//! Writers that are slow or fail.

use edge_io::{OsSink, write_all};
use std::alloc::Global;
use std::io::{self, ErrorKind, Write};

/// What the first call of a writer answers.
#[derive(Clone, Copy)]
enum First {
    /// What the others answer.
    AsOthers,
    /// That nothing was taken.
    Nothing,
    /// That it failed.
    Failure,
}

/// A writer that takes at most so many bytes a call, but perhaps none in the first one, and whose flushes may fail.
#[derive(Drop)]
struct Slow {
    first: First,
    most: usize,
    flushes: bool,
    taken: Vec<u8>,
}

impl Write for Slow {
    fn write(&mut self, buf: &[u8]) -> io::Result<usize> {
        let first = self.first;
        self.first = First::AsOthers;
        match first {
            First::AsOthers => {}
            First::Nothing => return Ok(0),
            First::Failure => return Err(io::Error::from(ErrorKind::Interrupted)),
        }
        let count = buf.len().min(self.most);
        self.taken.extend_from_slice(&buf[..count])?;
        Ok(count)
    }

    fn flush(&mut self) -> io::Result<()> {
        if self.flushes {
            Ok(())
        } else {
            Err(io::Error::from(ErrorKind::Other))
        }
    }
}

/// What the writer's first call answers, how many bytes it takes a call at most, whether its flushes pass, what is written, whether
/// that is answered with `Ok`, and what the writer took.
type Written = (First, usize, bool, &'static [u8], bool, &'static [u8]);

/// Whether a sink over such a writer answers so, and the writer took so much.
fn writer_takes(alloc: Global, case: &Written) -> bool {
    let (first, most, flushes, bytes, passes, taken) = *case;
    let mut sink = OsSink::new(Slow {
        first,
        most,
        flushes,
        taken: Vec::new(alloc),
    });
    write_all(&mut sink, bytes).is_ok() == passes && sink.writer.taken.as_slice() == taken
}

const WRITERS: &[Written] = &[
    (First::AsOthers, 9, true, b"abc", true, b"abc"),
    (First::AsOthers, 2, true, b"abc", true, b"abc"),
    (First::AsOthers, 1, true, b"abc", true, b"abc"),
    // a writer that takes nothing has failed
    (First::AsOthers, 0, true, b"abc", false, b""),
    // and so has one whose flush fails, whatever it took
    (First::AsOthers, 9, false, b"abc", false, b"abc"),
    (First::AsOthers, 1, false, b"abc", false, b"a"),
    // nothing is tried again
    (First::Nothing, 9, true, b"abc", false, b""),
    (First::Failure, 9, true, b"abc", false, b""),
    // if there is nothing to write, nothing is asked of it
    (First::AsOthers, 0, false, b"", true, b""),
];

#[test]
fn a_writer_that_is_slow_or_fails(rt: HostRuntime) {
    for (number, case) in WRITERS.iter().enumerate() {
        assert!(rt; writer_takes(rt.alloc(), case), "case {number}");
    }
}
