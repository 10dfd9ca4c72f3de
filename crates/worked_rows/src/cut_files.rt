//! Layouts that end too early, and files as long as may be, and longer.

use super::runs::{MEMORY, Outputs, RADIUS_3, ROOM, files_named, refused, status_on};
use edge_io::{Failed, Files};
use samples::TWO_BARS;
use samples::layouts::spliced;
use std::process::Abort;
use std::thread::Threads;

/// Where the records of the two bars' file begin.
const RECORDS: &[usize] = &[
    0, 6, 34, 40, 60, 88, 94, 98, 104, 110, 154, 158, 162, 168, 174, 218, 222, 226,
];

/// The offset of the record that is cut if the two bars' file ends after so many bytes.
fn cut_at(length: usize) -> usize {
    let mut cut = 0;
    for at in RECORDS {
        if *at <= length {
            cut = *at;
        }
    }
    cut
}

/// Whether a run on these files is refused with this line.
fn is_refused<F: Files>(
    rt: &(impl Abort + AllocGlobal + Threads + Sync),
    files: &mut F,
    line: &[u8],
) -> bool {
    let mut outputs = Outputs::new(rt, ROOM);
    let both = (&mut outputs.out, &mut outputs.err);
    let status = status_on(rt, RADIUS_3, files, both);
    outputs.are_left(status, &refused(4, line))
}

/// Whether the first bytes of the two bars' file, which are less than all, are refused at the record that is cut or missing.
fn cut_is_refused(rt: &(impl Abort + AllocGlobal + Threads + Sync), length: usize) -> bool {
    let layout = spliced(rt.alloc(), length, &[], 230).expect(rt, MEMORY);
    let mut files = files_named(rt, layout, Vec::new(rt.alloc()));
    let line = format!(in rt.alloc(); "error 10 at {}\n", cut_at(length)).expect(rt, MEMORY);
    is_refused(rt, &mut files, line.as_str().as_bytes())
}

#[test]
fn cut_layouts_are_refused(rt: HostRuntime) {
    for length in 0..TWO_BARS.len() {
        assert!(rt; cut_is_refused(&rt, length), "{length} bytes");
    }
}

/// Files whose bytes are all zero. Each has so many.
#[derive(Drop)]
struct Zeros {
    size: usize,
    unread: usize,
}

impl Files for Zeros {
    ghost use Rattle.std.specs.Prelude.{None};

    ghost holds = { λ _ _. None };

    ghost rest = { λ _. None };

    ghost started = { λ _. Unit {0} };

    ghost starts = { λ _. None };

    ghost sure = { λ _ _. Unit {0} };

    ghost steady = { λ _. Unit {0} };

    ghost faults = { λ _. 0 };

    fn start(&mut self, _name: &[u8]) -> Result<(), Failed> {
        self.unread = self.size;
        Ok(())
    }

    fn read(&mut self, buf: &mut [u8]) -> Result<usize, Failed> {
        let count = buf.len().min(self.unread);
        buf[..count].fill(0);
        self.unread -= count;
        Ok(count)
    }
}

/// Layouts of zeros: one byte more than the most is refused as too long, and the most for the length of its first record.
const ZEROS: &[(usize, &[u8])] = &[
    (268_435_457, b"error 9 at 268435456\n"),
    (268_435_456, b"error 11 at 0\n"),
];

#[test]
fn long_layouts_are_refused(rt: HostRuntime) {
    for (size, line) in ZEROS {
        let mut files = Zeros {
            size: *size,
            unread: 0,
        };
        assert!(rt; is_refused(&rt, &mut files, line), "{size} zeros");
    }
}
