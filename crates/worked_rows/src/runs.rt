//! Runs: what each is given, and how it ends.

use critarea_core::{Gate, NoGate, Word, run};
use edge_io::{Files, MemFiles, MemSink, Sink};
use gauges::{Gauge, Nonzero, PairGauge, Peak, Worst};
use lists::Name;
use samples::layouts::{Plate, plates};
use std::alloc::Global;
use std::process::Abort;
use std::thread::Threads;

/// What a test says that ends because no memory is left.
pub const MEMORY: &str = "no memory is left";

/// Words for the areas of one metal at the radius 3.
pub const RADIUS_3: &str = "a --layer 1 --datatype 0 --radius 3";

/// Words for the areas by pairs of nets.
pub const PAIRS: &str = "a --map m --pairs 1";

/// The two bars, and a map of their metal at the radius 3.
pub const BARS: &[Plate] = &[(1, 0, (0, 0, 10, 10)), (1, 0, (14, 0, 24, 10))];

pub const ONE_METAL: &[u8] =
    b"version = 1\nradii = [3]\nweights = [1]\nmetal = [{ name = \"m\", pairs = [[1, 0]] }]\n";

/// What a run is given: a command line with one space between two words, the rectangles of the layout `a`, and the map `m`.
#[derive(Clone, Copy)]
pub struct Given<'a> {
    pub words: &'a str,
    pub shapes: &'a [Plate],
    pub map: &'a [u8],
}

/// How a run ends: its status, and what its outputs took.
#[derive(Clone, Copy)]
pub struct Ending<'a> {
    pub status: u8,
    pub out: &'a [u8],
    pub err: &'a [u8],
}

impl Ending<'_> {
    /// Whether this is the status, and these bytes were taken.
    pub fn is(&self, status: u8, out: &[u8], err: &[u8]) -> bool {
        self.status == status && self.out == out && self.err == err
    }
}

/// The end of a run that writes this.
pub fn written(out: &[u8]) -> Ending<'_> {
    Ending {
        status: 0,
        out,
        err: b"",
    }
}

/// The end of a run that is refused with this status and line.
pub fn refused(status: u8, err: &[u8]) -> Ending<'_> {
    Ending {
        status,
        out: b"",
        err,
    }
}

/// The gauges of a run.
#[derive(Drop)]
pub struct Gauges {
    pub rows: Vec<Box<dyn Gauge>>,
    pub pairs: Vec<Box<dyn PairGauge>>,
}

impl Gauges {
    /// No gauges.
    pub fn new(alloc: Global) -> Gauges {
        Gauges {
            rows: Vec::new(alloc),
            pairs: Vec::new(alloc),
        }
    }

    /// Appends those that the program has.
    pub fn push_usual(&mut self, rt: &(impl Abort + AllocGlobal)) {
        let alloc = rt.alloc();
        let peak = Box::new(alloc, Peak::new(alloc)).expect(rt, MEMORY);
        self.rows.push(peak).expect(rt, MEMORY);
        let nonzero = Box::new(alloc, Nonzero::new(alloc)).expect(rt, MEMORY);
        self.rows.push(nonzero).expect(rt, MEMORY);
        let worst = Box::new(alloc, Worst::new(alloc)).expect(rt, MEMORY);
        self.pairs.push(worst).expect(rt, MEMORY);
    }
}

/// The file of these bytes with a name of one letter.
fn file(rt: &(impl Abort + AllocGlobal), name: &[u8], bytes: Vec<u8>) -> (Name, Vec<u8>) {
    let name = Vec::from_slice(rt.alloc(), name).expect(rt, MEMORY);
    (Name::from_vec(name), bytes)
}

/// The files of a layout and of a map.
pub fn files_named(rt: &(impl Abort + AllocGlobal), layout: Vec<u8>, map: Vec<u8>) -> MemFiles {
    let mut files = Vec::new(rt.alloc());
    files.push(file(rt, b"a", layout)).expect(rt, MEMORY);
    files.push(file(rt, b"m", map)).expect(rt, MEMORY);
    MemFiles::new(files, Vec::new(rt.alloc()))
}

/// The files of a run.
pub fn files_of(rt: &(impl Abort + AllocGlobal), given: &Given<'_>) -> MemFiles {
    let layout = plates(rt.alloc(), given.shapes).expect(rt, MEMORY);
    let map = Vec::from_slice(rt.alloc(), given.map).expect(rt, MEMORY);
    files_named(rt, layout, map)
}

/// The outputs of a run, in memory.
#[derive(Drop)]
pub struct Outputs {
    pub out: MemSink,
    pub err: MemSink,
}

/// More room than outputs need.
pub const ROOM: usize = 10_000;

/// An output with so much room.
fn output(rt: &(impl Abort + AllocGlobal), room: usize) -> MemSink {
    MemSink::with(rt.alloc(), room, Vec::new(rt.alloc())).expect(rt, MEMORY)
}

impl Outputs {
    /// Those with so much room each.
    pub fn new(rt: &(impl Abort + AllocGlobal), room: usize) -> Outputs {
        Outputs {
            out: output(rt, room),
            err: output(rt, room),
        }
    }

    /// Whether a run with this status, which was handed them, ended so.
    pub fn are_left(&self, status: u8, want: &Ending<'_>) -> bool {
        let (out, err) = (self.out.written.as_slice(), self.err.written.as_slice());
        want.is(status, out, err)
    }
}

/// The words of a command line.
fn words_of(rt: &(impl Abort + AllocGlobal), line: &str) -> Vec<Word> {
    let mut words = Vec::new(rt.alloc());
    for word in line.split(' ') {
        let text = String::from_str(rt.alloc(), word).expect(rt, MEMORY);
        words.push(Word::from_string(text)).expect(rt, MEMORY);
    }
    words
}

/// The status of a run on these files and outputs, with the gauges that the program has.
pub fn status_on<F: Files, O: Sink, E: Sink>(
    rt: &(impl Abort + AllocGlobal + Threads + Sync),
    line: &str,
    files: &mut F,
    (out, err): (&mut O, &mut E),
) -> u8 {
    let words = words_of(rt, line);
    let mut gauges = Gauges::new(rt.alloc());
    gauges.push_usual(rt);
    let (words, rows, pairs) = (words.as_slice(), &mut gauges.rows, &mut gauges.pairs);
    run(rt, rt.alloc(), words, files, out, err, rows, pairs, &NoGate)
}

/// Whether a run with these gauges ends so, whose tiles pass this gate.
pub fn ends_with<G: Gate + Sync>(
    rt: &(impl Abort + AllocGlobal + Threads + Sync),
    given: &Given<'_>,
    gauges: &mut Gauges,
    gate: &G,
    want: &Ending<'_>,
) -> bool {
    let words = words_of(rt, given.words);
    let mut files = files_of(rt, given);
    let mut outputs = Outputs::new(rt, ROOM);
    let (out, err) = (&mut outputs.out, &mut outputs.err);
    let (words, rows, pairs) = (words.as_slice(), &mut gauges.rows, &mut gauges.pairs);
    let status = run(
        rt,
        rt.alloc(),
        words,
        &mut files,
        out,
        err,
        rows,
        pairs,
        gate,
    );
    outputs.are_left(status, want)
}
