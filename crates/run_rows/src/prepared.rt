//! What a run is handed: words, files, outputs and gauges.

use critarea_core::{NoGate, Word, run};
use edge_io::{MemFiles, MemSink};
use gauge_samples::{
    GaugeKind, Mute, MutePairs, PairAreas, PairGaugeKind, Silent, Tight, TightPairs,
};
use gauges::{Gauge, Nonzero, PairGauge, Peak, Worst, append_pair_texts, append_texts};
use layout_gen::generate;
use lists::NoMemory;
use row_files::{layout_of, map_of, push_file};
use row_tables::{Case, Text};
use std::alloc::Global;
use std::thread::Threads;

/// A run: what it is handed, and what it leaves.
#[derive(Drop)]
pub struct Run {
    words: Vec<Word>,
    files: MemFiles,
    /// The output.
    pub out: MemSink,
    /// The error output.
    pub err: MemSink,
    gauges: Vec<GaugeKind>,
    pair_gauges: Vec<PairGaugeKind>,
    /// What the gauges print after the run, as far as they print.
    pub printed: Vec<u8>,
    /// What the gauges of pairs print.
    pub pairs_printed: Vec<u8>,
}

/// The row's words, with those for tiles and workers behind them and one space between two of them. An empty line has none.
fn words_of(case: &mut Case<'_>, tiling: &str) -> Vec<Word> {
    let mut line = Text::new(case.alloc);
    line.say(case.text("words"));
    line.say(tiling);
    let mut words = Vec::new(case.alloc);
    if line.shown().is_empty() {
        return words;
    }
    for word in line.shown().split(' ') {
        let word = String::from_str(case.alloc, word);
        let word = case.done(word, String::new(case.alloc));
        case.push(&mut words, Word::from_string(word));
    }
    words
}

/// The bytes of the row's layout and of its map.
fn layout_and_map(case: &mut Case<'_>) -> (Vec<u8>, Vec<u8>) {
    if case.has("generated") {
        let columns: u32 = case.number("generated");
        let made = generate(case.alloc, columns.clamp(1, 500));
        case.done(made, (Vec::new(case.alloc), Vec::new(case.alloc)))
    } else {
        (layout_of(case), map_of(case))
    }
}

/// The numbers of the calls that fail, which the row lists at the key if there are some.
fn fails_at<'a>(case: &mut Case<'a>, key: &'a str) -> Vec<u64> {
    if case.has(key) {
        case.numbers(key)
    } else {
        Vec::new(case.alloc)
    }
}

/// The row's layout as the file `a`, and its map as the file `m`.
fn files_of(case: &mut Case<'_>) -> MemFiles {
    let (layout, map) = layout_and_map(case);
    let mut files = MemFiles::new(Vec::new(case.alloc), fails_at(case, "files_fail"));
    push_file(case, &mut files.files, "a", layout);
    push_file(case, &mut files.files, "m", map);
    files
}

/// An output with room for so many bytes, of which the calls fail that the row lists at the key.
fn output<'a>(case: &mut Case<'a>, room: usize, key: &'a str) -> MemSink {
    let fails = fails_at(case, key);
    let none = MemSink {
        written: Vec::new(case.alloc),
        room: 0,
        fails: Vec::new(case.alloc),
        calls: 0,
        faults: 0,
    };
    case.done(MemSink::with(case.alloc, room, fails), none)
}

/// The texts at the key, or these if the row has no such key.
fn texts_or<'a>(case: &mut Case<'a>, key: &'a str, usual: &[&'a str]) -> Vec<&'a str> {
    if case.has(key) {
        case.texts(key)
    } else {
        let texts = Vec::from_slice(case.alloc, usual);
        case.list(texts)
    }
}

/// The gauges that the row names, or those of the program.
fn gauges_of(case: &mut Case<'_>) -> Vec<GaugeKind> {
    let mut kinds = Vec::new(case.alloc);
    for name in texts_or(case, "gauges", &["peak", "nonzero"]).as_slice() {
        match GaugeKind::named(name) {
            Some(kind) => case.push(&mut kinds, kind),
            None => case.note("gauges", "not names of gauges"),
        }
    }
    kinds
}

/// The gauges of pairs that the row names, or that of the program.
fn pair_gauges_of(case: &mut Case<'_>) -> Vec<PairGaugeKind> {
    let mut kinds = Vec::new(case.alloc);
    for name in texts_or(case, "pair_gauges", &["worst"]).as_slice() {
        match PairGaugeKind::named(name) {
            Some(kind) => case.push(&mut kinds, kind),
            None => case.note("pair_gauges", "not names of gauges of pairs"),
        }
    }
    kinds
}

impl Run {
    /// The run that the row says, with words for tiles and workers after those of the row.
    pub fn of_row(case: &mut Case<'_>, tiling: &str) -> Run {
        let room = if case.has("room") {
            case.number("room")
        } else {
            20_000
        };
        Run {
            words: words_of(case, tiling),
            files: files_of(case),
            out: output(case, room, "out_fails"),
            err: output(case, 1000, "err_fails"),
            gauges: gauges_of(case),
            pair_gauges: pair_gauges_of(case),
            printed: Vec::new(case.alloc),
            pairs_printed: Vec::new(case.alloc),
        }
    }

    /// Runs it, and answers its status. A gauge that refuses to print leaves what the others have printed.
    pub fn status(&mut self, rt: &(impl Threads + Sync), alloc: Global) -> Result<u8, NoMemory> {
        let mut gauges: Vec<Box<dyn Gauge>> = Vec::new(alloc);
        for kind in self.gauges.as_slice() {
            let gauge: Box<dyn Gauge> = match kind {
                GaugeKind::Nonzero => Box::new(alloc, Nonzero::new(alloc))?,
                GaugeKind::Peak => Box::new(alloc, Peak::new(alloc))?,
                GaugeKind::Tight(room) => Box::new(alloc, Tight::new(alloc, *room))?,
                GaugeKind::Silent => Box::new(alloc, Silent::new(alloc))?,
                GaugeKind::Mute => Box::new(alloc, Mute::new(alloc))?,
            };
            gauges.push(gauge)?;
        }
        let mut pair_gauges: Vec<Box<dyn PairGauge>> = Vec::new(alloc);
        for kind in self.pair_gauges.as_slice() {
            let gauge: Box<dyn PairGauge> = match kind {
                PairGaugeKind::Worst => Box::new(alloc, Worst::new(alloc))?,
                PairGaugeKind::Tight(room) => Box::new(alloc, TightPairs::new(alloc, *room))?,
                PairGaugeKind::Areas => Box::new(alloc, PairAreas::new(alloc))?,
                PairGaugeKind::Mute => Box::new(alloc, MutePairs::new(alloc))?,
            };
            pair_gauges.push(gauge)?;
        }
        let status = run(
            rt,
            alloc,
            self.words.as_slice(),
            &mut self.files,
            &mut self.out,
            &mut self.err,
            &mut gauges,
            &mut pair_gauges,
            &NoGate,
        );
        let _rows = append_texts(gauges.as_slice(), &mut self.printed);
        let _pairs = append_pair_texts(pair_gauges.as_slice(), &mut self.pairs_printed);
        Ok(status)
    }
}
