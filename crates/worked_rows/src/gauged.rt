//! Gauges that go on from run to run, and that a run does not drop.

use super::gated::CELL_REPORT;
use super::runs::{BARS, Gauges, Given, MEMORY, ONE_METAL, PAIRS, RADIUS_3, ends_with, written};
use critarea_core::NoGate;
use gauge_samples::{Counted, CountedPairs, TightPairs};
use samples::layouts::Plate;
use std::process::Abort;
use std::sync::Arc;
use std::sync::atomic::{AtomicU64, Ordering};
use std::thread::Threads;

/// The report on the two bars without gauges.
const REPORT: &str = "\
short m r=3 area=32 weight=1 sum=32
open m r=3 area=0 weight=1 sum=0
total short 32
total open 0
total via 0
total 32
";

/// Whether a run with these gauges has these lines behind its report.
fn is_told(
    rt: &(impl Abort + AllocGlobal + Threads + Sync),
    gauges: &mut Gauges,
    lines: &str,
) -> bool {
    let given = Given {
        words: RADIUS_3,
        shapes: BARS,
        map: b"",
    };
    let text = [REPORT.as_bytes(), lines.as_bytes()].concat(rt.alloc());
    let text = text.expect(rt, MEMORY);
    ends_with(rt, &given, gauges, &NoGate, &written(text.as_slice()))
}

/// What the program's gauges print after the first run that they are told, and after the second.
const LINES: [&str; 2] = [
    "peak short m r=3 sum=32\nnonzero 1 of 2\n",
    "peak short m r=3 sum=32\nnonzero 2 of 4\n",
];

/// Gauges go on from run to run, and a run without gauges prints its report alone.
#[test]
fn gauges_go_on_from_run_to_run(rt: HostRuntime) {
    let mut gauges = Gauges::new(rt.alloc());
    for number in 0..2 {
        assert!(rt; is_told(&rt, &mut gauges, ""), "run {number}");
    }
    gauges.push_usual(&rt);
    for (number, lines) in LINES.iter().enumerate() {
        assert!(rt;
            is_told(&rt, &mut gauges, lines),
            "run {number} with gauges"
        );
    }
}

/// One metal of the layer 1, and a terminal in the first of the shapes.
const MAP: &[u8] = b"version=1\nradii=[5]\nweights=[1]\nmetal=[{name=\"m1\",pairs=[[1,0]]}]\n\
    terminal=[{metal=\"m1\",x=3,y=3}]\n";

/// Three squares of 4 by 4 cells, 2 apart.
const THREE_SQUARES: &[Plate] = &[
    (1, 0, (0, 0, 4, 4)),
    (1, 0, (6, 0, 10, 4)),
    (1, 0, (12, 0, 16, 4)),
];

/// Two bars at a corner: grown they have the columns [1,11) of the rows [0,9) in common, fewer cells than neighbours of the squares.
const AT_A_CORNER: &[Plate] = &[(1, 0, (0, 0, 6, 4)), (1, 0, (6, 5, 12, 9))];

/// Runs one after the other with the same pair gauges, `Worst` and one with room for nine rows. The greatest area is in the second.
const IN_TURN: &[(&[Plate], &[u8])] = &[
    (
        AT_A_CORNER,
        b"pair m1 0 1 r=5 area=90\npairs 1\nworst m1 0 1 r=5 area=90\nseen 1 of 9\n",
    ),
    (
        THREE_SQUARES,
        b"pair m1 0 1 r=5 area=112\npair m1 0 2 r=5 area=28\npair m1 1 2 r=5 area=112\npairs 3\n\
         worst m1 0 1 r=5 area=112\nseen 4 of 9\n",
    ),
    (
        AT_A_CORNER,
        b"pair m1 0 1 r=5 area=90\npairs 1\nworst m1 0 1 r=5 area=112\nseen 5 of 9\n",
    ),
];

/// Gauges of pairs are told one run after the other: those that the program has, and one with room for nine rows.
#[test]
fn pair_gauges_go_on_from_run_to_run(rt: HostRuntime) {
    let mut gauges = Gauges::new(rt.alloc());
    gauges.push_usual(&rt);
    let tight = Box::new(rt.alloc(), TightPairs::new(rt.alloc(), 9)).expect(&rt, MEMORY);
    gauges.pairs.push(tight).expect(&rt, MEMORY);
    for (number, (shapes, text)) in IN_TURN.iter().enumerate() {
        let given = Given {
            words: PAIRS,
            shapes,
            map: MAP,
        };
        let is_told = ends_with(&rt, &given, &mut gauges, &NoGate, &written(text));
        assert!(rt; is_told, "run {number}");
    }
}

/// Appends a gauge and a gauge of pairs, which count there when they are dropped.
fn push_counted(rt: &(impl Abort + AllocGlobal), gauges: &mut Gauges, drops: &Arc<AtomicU64>) {
    let alloc = rt.alloc();
    let shared = Arc::try_clone(drops).expect(rt, MEMORY);
    let counted = Box::new(alloc, Counted::new(alloc, shared)).expect(rt, MEMORY);
    gauges.rows.push(counted).expect(rt, MEMORY);
    let shared = Arc::try_clone(drops).expect(rt, MEMORY);
    let counted = Box::new(alloc, CountedPairs::new(alloc, shared)).expect(rt, MEMORY);
    gauges.pairs.push(counted).expect(rt, MEMORY);
}

/// A run, and what it writes with the gauges that the program has.
type Told = (Given<'static>, &'static [u8]);

/// A run that reports a generated cell, and one that tells the pairs of the two bars.
const TOLD: &[Told] = &[
    (
        Given {
            words: "--generate 1",
            shapes: &[],
            map: b"",
        },
        CELL_REPORT,
    ),
    (
        Given {
            words: PAIRS,
            shapes: BARS,
            map: ONE_METAL,
        },
        b"pair m 0 1 r=3 area=32\npairs 1\nworst m 0 1 r=3 area=32\n",
    ),
];

/// Checks that a run drops none of its gauges, four of which count there. Their lists are dropped behind that.
fn check_kept(
    rt: &(impl Abort + AllocGlobal + Threads + Sync),
    (given, text): &Told,
    drops: &Arc<AtomicU64>,
) {
    let mut gauges = Gauges::new(rt.alloc());
    push_counted(rt, &mut gauges, drops);
    gauges.push_usual(rt);
    push_counted(rt, &mut gauges, drops);
    assert!(rt; ends_with(rt, given, &mut gauges, &NoGate, &written(text)));
    assert!(rt; drops.load(Ordering::SeqCst) == 0);
}

/// The four gauges are dropped with their lists, and not before.
#[test]
fn a_run_drops_no_gauge(rt: HostRuntime) {
    for told in TOLD {
        let drops = Arc::new(rt.alloc(), AtomicU64::new(0)).expect(&rt, MEMORY);
        check_kept(&rt, told, &drops);
        assert!(rt; drops.load(Ordering::SeqCst) == 4);
    }
}
