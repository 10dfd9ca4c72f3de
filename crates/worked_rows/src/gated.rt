//! Runs whose tiles pass a gate that holds the first of them until the others have come. They end content where so many workers
//! are at work at once as were asked for.

ghost use Rattle.std.specs.Prelude.{◌≤◌};

use super::runs::{BARS, Gauges, Given, MEMORY, RADIUS_3, ends_with, written};
use critarea_core::analyse;
use map_model::one_metal;
use samples::{FEW_TURNS, HoldFirst, TWO_BARS, USUAL_TURNS};
use std::alloc::AllocError;
use std::process::Abort;
use std::thread::Threads;

/// The report on the two bars at the radius 3.
const BARS_REPORT: &[u8] = b"\
short m r=3 area=32 weight=1 sum=32
open m r=3 area=0 weight=1 sum=0
total short 32
total open 0
total via 0
total 32
peak short m r=3 sum=32
nonzero 1 of 2
";

/// The report on one generated cell, whose areas the table of generated layouts explains.
pub const CELL_REPORT: &[u8] = b"\
short m1 r=2 area=0 weight=10 sum=0
short m1 r=5 area=132 weight=1 sum=132
short m2 r=2 area=0 weight=10 sum=0
short m2 r=5 area=0 weight=1 sum=0
open m1 r=2 area=18 weight=10 sum=180
open m1 r=5 area=174 weight=1 sum=174
open m2 r=2 area=0 weight=10 sum=0
open m2 r=5 area=0 weight=1 sum=0
via v1 r=2 area=4 weight=10 sum=40
via v1 r=5 area=64 weight=1 sum=64
total short 132
total open 354
total via 104
total 590
peak open m1 r=2 sum=180
nonzero 5 of 10
";

/// The words, the report, how many tiles there are, and how many of them the gate holds. The window of the bars is 30 by 16 cells, and
/// that of the generated cell 22 by 22.
type Row = (&'static str, &'static [u8], u64, u64);

/// Two tiles for one worker.
const ALONE: Row = (
    "a --layer 1 --datatype 0 --radius 3 --tile 16 --workers 1",
    BARS_REPORT,
    2,
    1,
);

const ROWS: &[Row] = &[
    // one worker goes on while the other is held
    (
        "a --layer 1 --datatype 0 --radius 3 --tile 16 --workers 2",
        BARS_REPORT,
        2,
        1,
    ),
    // three are held until the fourth comes, which takes a worker for each
    (
        "a --layer 1 --datatype 0 --radius 3 --tile 15 --workers 4",
        BARS_REPORT,
        4,
        3,
    ),
    // seven until the eighth, each at a tile with an edge of 8
    (
        "a --layer 1 --datatype 0 --radius 3 --tile 8 --workers 8",
        BARS_REPORT,
        8,
        7,
    ),
    // where no edge is asked for there is one tile, which waits for no other
    (RADIUS_3, BARS_REPORT, 1, 1),
    // a layout that is made here has its tiles counted by the same workers
    ("--generate 1 --tile 11 --workers 2", CELL_REPORT, 4, 1),
    // as many workers as may be, each at a tile with an edge of 3: 8 tiles beside one another, and 8 over one another
    ("--generate 1 --tile 3 --workers 64", CELL_REPORT, 64, 63),
];

/// Whether a run on the two bars by this map ends so, and leaves the gate content or not, as is said.
fn passes(
    rt: &(impl Abort + AllocGlobal + Threads + Sync),
    (words, map, report): (&str, &[u8], &[u8]),
    gate: &HoldFirst,
    is_content: bool,
) -> bool {
    let given = Given {
        words,
        shapes: BARS,
        map,
    };
    let mut gauges = Gauges::new(rt.alloc());
    gauges.push_usual(rt);
    let ended = ends_with(rt, &given, &mut gauges, gate, &written(report));
    ended && gate.is_content() == is_content
}

#[test]
fn workers_go_on_while_others_are_held_at_their_tiles(rt: HostRuntime) {
    for (number, (words, report, tiles, held)) in ROWS.iter().enumerate() {
        let gate = HoldFirst::holding(*tiles, *held, USUAL_TURNS);
        let run = (*words, b"".as_slice(), *report);
        assert!(rt; passes(&rt, run, &gate, true), "row {number}");
    }
}

/// One worker is held in vain, and then counts as ever.
#[test]
fn a_worker_alone_is_held_in_vain(rt: HostRuntime) {
    let (words, report, tiles, held) = ALONE;
    let gate = HoldFirst::holding(tiles, held, FEW_TURNS);
    assert!(rt; passes(&rt, (words, b"".as_slice(), report), &gate, false));
}

/// Two workers analyse the two bars, and leave a gate for two tiles content.
#[test]
fn an_analysis_passes_its_gate(rt: HostRuntime) {
    let map = one_metal(rt.alloc(), 1, 0, 3).expect(&rt, MEMORY);
    let gate = HoldFirst::new(2);
    match analyse(&rt, rt.alloc(), &map, TWO_BARS, None, 16, 2, &gate) {
        Ok(rows) => match rows.as_slice() {
            [shorts, opens] => assert!(rt; shorts.area == 32 && opens.area == 0),
            _ => panic!(rt; "not two rows"),
        },
        Err(_) => panic!(rt; "a fault"),
    }
    assert!(rt; gate.is_content());
}

/// Two metals at the radii 1 to 32, which are 64 rows of shorts and 64 of opens.
const MANY_QUESTIONS: &[u8] = b"\
    version = 1\n\
    radii = [1, 2, 3, 4, 5, 6, 7, 8, 9, 10, 11, 12, 13, 14, 15, 16, 17, 18, 19, 20, 21, 22, 23, 24, 25, \
    26, 27, 28, 29, 30, 31, 32]\n\
    weights = [1, 1, 1, 1, 1, 1, 1, 1, 1, 1, 1, 1, 1, 1, 1, 1, 1, 1, 1, 1, 1, 1, 1, 1, 1, 1, 1, 1, 1, 1, \
    1, 1]\n\
    metal = [{ name = \"m1\", pairs = [[1, 0]] }, { name = \"m2\", pairs = [[2, 0]] }]\n";

/// What stands behind the rows. The areas of shorts, 4 r * r + 12 r - 40 for r from 3 to 32, come to 50,840.
const TOTALS: &str = "\
total short 50840
total open 0
total via 0
total 50840
peak short m1 r=32 sum=4440
nonzero 30 of 128
";

/// At how many cells a defect touches both bars: they are 4 columns apart and have 10 rows. From the radius 3 on it does in 2 r - 4
/// columns and 2 r + 10 rows.
fn short_of_bars(radius: u32) -> u32
    requires { radius ≤ 32 }
{
    if radius < 3 {
        return 0;
    }
    (2 * radius - 4) * (2 * radius + 10)
}

/// Appends the rows of the first metal's shorts, and rows without areas.
fn push_rows(text: &mut String) -> Result<(), AllocError> {
    for radius in 1..33 {
        let area = short_of_bars(radius);
        write!(
            text,
            "short m1 r={radius} area={area} weight=1 sum={area}\n"
        )?;
    }
    for words in ["short m2", "open m1", "open m2"] {
        for radius in 1..33 {
            write!(text, "{words} r={radius} area=0 weight=1 sum=0\n")?;
        }
    }
    text.push_str(TOTALS)
}

/// Two workers write the report of many questions on four tiles, by a gate that holds the first. The window is 88 by 74 cells.
#[test]
fn workers_share_the_tiles_of_many_questions(rt: HostRuntime) {
    let gate = HoldFirst::new(4);
    let mut report = String::new(rt.alloc());
    push_rows(&mut report).expect(&rt, MEMORY);
    let run = (
        "a --map m --tile 44 --workers 2",
        MANY_QUESTIONS,
        report.as_str().as_bytes(),
    );
    assert!(rt; passes(&rt, run, &gate, true));
}
