use critarea_core::{LayoutFault, NoGate, analyse};
use layer_map::read_map;
use map_model::Map;
use report::Row;
use row_files::{layout_of, map_of};
use row_tables::Case;
use std::thread::Threads;

/// Edges of tiles, and numbers of workers.
const TILES: &[(u32, u32)] = &[
    (1, 2),
    (3, 64),
    (7, 4),
    (16, 2),
    (30, 1),
    (65_536, 4),
    (1_000_000_000, 64),
];

/// The stage whose fault it is.
fn stage_of(fault: LayoutFault) -> &'static str {
    match fault {
        LayoutFault::Syntax(_) => "syntax",
        LayoutFault::Place(_) => "place",
        LayoutFault::Cover(_) => "cover",
        LayoutFault::Net(_) => "net",
        LayoutFault::Memory => "memory",
    }
}

/// Compares what an analysis answered.
fn expect_answer(case: &mut Case<'_>, answer: Result<Vec<Row>, LayoutFault>) {
    match answer {
        Ok(rows) => match rows.as_slice() {
            [shorts, opens] => {
                case.expect("areas", format_args!("[{}, {}]", shorts.area, opens.area));
            }
            _ => case.note("areas", "not two rows"),
        },
        Err(fault) => {
            let (number, place) = (fault.number(), fault.place());
            let stage = stage_of(fault);
            case.expect("fault", format_args!("{stage} {number} at {place}"));
        }
    }
}

/// Analyses the row's layout by this map for each kind of tiles.
fn expect_analyses(rt: &(impl Threads + Sync), case: &mut Case<'_>, map: &Map) {
    let top = if case.has("top") {
        Some(case.text("top").as_bytes())
    } else {
        None
    };
    let layout = layout_of(case);
    let layout = &layout.as_slice()[..layout.len().min(1000)];
    for (edge, workers) in TILES {
        let (edge, workers) = ((*edge).clamp(1, 1_000_000_000), (*workers).clamp(1, 64));
        let answer = analyse(rt, case.alloc, map, layout, top, edge, workers, &NoGate);
        expect_answer(case, answer);
    }
}

/// Checks an analysis of a layout.
pub fn check(rt: &(impl Threads + Sync), case: &mut Case<'_>) {
    let map = map_of(case);
    match read_map(case.alloc, map.as_slice()) {
        Ok(map) => expect_analyses(rt, case, &map),
        Err(_) => case.note("map", "refused"),
    }
}
