use super::prepared::Run;
use super::region_files::expect_cells;
use row_files::shared_text;
use row_tables::{Case, Text};
use std::thread::Threads;

/// The words after those of a row whose answer no tile and no worker changes: each of these in turn.
const TILINGS: &[&str] = &[
    "",
    " --tile 1 --workers 1",
    " --tile 3",
    " --tile 7 --workers 64",
    " --tile 1000000000 --workers 2",
];

/// The text of bytes that came.
fn text_of(bytes: &[u8]) -> &str {
    str::from_utf8(bytes).unwrap_or("bytes that are no text")
}

/// Compares the output with the report on the metal `m` at one radius of defects with the weight 1, of which shorts alone have an area.
/// Of equal products the peak is the first, which is the row of shorts.
fn expect_shorts(case: &mut Case<'_>, came: &str) {
    let numbers: Vec<u64> = case.numbers("shorts");
    let [radius, area] = numbers.as_slice() else {
        case.note("shorts", "not a radius and an area");
        return;
    };
    let nonzero = (*area).min(1);
    let mut wanted = Text::new(case.alloc);
    wanted.print(format_args!(
        "short m r={radius} area={area} weight=1 sum={area}\n\
         open m r={radius} area=0 weight=1 sum=0\n\
         total short {area}\ntotal open 0\ntotal via 0\ntotal {area}\n\
         peak short m r={radius} sum={area}\nnonzero {nonzero} of 2\n"
    ));
    case.compare("shorts", wanted.shown(), came);
}

/// Compares what the output took.
fn expect_out(case: &mut Case<'_>, out: &[u8]) {
    if case.has("region") || case.has("cells") {
        expect_cells(case, out);
    } else if case.has("shorts") {
        expect_shorts(case, text_of(out));
    } else if case.has("report") {
        let wanted = shared_text(case, "report");
        case.compare("report", wanted, text_of(out));
    } else {
        case.expect_or("out", "", text_of(out));
    }
}

/// Makes a run of the row, with words for tiles and workers after those of the row, and compares what it comes to.
fn expect_run(rt: &(impl Threads + Sync), case: &mut Case<'_>, tiling: &str) {
    let mut run = Run::of_row(case, tiling);
    let came = run.status(rt, case.alloc);
    let mut status = Text::new(case.alloc);
    status.print(case.done(came, 0));
    case.expect_or("status", "0", status.shown());
    case.expect_or("err", "", text_of(run.err.written.as_slice()));
    case.expect_if_wanted("printed", text_of(run.printed.as_slice()));
    case.expect_if_wanted("pairs_printed", text_of(run.pairs_printed.as_slice()));
    expect_out(case, run.out.written.as_slice());
}

/// Checks a run, which is made once or for each kind of tiles.
pub fn check(rt: &(impl Threads + Sync), case: &mut Case<'_>) {
    if !case.has("tiled") {
        expect_run(rt, case, "");
        return;
    }
    case.expect("tiled", true);
    for tiling in TILINGS {
        expect_run(rt, case, tiling);
    }
}
