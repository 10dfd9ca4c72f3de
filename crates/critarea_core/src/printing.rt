ghost use Rattle.std.specs.Prelude.{[], ◌≤◌, ◌≡◌, IfOk, OnErr, OnOk, length};
ghost use Rattle.run_inputs.specs.Failures.{change};
ghost use Rattle.critarea_core.specs.Outputs.{whole_report};
ghost use Rattle.critarea_core.specs.inside.Finding.{DueEnds, IsPrinted, LineEnds, due_to, region_due};
ghost use Rattle.critarea_core.specs.Run.{AreToldAll, AreToldSome, known_gauges};
ghost use Rattle.gauges.specs.GaugeViews.{AreTold, AreToldPrefixes, views_of};
ghost use Rattle.layout_probe.specs.ProbeText.{probe_text};
ghost use Rattle.pair_report.specs.PairReport.{whole_pair_text};
ghost use Rattle.pair_report.specs.PairRows.{pair_rows};
ghost use Rattle.questions.specs.declared.row.TheConstants.{MOST_ROWS};

use super::found::{CriticalRegion, Found};
use edge_io::{Failed, Sink, write_all};
use gauges::{Gauge, PairGauge, append_texts, tell};
use gds_write::write_library;
use layout_probe::{MetalNear, write_probe};
use lists::NoMemory;
use pair_report::{PairTables, write_pairs};
use questions::Row;
use region_out::region_library;
use report::write_report;
use run_inputs::{Refusal, Unreported};
use std::alloc::Global;

/// The status where what is due went out.
const REPORTED: u8 = 0;

/// The status where a file or an output failed.
const FAILED: u8 = 5;

/// The status where no memory is left.
pub const NO_MEMORY: u8 = 6;

/// Prints the line of a refusal, and gives the status.
fn print_refusal<E: Sink>(alloc: Global, refusal: Refusal, err: &mut E) -> u8
    ensures { LineEnds refusal
        (record {
          taken = change (E.written err.old) (E.written err.new);
          sure = E.sure err.old;
          failures = change (E.faults err.old) (E.faults err.new);
        }) result }
{
    let Ok(line) = refusal.line(alloc) else {
        return NO_MEMORY;
    };
    match write_all(err, line.as_str().as_bytes()) {
        Ok(()) => refusal.status,
        Err(Failed) => FAILED,
    }
}

/// The text of the report that has these rows, with what the gauges print at its end. They are told the rows first. Where
/// memory runs out, each may have been told the first few of the rows alone, or none.
fn text_of_report(
    alloc: Global,
    rows: &[Row],
    gauges: &mut Vec<Box<dyn Gauge>>,
) -> Result<Vec<u8>, NoMemory>
    requires { length rows.now ≤ MOST_ROWS }
    ensures printed { IfOk result (λ printed.
        printed.items ≡ whole_report rows.now (views_of seen text gauges.old.items)) }
    ensures told { OnOk result
        (AreTold rows.now (views_of seen text gauges.old.items) (views_of seen text gauges.new.items)) }
    ensures prefixes { OnErr result
        (AreToldPrefixes rows.now (views_of seen text gauges.old.items) (views_of seen text gauges.new.items)) }
{
    let mut printed = Vec::new(alloc);
    write_report(alloc, rows, &mut printed)?;
    tell(gauges, rows)?;
    append_texts(gauges.as_slice(), &mut printed)?;
    Ok(printed)
}

/// The text of these pairs of nets, with what the gauges of pairs print at its end, in bytes of which there are none yet. They are
/// told the rows first, as above.
fn text_of_pairs(
    mut printed: Vec<u8>,
    tables: &PairTables,
    gauges: &mut Vec<Box<dyn PairGauge>>,
) -> Result<Vec<u8>, NoMemory>
    requires { printed.items ≡ [] }
    ensures printed { IfOk result (λ printed.
        printed.items ≡ whole_pair_text (pair_rows tables.now) (views_of pairs_seen pairs_text gauges.old.items)) }
    ensures told { OnOk result (AreTold (pair_rows tables.now)
        (views_of pairs_seen pairs_text gauges.old.items) (views_of pairs_seen pairs_text gauges.new.items)) }
    ensures prefixes { OnErr result (AreToldPrefixes (pair_rows tables.now)
        (views_of pairs_seen pairs_text gauges.old.items) (views_of pairs_seen pairs_text gauges.new.items)) }
{
    write_pairs(tables, gauges, &mut printed)?;
    Ok(printed)
}

/// The text of what is near a cell on these metals. No gauge is told of it.
fn text_of_probe(alloc: Global, metals: &[MetalNear]) -> Result<Vec<u8>, NoMemory>
    ensures { IfOk result (λ printed. printed.items ≡ probe_text metals.now) }
{
    let mut printed = Vec::new(alloc);
    write_probe(metals, &mut printed)?;
    Ok(printed)
}

/// The bytes of the region file of these cells. No gauge is told of it.
fn bytes_of_region(alloc: Global, region: &CriticalRegion) -> Result<Vec<u8>, NoMemory>
    ensures { IfOk result (λ printed. printed.items ≡ (region_due region.now).text) }
{
    let library = region_library(alloc, region.rects.as_slice(), region.units)?;
    write_library(alloc, &library)
}

/// The text that is due where this was found. The gauges are told its rows first, of which a probe and a region have none. Where
/// memory runs out, each may have been told the first few of the rows alone, or none.
fn text_for(
    alloc: Global,
    found: &Found,
    gauges: &mut Vec<Box<dyn Gauge>>,
    pair_gauges: &mut Vec<Box<dyn PairGauge>>,
) -> Result<Vec<u8>, NoMemory>
    ensures printed { IfOk result (λ printed. printed.items ≡ (due_to
        (known_gauges seen text pairs_seen pairs_text
        (change gauges.old.items gauges.new.items) (change pair_gauges.old.items pair_gauges.new.items)) found.now).text) }
    ensures told { OnOk result (AreToldAll (due_to
        (known_gauges seen text pairs_seen pairs_text
        (change gauges.old.items gauges.new.items) (change pair_gauges.old.items pair_gauges.new.items)) found.now)
        (known_gauges seen text pairs_seen pairs_text
        (change gauges.old.items gauges.new.items) (change pair_gauges.old.items pair_gauges.new.items))) }
    ensures some { OnErr result (AreToldSome (due_to
        (known_gauges seen text pairs_seen pairs_text
        (change gauges.old.items gauges.new.items) (change pair_gauges.old.items pair_gauges.new.items)) found.now)
        (known_gauges seen text pairs_seen pairs_text
        (change gauges.old.items gauges.new.items) (change pair_gauges.old.items pair_gauges.new.items))) }
{
    match found {
        Found::Report(report) => text_of_report(alloc, report.rows.as_slice(), gauges),
        Found::Pairs(tables) => text_of_pairs(Vec::new(alloc), tables, pair_gauges),
        Found::Probe(metals) => text_of_probe(alloc, metals.as_slice()),
        Found::Region(region) => bytes_of_region(alloc, region),
    }
}

/// Prints what is due where this was found, and gives the status.
fn print_found<O: Sink>(
    alloc: Global,
    found: &Found,
    gauges: &mut Vec<Box<dyn Gauge>>,
    pair_gauges: &mut Vec<Box<dyn PairGauge>>,
    out: &mut O,
) -> u8
    ensures { DueEnds (due_to
        (known_gauges seen text pairs_seen pairs_text
        (change gauges.old.items gauges.new.items) (change pair_gauges.old.items pair_gauges.new.items)) found.now)
        (known_gauges seen text pairs_seen pairs_text
        (change gauges.old.items gauges.new.items) (change pair_gauges.old.items pair_gauges.new.items))
        (record {
          taken = change (O.written out.old) (O.written out.new);
          sure = O.sure out.old;
          failures = change (O.faults out.old) (O.faults out.new);
        }) result }
{
    let Ok(printed) = text_for(alloc, found, gauges, pair_gauges) else {
        return NO_MEMORY;
    };
    match write_all(out, printed.as_slice()) {
        Ok(()) => REPORTED,
        Err(Failed) => FAILED,
    }
}

/// Prints what is due where something was found, or the line of the refusal, and gives the status. The gauges are told the rows,
/// if there are any, before the first byte goes out.
pub fn print<O: Sink, E: Sink>(
    alloc: Global,
    found: Result<Found, Unreported>,
    gauges: &mut Vec<Box<dyn Gauge>>,
    pair_gauges: &mut Vec<Box<dyn PairGauge>>,
    out: &mut O,
    err: &mut E,
) -> u8
    ensures { IsPrinted found
        (known_gauges seen text pairs_seen pairs_text
        (change gauges.old.items gauges.new.items) (change pair_gauges.old.items pair_gauges.new.items))
        (record {
          taken = change (O.written out.old) (O.written out.new);
          sure = O.sure out.old;
          failures = change (O.faults out.old) (O.faults out.new);
        })
        (record {
          taken = change (E.written err.old) (E.written err.new);
          sure = E.sure err.old;
          failures = change (E.faults err.old) (E.faults err.new);
        }) result }
{
    match found {
        Ok(found) => print_found(alloc, &found, gauges, pair_gauges, out),
        Err(Unreported::Refused(refusal)) => print_refusal(alloc, refusal, err),
        Err(Unreported::FilesFailed) => FAILED,
        Err(Unreported::Memory) => NO_MEMORY,
    }
}
