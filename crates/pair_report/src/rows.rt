ghost use Rattle.std.specs.Prelude.{◌≡◌, ◌∷◌, [], OnErr, OnOk, length, string_bytes};
ghost use Rattle.report.specs.Gains.{Gains};
ghost use Rattle.gauges.specs.GaugeViews.{AreToldPrefixes, views_of};
ghost use Rattle.pair_report.specs.PairRows.{pair_row, pair_rows, rows_of_metal};
ghost use Rattle.pair_report.specs.PairReport.{pair_line};
ghost use Rattle.pair_report.specs.inside.Reporting.{AreReported};

use super::tables::{MetalPairs, PairTables};
use gauges::{PairGauge, PairRow, tell_pair_row};
use lists::NoMemory;
use map_model::Measure;
use report::letter;

/// How many rows there are, on all metals.
pub fn count_rows(tables: &PairTables) -> u128
    ensures { result ≡ length (pair_rows tables.now) }
{
    let mut count = 0u128;
    for metal in tables.metals.as_slice() {
        count += metal.pairs.as_slice().len() as u128;
    }
    count
}

/// Tells the gauges each row of each metal and appends its line, and stops where a gauge refuses.
pub fn write_rows(
    tables: &PairTables,
    gauges: &mut Vec<Box<dyn PairGauge>>,
    into: &mut Vec<u8>,
) -> Result<(), NoMemory>
    ensures reported { OnOk result (AreReported (pair_rows tables.now)
        (views_of pairs_seen pairs_text gauges.old.items) (views_of pairs_seen pairs_text gauges.new.items)
        into.old.items into.new.items) }
    ensures prefixes { OnErr result (AreToldPrefixes (pair_rows tables.now)
        (views_of pairs_seen pairs_text gauges.old.items) (views_of pairs_seen pairs_text gauges.new.items)) }
{
    for metal in tables.metals.as_slice() {
        write_metal(tables.measure, tables.size, metal, gauges, into)?;
    }
    Ok(())
}

/// The same of one metal. Each line is made in one and the same text, so that none is allocated for each.
fn write_metal(
    measure: Measure,
    size: u32,
    metal: &MetalPairs,
    gauges: &mut Vec<Box<dyn PairGauge>>,
    into: &mut Vec<u8>,
) -> Result<(), NoMemory>
    ensures reported { OnOk result (AreReported (rows_of_metal measure size metal.now.layer metal.now.pairs)
        (views_of pairs_seen pairs_text gauges.old.items) (views_of pairs_seen pairs_text gauges.new.items)
        into.old.items into.new.items) }
    ensures prefixes { OnErr result (AreToldPrefixes (rows_of_metal measure size metal.now.layer metal.now.pairs)
        (views_of pairs_seen pairs_text gauges.old.items) (views_of pairs_seen pairs_text gauges.new.items)) }
{
    let mut line = String::new(*into.allocator());
    for pair in metal.pairs.as_slice() {
        let row = row_of(measure, size, metal, pair);
        write_row(&row, gauges, &mut line, into)?;
    }
    Ok(())
}

/// The row of a pair of nets of a metal.
fn row_of(measure: Measure, size: u32, metal: &MetalPairs, pair: &(usize, usize, u64)) -> PairRow
    ensures { result ≡ pair_row measure size metal.now.layer pair.now }
{
    PairRow {
        layer: metal.layer,
        first: pair.0,
        second: pair.1,
        measure,
        size,
        area: pair.2,
    }
}

/// Tells the gauges a row and appends its line, which is made in the empty text `line`.
fn write_row(
    row: &PairRow,
    gauges: &mut Vec<Box<dyn PairGauge>>,
    line: &mut String,
    into: &mut Vec<u8>,
) -> Result<(), NoMemory>
    requires { string_bytes line.old ≡ [] }
    ensures cleared { OnOk result (string_bytes line.new ≡ []) }
    ensures reported { OnOk result (AreReported (row.now ∷ [])
        (views_of pairs_seen pairs_text gauges.old.items) (views_of pairs_seen pairs_text gauges.new.items)
        into.old.items into.new.items) }
    ensures prefixes { OnErr result (AreToldPrefixes (row.now ∷ [])
        (views_of pairs_seen pairs_text gauges.old.items) (views_of pairs_seen pairs_text gauges.new.items)) }
{
    tell_pair_row(gauges, row)?;
    append_line(row, line, into)?;
    Ok(())
}

/// Appends the line of a row, which is made in the empty text `line`.
fn append_line(row: &PairRow, line: &mut String, into: &mut Vec<u8>) -> Result<(), NoMemory>
    requires { string_bytes line.old ≡ [] }
    ensures cleared { OnOk result (string_bytes line.new ≡ []) }
    ensures written { OnOk result (Gains into.old.items into.new.items (pair_line row.now)) }
{
    let layer = row.layer.as_str();
    let first = row.first;
    let second = row.second;
    let letter = letter(row.measure);
    let size = row.size;
    let area = row.area;
    writeln!(
        line,
        "pair {layer} {first} {second} {letter}={size} area={area}"
    )?;
    into.extend_from_slice(line.as_bytes())?;
    line.clear();
    Ok(())
}
