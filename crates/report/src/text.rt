ghost use Rattle.std.specs.Prelude.{◌≡◌, ◌≤◌, length, OnOk, OnErr, string_bytes};
ghost use Rattle.std.specs.List.{flat_map};
ghost use Rattle.report.specs.Gains.{Gains, GainsPrefix};
ghost use Rattle.report.specs.Report.{letter_of, line_text, totals_text, report_text};

use super::totals::{product, sum_of_all, sum_of_kind};
use lists::NoMemory;
use map_model::Measure;
use questions::{Kind, MOST_ROWS, Row};
use std::alloc::Global;

/// Appends the report of the rows to `into`: a line for each row in their order, such as
/// `short m r=3 area=32 weight=1 sum=32`, and then `total short`, `total open`, `total via` and `total`, each with the
/// products of its rows added up. All is ASCII, numbers are decimal, and each line ends with a newline. Where memory
/// runs out, `into` has gained the first part of this text, perhaps none of it.
pub fn write_report(alloc: Global, rows: &[Row], into: &mut Vec<u8>) -> Result<(), NoMemory>
    requires few { length rows.now ≤ MOST_ROWS }
    ensures written { OnOk result (Gains into.old.items into.new.items (report_text rows.now)) }
    ensures prefix { OnErr result (GainsPrefix into.old.items into.new.items (report_text rows.now)) }
{
    let mut text = String::new(alloc);
    write_lines(&mut text, rows)?;
    write_totals(&mut text, rows)?;
    into.extend_from_slice(text.as_bytes())?;
    Ok(())
}

/// Appends the line of each row.
fn write_lines(text: &mut String, rows: &[Row]) -> Result<(), NoMemory>
    ensures { OnOk result
        (Gains (string_bytes text.old) (string_bytes text.new) (flat_map line_text rows.now)) }
{
    for row in rows {
        write_line(text, row)?;
    }
    Ok(())
}

/// Appends the line of a row.
fn write_line(text: &mut String, row: &Row) -> Result<(), NoMemory>
    ensures { OnOk result (Gains (string_bytes text.old) (string_bytes text.new) (line_text row.now)) }
{
    let layer = row.layer.as_str();
    let letter = letter(row.measure);
    let size = row.size;
    let sum = product(row);
    writeln!(
        text,
        "{} {layer} {letter}={size} area={} weight={} sum={sum}",
        row.kind, row.area, row.weight
    )?;
    Ok(())
}

/// The letter that stands before a size: `r` before a radius, and `s` before a side.
pub fn letter(measure: Measure) -> &'static str
    ensures { result.now ≡ letter_of measure }
{
    match measure {
        Measure::Radius => "r",
        Measure::Side => "s",
    }
}

/// Appends the totals of each kind and of all.
fn write_totals(text: &mut String, rows: &[Row]) -> Result<(), NoMemory>
    requires { length rows.now ≤ MOST_ROWS }
    ensures { OnOk result (Gains (string_bytes text.old) (string_bytes text.new) (totals_text rows.now)) }
{
    let short = sum_of_kind(rows, Kind::Short);
    let open = sum_of_kind(rows, Kind::Open);
    let via = sum_of_kind(rows, Kind::Via);
    let all = sum_of_all(rows);
    writeln!(
        text,
        "total short {short}\ntotal open {open}\ntotal via {via}\ntotal {all}"
    )?;
    Ok(())
}
