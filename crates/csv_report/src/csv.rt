ghost use Rattle.std.specs.Prelude.{◌≡◌, [], IfOk, OnOk, string_bytes};
ghost use Rattle.std.specs.List.{flat_map};
ghost use Rattle.report.specs.Gains.{Gains};
ghost use Rattle.csv_report.specs.CsvText.{csv_line, csv_text};

use gauges::Gauge;
use lists::NoMemory;
use report::{Row, letter};
use std::alloc::Global;

/// A gauge of one's own: it prints the rows once more, as CSV with the names of the columns at its head. It has to keep the
/// rows that it has seen, to say what it prints of any list of rows (`text`), and to print just that (`line`).
#[derive(Drop)]
pub struct Csv {
    rows: Vec<Row>,
}

impl Csv {
    /// A gauge that has seen nothing. It takes no memory.
    pub fn new(alloc: Global) -> Csv
        ensures { result.rows.items ≡ [] }
    {
        Csv {
            rows: Vec::new(alloc),
        }
    }
}

impl Gauge for Csv {
    ghost seen = { λ gauge. gauge.rows.items };

    ghost text = { λ _. csv_text };

    fn note(&mut self, row: &Row) -> Result<(), NoMemory> {
        self.rows.push(*row)?;
        Ok(())
    }

    fn line(&self, into: &mut Vec<u8>) -> Result<(), NoMemory> {
        let text = text_of(*into.allocator(), self.rows.as_slice())?;
        into.extend_from_slice(text.as_bytes())?;
        Ok(())
    }
}

/// The text of these rows.
fn text_of(alloc: Global, rows: &[Row]) -> Result<String, NoMemory>
    ensures { IfOk result (λ text. string_bytes text ≡ csv_text rows.now) }
{
    let mut text = String::from_str(alloc, "kind,layer,measure,size,area,weight\n")?;
    write_lines(&mut text, rows)?;
    Ok(text)
}

/// Appends the line of each row.
fn write_lines(text: &mut String, rows: &[Row]) -> Result<(), NoMemory>
    ensures { OnOk result (Gains (string_bytes text.old) (string_bytes text.new) (flat_map csv_line rows.now)) }
{
    for row in rows {
        write_line(text, row)?;
    }
    Ok(())
}

/// Appends the line of a row. A layer's name has letters, digits and `_` alone, so nothing needs quotes.
fn write_line(text: &mut String, row: &Row) -> Result<(), NoMemory>
    ensures { OnOk result (Gains (string_bytes text.old) (string_bytes text.new) (csv_line row.now)) }
{
    let layer = row.layer.as_str();
    let letter = letter(row.measure);
    let size = row.size;
    writeln!(
        text,
        "{},{layer},{letter},{size},{},{}",
        row.kind, row.area, row.weight
    )?;
    Ok(())
}
