ghost use Rattle.std.specs.Prelude.{◌≡◌, ◌≤◌, ◌↔◌, ◌==◌, [], All, Contains, IfOk, IfSome, IsNone, find, map, string_bytes};
ghost use Rattle.gauges.specs.PeakText.{peak_of, peak_line, peak_text};
ghost use Rattle.report.specs.Report.{product_of};

use super::gauge::Gauge;
use lists::NoMemory;
use questions::Row;
use report::{letter, product};
use std::alloc::Global;
use std::marker::Model;

/// Tells the first row with the greatest product of area and weight: `peak short m1 r=5 sum=72788` and a newline, or
/// `peak none` and a newline where it has seen no rows. Contracts see it as the list of the rows that it has seen.
#[derive(Drop)]
pub struct Peak {
    rows: Vec<Row>,
}

impl Model for Peak {
    ghost use Rattle.std.specs.Prelude.{List};
    ghost use Rattle.questions.specs.declared.row.Row.{Row};

    ghost Value = { List Row };

    ghost view = { λ gauge. gauge.rows.items };
}

impl Peak {
    /// A gauge that has seen nothing. It takes no memory.
    pub fn new(alloc: Global) -> Peak
        ensures { result ≡ [] }
    {
        Peak {
            rows: Vec::new(alloc),
        }
    }
}

impl Gauge for Peak {
    ghost seen = { λ gauge. gauge };

    ghost text = { λ _. peak_text };

    fn note(&mut self, row: &Row) -> Result<(), NoMemory> {
        self.rows.push(*row)?;
        Ok(())
    }

    fn line(&self, into: &mut Vec<u8>) -> Result<(), NoMemory> {
        let text = text_of(*into.allocator(), self.rows.as_slice())?;
        into.extend_from_slice(text.as_bytes())?;
        Ok(())
    }
}

/// The text for these rows.
fn text_of(alloc: Global, rows: &[Row]) -> Result<String, NoMemory>
    ensures { IfOk result (λ text. string_bytes text ≡ peak_text rows.now) }
{
    match peak_row(rows) {
        Some(row) => line_of(alloc, &row),
        None => Ok(String::from_str(alloc, "peak none\n")?),
    }
}

/// The line of a peak.
fn line_of(alloc: Global, row: &Row) -> Result<String, NoMemory>
    ensures { IfOk result (λ text. string_bytes text ≡ peak_line row.now) }
{
    let layer = row.layer.as_str();
    let letter = letter(row.measure);
    let size = row.size;
    let sum = product(row);
    let mut text = String::new(alloc);
    writeln!(text, "peak {} {layer} {letter}={size} sum={sum}", row.kind)?;
    Ok(text)
}

/// The first row with the greatest product.
fn peak_row(rows: &[Row]) -> Option<Row>
    ensures { result ≡ peak_of rows.now }
{
    let greatest = greatest_product(rows)?;
    first_with_product(rows, greatest)
}

/// The greatest product.
fn greatest_product(rows: &[Row]) -> Option<u128>
    ensures none { IsNone result ↔ (rows.now ≡ []) }
    ensures reached { IfSome result (Contains (map product_of rows.now)) }
    ensures bound { IfSome result (λ greatest. All (λ row. product_of row ≤ greatest) rows.now) }
{
    rows.iter().map(|row| product(row)).max()
}

/// The first row with this product.
fn first_with_product(rows: &[Row], wanted: u128) -> Option<Row>
    ensures { result ≡ find (λ row. product_of row == wanted) rows.now }
{
    rows.iter().copied().find(|row| product(row) == wanted)
}
