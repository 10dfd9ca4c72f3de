ghost use Rattle.std.specs.Prelude.{◌≡◌, [], IfOk, string_bytes, count_by};
ghost use Rattle.gauges.specs.NonzeroText.{has_area, nonzero_text};

use super::gauge::Gauge;
use lists::NoMemory;
use questions::Row;
use std::alloc::Global;
use std::marker::Model;

/// Tells how many rows have an area other than 0, and how many rows there are: `nonzero 6 of 10` and a newline. Contracts
/// see it as the list of the rows that it has seen.
#[derive(Drop)]
pub struct Nonzero {
    rows: Vec<Row>,
}

impl Model for Nonzero {
    ghost use Rattle.std.specs.Prelude.{List};
    ghost use Rattle.questions.specs.declared.row.Row.{Row};

    ghost Value = { List Row };

    ghost view = { λ gauge. gauge.rows.items };
}

impl Nonzero {
    /// A gauge that has seen nothing. It takes no memory.
    pub fn new(alloc: Global) -> Nonzero
        ensures { result ≡ [] }
    {
        Nonzero {
            rows: Vec::new(alloc),
        }
    }
}

impl Gauge for Nonzero {
    ghost seen = { λ gauge. gauge };

    ghost text = { λ _. nonzero_text };

    fn note(&mut self, row: &Row) -> Result<(), NoMemory> {
        self.rows.push(*row)?;
        Ok(())
    }

    fn line(&self, into: &mut Vec<u8>) -> Result<(), NoMemory> {
        let text = text_of(*into.allocator(), self.rows.as_slice())?;
        into.extend_from_slice(text.as_bytes())?;
        Ok(())
    }
}

/// The text for these rows.
fn text_of(alloc: Global, rows: &[Row]) -> Result<String, NoMemory>
    ensures { IfOk result (λ text. string_bytes text ≡ nonzero_text rows.now) }
{
    let with_area = count_with_area(rows);
    let all = rows.len();
    let mut text = String::new(alloc);
    writeln!(text, "nonzero {with_area} of {all}")?;
    Ok(text)
}

/// How many of the rows have an area.
fn count_with_area(rows: &[Row]) -> usize
    ensures { result ≡ count_by has_area rows.now }
{
    rows.iter().filter(|row| row.area > 0).count()
}
