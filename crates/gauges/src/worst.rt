ghost use Rattle.std.specs.Prelude.{◌≡◌, [], IfOk, string_bytes};
ghost use Rattle.gauges.specs.WorstText.{worst_line, worst_text};

use super::pair_gauge::PairGauge;
use super::pair_row::PairRow;
use super::pair_rows::PairRows;
use lists::NoMemory;
use report::letter;
use std::alloc::Global;
use std::marker::Model;

/// Tells the first row with the greatest area: `worst m1 0 4 r=5 area=1280` and a newline, or `worst none` and a newline
/// where it has seen no rows. Contracts see it as the list of the rows that it has seen.
#[derive(Drop)]
pub struct Worst {
    rows: PairRows,
}

impl Model for Worst {
    ghost use Rattle.std.specs.Prelude.{List};
    ghost use Rattle.gauges.specs.declared.pair_row.PairRow.{PairRow};

    ghost Value = { List PairRow };

    ghost view = { λ gauge. gauge.rows };
}

impl Worst {
    /// A gauge that has seen nothing. It takes no memory.
    pub fn new(alloc: Global) -> Worst
        ensures { result ≡ [] }
    {
        Worst {
            rows: PairRows::new(alloc),
        }
    }
}

impl PairGauge for Worst {
    ghost pairs_seen = { λ gauge. gauge };

    ghost pairs_text = { λ _. worst_text };

    fn note(&mut self, row: &PairRow) -> Result<(), NoMemory> {
        self.rows.push(row)
    }

    fn line(&self, into: &mut Vec<u8>) -> Result<(), NoMemory> {
        let text = text_of(*into.allocator(), &self.rows)?;
        into.extend_from_slice(text.as_bytes())?;
        Ok(())
    }
}

/// The text for these rows.
fn text_of(alloc: Global, rows: &PairRows) -> Result<String, NoMemory>
    ensures { IfOk result (λ text. string_bytes text ≡ worst_text rows.now) }
{
    match rows.worst() {
        Some(row) => line_of(alloc, &row),
        None => Ok(String::from_str(alloc, "worst none\n")?),
    }
}

/// The line of a worst row.
fn line_of(alloc: Global, row: &PairRow) -> Result<String, NoMemory>
    ensures { IfOk result (λ text. string_bytes text ≡ worst_line row.now) }
{
    let layer = row.layer.as_str();
    let first = row.first;
    let second = row.second;
    let letter = letter(row.measure);
    let size = row.size;
    let area = row.area;
    let mut text = String::new(alloc);
    writeln!(
        text,
        "worst {layer} {first} {second} {letter}={size} area={area}"
    )?;
    Ok(text)
}
