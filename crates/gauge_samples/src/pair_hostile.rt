ghost use Rattle.std.specs.Prelude.{[], OnOk, codes, length, string_bytes};
ghost use Rattle.report.specs.Gains.{Gains};
ghost use Rattle.gauge_samples.specs.HostileTexts.{room_line};
ghost use Rattle.gauge_samples.specs.PairTexts.{area_line, areas_text};

use super::hostile::room_text;
use gauges::{PairGauge, PairRow};
use lists::NoMemory;
use std::alloc::Global;
use std::sync::Arc;
use std::sync::atomic::{AtomicU64, Ordering};

/// Refuses each row once it has seen as many as it has room for, and tells how many it has seen.
#[derive(Drop)]
pub struct TightPairs {
    rows: Vec<PairRow>,
    room: usize,
}

impl TightPairs {
    /// A gauge with room for so many rows, which has seen nothing.
    pub fn new(alloc: Global, room: usize) -> TightPairs {
        TightPairs {
            rows: Vec::new(alloc),
            room,
        }
    }
}

impl PairGauge for TightPairs {
    ghost pairs_seen = { λ gauge. gauge.rows.items };

    ghost pairs_text = { λ gauge rows. room_line (length rows) gauge.room };

    fn note(&mut self, row: &PairRow) -> Result<(), NoMemory> {
        if self.rows.len() >= self.room {
            return Err(NoMemory);
        }
        self.rows.push(*row)?;
        Ok(())
    }

    fn line(&self, into: &mut Vec<u8>) -> Result<(), NoMemory> {
        let text = room_text(*into.allocator(), self.rows.len(), self.room)?;
        into.extend_from_slice(text.as_bytes())?;
        Ok(())
    }
}

/// Prints the area of each row that it has seen, such as `saw 120` and a newline.
#[derive(Drop)]
pub struct PairAreas {
    rows: Vec<PairRow>,
}

impl PairAreas {
    /// A gauge that has seen nothing.
    pub fn new(alloc: Global) -> PairAreas {
        PairAreas {
            rows: Vec::new(alloc),
        }
    }
}

impl PairGauge for PairAreas {
    ghost pairs_seen = { λ gauge. gauge.rows.items };

    ghost pairs_text = { λ _. areas_text };

    fn note(&mut self, row: &PairRow) -> Result<(), NoMemory> {
        self.rows.push(*row)?;
        Ok(())
    }

    fn line(&self, into: &mut Vec<u8>) -> Result<(), NoMemory> {
        let mut text = String::new(*into.allocator());
        write_areas(self.rows.as_slice(), &mut text)?;
        into.extend_from_slice(text.as_bytes())?;
        Ok(())
    }
}

/// Appends the area of each row.
fn write_areas(rows: &[PairRow], text: &mut String) -> Result<(), NoMemory>
    ensures { OnOk result (Gains (string_bytes text.old) (string_bytes text.new) (areas_text rows.now)) }
{
    for row in rows {
        write_area(row, text)?;
    }
    Ok(())
}

/// Appends the area of a row.
fn write_area(row: &PairRow, text: &mut String) -> Result<(), NoMemory>
    ensures { OnOk result (Gains (string_bytes text.old) (string_bytes text.new) (area_line row.now)) }
{
    let area = row.area;
    writeln!(text, "saw {area}")?;
    Ok(())
}

/// Has a text, `mute` and a newline, and refuses after its first two letters.
#[derive(Drop)]
pub struct MutePairs {
    rows: Vec<PairRow>,
}

impl MutePairs {
    /// A gauge that has seen nothing.
    pub fn new(alloc: Global) -> MutePairs {
        MutePairs {
            rows: Vec::new(alloc),
        }
    }
}

impl PairGauge for MutePairs {
    ghost pairs_seen = { λ gauge. gauge.rows.items };

    ghost pairs_text = { λ _ _. codes "mute\n" };

    fn note(&mut self, row: &PairRow) -> Result<(), NoMemory> {
        self.rows.push(*row)?;
        Ok(())
    }

    fn line(&self, into: &mut Vec<u8>) -> Result<(), NoMemory> {
        into.extend_from_slice(b"mu")?;
        Err(NoMemory)
    }
}

/// Prints nothing, and adds one to a count that it shares with others when it is dropped.
pub struct CountedPairs {
    rows: Vec<PairRow>,
    drops: Arc<AtomicU64>,
}

impl CountedPairs {
    /// A gauge that has seen nothing and shares this count.
    pub fn new(alloc: Global, drops: Arc<AtomicU64>) -> CountedPairs {
        CountedPairs {
            rows: Vec::new(alloc),
            drops,
        }
    }
}

impl Drop for CountedPairs {
    fn drop(self) {
        self.drops.fetch_add(1, Ordering::SeqCst);
        let CountedPairs { rows: _, drops: _ } = self;
    }
}

impl PairGauge for CountedPairs {
    ghost pairs_seen = { λ gauge. gauge.rows.items };

    ghost pairs_text = { λ _ _. [] };

    fn note(&mut self, row: &PairRow) -> Result<(), NoMemory> {
        self.rows.push(*row)?;
        Ok(())
    }

    fn line(&self, _into: &mut Vec<u8>) -> Result<(), NoMemory> {
        Ok(())
    }
}
