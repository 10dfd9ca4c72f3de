ghost use Rattle.std.specs.Prelude.{◌≡◌, [], IfOk, codes, string_bytes};
ghost use Rattle.gauge_samples.specs.HostileTexts.{room_line, room_text};

use gauges::Gauge;
use lists::NoMemory;
use report::Row;
use std::alloc::Global;

/// Refuses each row once it has seen as many as it has room for.
#[derive(Drop)]
pub struct Tight {
    rows: Vec<Row>,
    room: usize,
}

impl Tight {
    /// A gauge with room for so many rows, which has seen nothing.
    pub fn new(alloc: Global, room: usize) -> Tight {
        Tight {
            rows: Vec::new(alloc),
            room,
        }
    }
}

impl Gauge for Tight {
    ghost seen = { λ gauge. gauge.rows.items };

    ghost text = { λ gauge. room_text gauge.room };

    fn note(&mut self, row: &Row) -> Result<(), NoMemory> {
        if self.rows.len() >= self.room {
            return Err(NoMemory);
        }
        self.rows.push(*row)?;
        Ok(())
    }

    fn line(&self, into: &mut Vec<u8>) -> Result<(), NoMemory> {
        let text = room_text(*into.allocator(), self.rows.len(), self.room)?;
        into.extend_from_slice(text.as_bytes())?;
        Ok(())
    }
}

/// The text of a gauge with so much room that has seen so many rows.
pub fn room_text(alloc: Global, seen: usize, room: usize) -> Result<String, NoMemory>
    ensures { IfOk result (λ text. string_bytes text ≡ room_line seen room) }
{
    let mut text = String::new(alloc);
    writeln!(text, "seen {seen} of {room}")?;
    Ok(text)
}

/// Prints nothing, whatever it has seen.
#[derive(Drop)]
pub struct Silent {
    rows: Vec<Row>,
}

impl Silent {
    /// A gauge that has seen nothing.
    pub fn new(alloc: Global) -> Silent {
        Silent {
            rows: Vec::new(alloc),
        }
    }
}

impl Gauge for Silent {
    ghost seen = { λ gauge. gauge.rows.items };

    ghost text = { λ _ _. [] };

    fn note(&mut self, row: &Row) -> Result<(), NoMemory> {
        self.rows.push(*row)?;
        Ok(())
    }

    fn line(&self, _into: &mut Vec<u8>) -> Result<(), NoMemory> {
        Ok(())
    }
}

/// Has a text, `mute` and a newline, and refuses after its first two letters.
#[derive(Drop)]
pub struct Mute {
    rows: Vec<Row>,
}

impl Mute {
    /// A gauge that has seen nothing.
    pub fn new(alloc: Global) -> Mute {
        Mute {
            rows: Vec::new(alloc),
        }
    }
}

impl Gauge for Mute {
    ghost seen = { λ gauge. gauge.rows.items };

    ghost text = { λ _ _. codes "mute\n" };

    fn note(&mut self, row: &Row) -> Result<(), NoMemory> {
        self.rows.push(*row)?;
        Ok(())
    }

    fn line(&self, into: &mut Vec<u8>) -> Result<(), NoMemory> {
        into.extend_from_slice(b"mu")?;
        Err(NoMemory)
    }
}
