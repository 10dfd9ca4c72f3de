ghost use Rattle.std.specs.Prelude.{[]};

use gauges::Gauge;
use lists::NoMemory;
use report::Row;
use std::alloc::Global;
use std::sync::Arc;
use std::sync::atomic::{AtomicU64, Ordering};

/// Prints nothing, and adds one to a count that it shares with others when it is dropped.
pub struct Counted {
    rows: Vec<Row>,
    drops: Arc<AtomicU64>,
}

impl Counted {
    /// A gauge that has seen nothing and shares this count.
    pub fn new(alloc: Global, drops: Arc<AtomicU64>) -> Counted {
        Counted {
            rows: Vec::new(alloc),
            drops,
        }
    }
}

impl Drop for Counted {
    fn drop(self) {
        self.drops.fetch_add(1, Ordering::SeqCst);
        let Counted { rows: _, drops: _ } = self;
    }
}

impl Gauge for Counted {
    ghost seen = { λ gauge. gauge.rows.items };

    ghost text = { λ _ _. [] };

    fn note(&mut self, row: &Row) -> Result<(), NoMemory> {
        self.rows.push(*row)?;
        Ok(())
    }

    fn line(&self, _into: &mut Vec<u8>) -> Result<(), NoMemory> {
        Ok(())
    }
}
