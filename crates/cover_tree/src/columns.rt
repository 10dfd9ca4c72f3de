ghost use Rattle.std.specs.Prelude.{◌≡◌, ◌+◌, ◌-◌, ◌^◌, ◌<◌, ◌≤◌, ◌≤ℤ◌, ◌<ℤ◌, pos, negsuc, length, IfOk};
ghost use Rattle.cover_tree.specs.Columns.{AreRising, place_at, width_of, total};
ghost use Rattle.cover_tree.specs.TreeNodes.{IsLeastHeight};

use lists::NoMemory;
use std::alloc::Global;

/// The places between which the columns of a tree lie, and its height.
#[derive(Drop)]
pub struct Columns {
    pub places: Vec<i32>,
    pub height: u32,
    ghost some: { 2 ≤ length places.items },
    ghost rising: { AreRising places.items },
    ghost tall: { IsLeastHeight (length places.items - 1) height },
    ghost room: { height < 62 },
}

/// The height of the least tree with so many columns.
fn height_for(columns: usize) -> u32
    requires { columns ≤ 2 ^ 61 }
    ensures least { IsLeastHeight columns result }
    ensures room { result < 62 }
{
    let mut height = 0;
    let mut leaves: usize = 1;
    while leaves < columns {
        leaves *= 2;
        height += 1;
    }
    height
}

impl Columns {
    /// The columns between these places.
    pub fn new(alloc: Global, places: &[i32]) -> Result<Columns, NoMemory>
        requires some { 2 ≤ length places.now }
        requires rising { AreRising places.now }
        ensures { IfOk result (λ columns. columns.places.items ≡ places.now) }
    {
        let height = height_for(places.len() - 1);
        let places = places.to_vec(alloc)?;
        Ok(Columns { places, height })
    }

    /// The place with this number, or the last place where the number is past it.
    fn place_at(&self, k: usize) -> i64
        ensures place { result ≡ place_at self.now.places.items k }
        ensures low { negsuc (2 ^ 31 - 1) ≤ℤ result }
        ensures high { result <ℤ pos (2 ^ 31) }
    {
        let last = self.places.len() - 1;
        i64::from(self.places[k.min(last)])
    }

    /// How wide so many columns are, from this one on.
    pub fn width(&self, from: usize, size: usize) -> i64
        requires { from + size < 2 ^ 63 }
        ensures width { result ≡ pos (total (width_of self.now.places.items) from size) }
        ensures small { total (width_of self.now.places.items) from size < 2 ^ 33 }
    {
        self.place_at(from + size) - self.place_at(from)
    }
}
