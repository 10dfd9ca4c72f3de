ghost use Rattle.std.specs.Prelude.{◌≡◌, ◌+◌, ◌≤◌, ◌++◌, IfOk, length};
ghost use Rattle.skyline_runs.specs.Runs.{AreApart, HaveSameCells};

use super::joins::joined;
use geo_core::Rect;
use lists::NoMemory;
use std::alloc::Global;
use std::marker::Model;

/// A list is not joined again before it has so many rectangles.
const FEW: usize = 1024;

/// A list of rectangles that grows, and is joined whenever it has become twice as long. So it stays below twice what it is
/// joined to, and some 1,000 rectangles, and what is added at once. Which of them become one, and their order, is left open.
/// Contracts see the list.
#[derive(Drop)]
pub struct Gathered {
    rects: Vec<Rect>,
    /// Where there are so many they are joined.
    most: usize,
}

impl Model for Gathered {
    ghost use Rattle.std.specs.Prelude.{List};
    ghost use Rattle.geo_core.specs.declared.plane.Rect.{Rect};

    ghost Value = { List Rect };

    ghost view = { λ gathered. gathered.rects.items };
}

impl Gathered {
    /// None so far.
    pub fn new(alloc: Global) -> Gathered
        ensures { length result ≡ 0 }
    {
        Gathered {
            rects: Vec::new(alloc),
            most: FEW,
        }
    }

    /// The cells of the list and of some more rectangles. Where no two of all of them have a common cell, no two of these have
    /// one. The only error is that no memory is left.
    pub fn with(self, alloc: Global, more: &[Rect]) -> Result<Gathered, NoMemory>
        ensures same { IfOk result (λ grown. HaveSameCells (self ++ more.now) grown) }
        ensures apart { IfOk result (λ grown. AreApart (self ++ more.now) → AreApart grown) }
        ensures fewer { IfOk result (λ grown. length grown ≤ length self + length more.now) }
    {
        let Gathered { mut rects, most } = self;
        rects.extend_from_slice(more)?;
        if rects.len() < most {
            return Ok(Gathered { rects, most });
        }
        let rects = joined(alloc, rects)?;
        let most = rects.len().saturating_mul(2).max(FEW);
        Ok(Gathered { rects, most })
    }

    /// How many rectangles there are so far.
    pub fn len(&self) -> usize
        ensures { result ≡ length self.now }
    {
        self.rects.len()
    }

    /// All of them, joined. The only error is that no memory is left.
    pub fn finish(self, alloc: Global) -> Result<Vec<Rect>, NoMemory>
        ensures same { IfOk result (λ all. HaveSameCells self all.items) }
        ensures apart { AreApart self → IfOk result (λ all. AreApart all.items) }
        ensures fewer { IfOk result (λ all. length all.items ≤ length self) }
    {
        joined(alloc, self.rects)
    }
}
