ghost use Rattle.std.specs.Prelude.{IfOk};
ghost use Rattle.net_pairs.specs.inside.RowChanges.{CoverAlike};

use super::changes::stretches_of;
use super::corners::{Corner, corners_of};
use super::weighted::Weighted;
use geo_core::{Labelled, Rect};
use lists::NoMemory;
use std::alloc::Global;
use std::collections::BTreeMap;

/// What runs cover in the window, as few and wide rectangles, the *slabs*: each is an unbroken stretch of the columns that its label
/// covers in a row, over the rows in which this stays as it is.
///
/// Slabs are proposed, and are taken only where each label's corners are those of the runs. Where they were not, the runs themselves
/// would serve.
pub fn slabs_of(alloc: Global, runs: &[Labelled], window: Rect) -> Result<Vec<Labelled>, NoMemory>
    ensures { IfOk result (λ slabs. CoverAlike window runs.now slabs.items) }
{
    let corners = corners_of(alloc, runs, window)?;
    let slabs = proposed_slabs(alloc, corners.as_slice(), window)?;
    if corners_of(alloc, slabs.as_slice(), window)? == corners {
        return Ok(slabs);
    }
    Ok(Vec::from_slice(alloc, runs)?)
}

/// Slabs with these corners, as far as they can be told.
fn proposed_slabs(
    alloc: Global,
    corners: &[Corner],
    window: Rect,
) -> Result<Vec<Labelled>, NoMemory> {
    let changes = stretches_of(alloc, corners, window)?;
    let mut slabs = Slabs::new(alloc, window);
    for change in &changes {
        slabs.add(*change)?;
    }
    slabs.finish()
}

/// Columns that a label covers without a gap, in all rows from the one where it began.
#[derive(Clone, Copy)]
struct Stretch {
    /// The column behind the last one.
    end: i32,
    /// The row where it began.
    since: i32,
}

/// Slabs that are found as changes are taken in, label by label and row by row.
#[derive(Drop)]
struct Slabs {
    window: Rect,
    /// What is covered up to the row that is looked at, by its label and first column.
    stretches: BTreeMap<(usize, i32), Stretch>,
    finished: Vec<Labelled>,
}

impl Slabs {
    /// Nothing is covered.
    fn new(alloc: Global, window: Rect) -> Slabs {
        Slabs {
            window,
            stretches: BTreeMap::new(alloc),
            finished: Vec::new(alloc),
        }
    }

    /// Takes in a change. Runs of one label have no cell in common, so a label gains or loses a cell once.
    fn add(&mut self, change: Weighted) -> Result<(), NoMemory> {
        if change.weight == 1 {
            self.gain(change.label, change.rect)
        } else {
            self.lose(change.label, change.rect)
        }
    }

    /// The columns of the rectangle are covered from its row on, in one stretch with those beside them.
    fn gain(&mut self, label: usize, rect: Rect) -> Result<(), NoMemory> {
        let mut first = rect.x0;
        let mut end = rect.x1;
        if let Some((column, left)) = self.last_to(label, first)
            && left.end == first
        {
            self.end(label, column, left, rect.y0)?;
            first = column;
        }
        if let Some(right) = self.stretches.get(&(label, end)).copied() {
            self.end(label, end, right, rect.y0)?;
            end = right.end;
        }
        self.begin(label, first, end, rect.y0)
    }

    /// The columns of the rectangle are covered no longer, but what their stretch has beside them is.
    fn lose(&mut self, label: usize, rect: Rect) -> Result<(), NoMemory> {
        let Some((column, stretch)) = self.last_to(label, rect.x0) else {
            return Ok(());
        };
        self.end(label, column, stretch, rect.y0)?;
        self.begin(label, column, rect.x0, rect.y0)?;
        self.begin(label, rect.x1, stretch.end, rect.y0)
    }

    /// The stretch of this label that begins in this column, or before it and nearest to it.
    fn last_to(&self, label: usize, column: i32) -> Option<(i32, Stretch)> {
        let (key, stretch) = self.stretches.range(..=(label, column)).next_back()?;
        if key.0 != label {
            return None;
        }
        Some((key.1, *stretch))
    }

    /// A stretch begins in the row, where it has any columns.
    fn begin(&mut self, label: usize, first: i32, end: i32, row: i32) -> Result<(), NoMemory> {
        if first < end {
            self.stretches
                .insert((label, first), Stretch { end, since: row })?;
        }
        Ok(())
    }

    /// A stretch ends below the row, and is a slab.
    fn end(
        &mut self,
        label: usize,
        first: i32,
        stretch: Stretch,
        row: i32,
    ) -> Result<(), NoMemory> {
        self.stretches.remove(&(label, first));
        push_slab(
            &mut self.finished,
            self.window,
            (label, first),
            stretch,
            row,
        )
    }

    /// All slabs: what is covered in the uppermost row of the window ends there.
    fn finish(self) -> Result<Vec<Labelled>, NoMemory> {
        let Slabs {
            window,
            mut stretches,
            mut finished,
        } = self;
        while let Some((begin, stretch)) = stretches.pop_first() {
            push_slab(&mut finished, window, begin, stretch, window.y1)?;
        }
        Ok(finished)
    }
}

/// Adds the slab of a stretch with this label and first column that ends below the row, where it has any rows.
fn push_slab(
    slabs: &mut Vec<Labelled>,
    window: Rect,
    begin: (usize, i32),
    stretch: Stretch,
    row: i32,
) -> Result<(), NoMemory> {
    let (label, first) = begin;
    if let Some(rect) = rect_within(window, first, stretch.since, stretch.end, row) {
        slabs.push(Labelled { rect, label })?;
    }
    Ok(())
}

/// The rectangle with these sides, where it has cells and lies in the window.
fn rect_within(window: Rect, x0: i32, y0: i32, x1: i32, y1: i32) -> Option<Rect> {
    if x1 <= x0 || x0 < window.x0 || window.x1 < x1 {
        return None;
    }
    if y1 <= y0 || y0 < window.y0 || window.y1 < y1 {
        return None;
    }
    Some(Rect::new(x0, y0, x1, y1))
}
