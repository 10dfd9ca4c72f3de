ghost use Rattle.std.specs.Prelude.{pos, filter, length, All, Contains, IfOk, ◌+ℤ◌, ◌≡◌, ◌<◌, ◌≤◌};
ghost use Rattle.touch_sweep.specs.inside.Strips.{begins_in, crosses, meets_partly};
ghost use Rattle.geo_core.specs.Intervals.{IsIn};
ghost use Rattle.touch_sweep.specs.inside.Splits.{AreOrdered, AreParted};

use super::numbered::Numbered;
use geo_core::{FARTHEST_GROWN, Rect};
use std::alloc::{AllocError, Global};

/// The columns from `low` to before `high`, with columns in rising order at which they may be split. Where splits lie
/// changes what is saved and not what is found.
#[derive(Clone, Copy)]
pub struct Strip<'a> {
    pub low: i32,
    pub high: i32,
    pub splits: &'a [i32],
}

impl<'a> Strip<'a> {
    /// The columns in which the entries begin, and those between.
    pub fn around(entries: &[Numbered], splits: &'a [i32]) -> Strip<'a>
        ensures within { All (λ e. IsIn result.low result.high e.rect.x0) entries.now }
        ensures splits { result.splits.now ≡ splits.now }
    {
        let mut low = FARTHEST_GROWN;
        let mut high = -FARTHEST_GROWN;
        for entry in entries {
            low = low.min(entry.rect.x0);
            high = high.max(entry.rect.x0 + 1);
        }
        Strip { low, high, splits }
    }

    /// The columns before the middle one of the splits, and the others.
    pub fn halves(self) -> (Strip<'a>, Strip<'a>)
        requires { 2 ≤ length self.splits.now }
        ensures begins { result.0.low ≡ self.entry.low }
        ensures meets { result.0.high ≡ result.1.low }
        ensures ends { result.1.high ≡ self.entry.high }
        ensures left { length result.0.splits.now < length self.entry.splits.now }
        ensures right { length result.1.splits.now < length self.entry.splits.now }
        ensures parted { AreParted self.entry.low self.entry.high self.entry.splits.now
            result.0.high result.0.splits.now result.1.splits.now }
    {
        let (before, after) = self.splits.split_at(self.splits.len() / 2);
        let middle = after[0].max(self.low).min(self.high);
        let left = Strip {
            low: self.low,
            high: middle,
            splits: before,
        };
        let right = Strip {
            low: middle,
            high: self.high,
            splits: after,
        };
        (left, right)
    }

    /// The one column in which the entry begins.
    pub fn column_of(entry: Numbered) -> Strip<'static>
        ensures begins { result.low ≡ entry.rect.x0 }
        ensures ends { result.high ≡ entry.rect.x0 +ℤ pos 1 }
    {
        Strip {
            low: entry.rect.x0,
            high: entry.rect.x0 + 1,
            splits: &[],
        }
    }

    /// Whether the entry begins in one of the columns.
    fn has_begin_of(self, entry: &Numbered) -> bool
        ensures { result ≡ begins_in self.entry.low self.entry.high entry.now }
    {
        self.low <= entry.rect.x0 && entry.rect.x0 < self.high
    }

    /// Whether the entry begins in the first of the columns or before, and reaches past the last one.
    fn is_crossed_by(self, entry: &Numbered) -> bool
        ensures { result ≡ crosses self.entry.low self.entry.high entry.now }
    {
        entry.rect.x0 <= self.low && self.high <= entry.rect.x1
    }

    /// Whether the entry lies in one of the columns or beside it, but does not reach over all of them.
    fn is_partly_met_by(self, entry: &Numbered) -> bool
        ensures { result ≡ meets_partly self.entry.low self.entry.high entry.now }
    {
        !self.is_crossed_by(entry) && entry.rect.x0 < self.high && self.low <= entry.rect.x1
    }

    /// Those of the entries that begin in these columns, in their order.
    pub fn beginning(self, alloc: Global, entries: &[Numbered]) -> Result<Vec<Numbered>, AllocError>
        ensures { IfOk result (λ found.
            found.items ≡ filter (begins_in self.entry.low self.entry.high) entries.now) }
    {
        let mut found = Vec::new(alloc);
        for entry in entries {
            if self.has_begin_of(entry) {
                found.push(*entry)?;
            }
        }
        Ok(found)
    }

    /// Those of the entries that reach over all of these columns, and those that meet some only, in their order.
    pub fn met(self, alloc: Global, entries: &[Numbered]) -> Result<Met, AllocError>
        ensures across { IfOk result (λ met.
            met.across.items ≡ filter (crosses self.entry.low self.entry.high) entries.now) }
        ensures partly { IfOk result (λ met.
            met.partly.items ≡ filter (meets_partly self.entry.low self.entry.high) entries.now) }
    {
        let mut across = Vec::new(alloc);
        let mut partly = Vec::new(alloc);
        for entry in entries {
            if self.is_crossed_by(entry) {
                across.push(*entry)?;
            } else if self.is_partly_met_by(entry) {
                partly.push(*entry)?;
            }
        }
        Ok(Met { across, partly })
    }
}

/// Entries that reach over all columns of a strip, and entries that meet some of them only.
#[derive(Drop)]
pub struct Met {
    pub across: Vec<Numbered>,
    pub partly: Vec<Numbered>,
}

/// The columns in which rectangles begin, in rising order.
pub fn beginnings(alloc: Global, rects: &[Rect]) -> Result<Vec<i32>, AllocError>
    ensures ordered { IfOk result (λ columns. AreOrdered columns.items) }
    ensures all { IfOk result (λ columns. All (λ rect. Contains columns.items rect.x0) rects.now) }
    ensures few { IfOk result (λ columns. length columns.items ≤ length rects.now) }
{
    let mut columns = Vec::with_capacity(alloc, rects.len())?;
    for rect in rects {
        columns.push(rect.x0)?;
    }
    columns.sort_unstable();
    columns.dedup();
    Ok(columns)
}
