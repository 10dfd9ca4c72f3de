ghost use Rattle.std.specs.Prelude.{ℤ, List, length, All, Contains, IfOk, IfSome, IfNone, OnOk, ◌+◌, ◌*◌, ◌<◌, ◌≤◌, ◌≤ℤ◌, ◌<ℤ◌, ◌≡◌, ◌↔◌, ◌⊎◌};
ghost use Rattle.skyline_runs.specs.inside.Skylines.{GainsCommon};

use geo_core::{Rect, clip};
use lists::NoMemory;
use std::alloc::Global;
use std::collections::BTreeMap;

/// What rectangles cover that are added in the order of their lowest rows, as rectangles without common cells. Of these
/// some are active, at most one over each column: what is added next may have cells in common with these alone.
#[derive(Drop)]
pub struct Skyline {
    /// By their leftmost columns.
    active: BTreeMap<i32, Rect>,
    /// Finished ones.
    runs: Vec<Rect>,
}

impl Skyline {
    ghost use Rattle.geo_core.specs.Cells.{Has};
    ghost use Rattle.geo_core.specs.Intervals.{IsIn};
    ghost use Rattle.geo_core.specs.Unions.{IsInUnion};
    ghost use Rattle.geo_core.specs.declared.plane.Cell.{Cell};
    ghost use Rattle.geo_core.specs.declared.plane.Rect.{Rect};
    ghost use Rattle.skyline_runs.specs.Runs.{AreApart};
    ghost use Rattle.skyline_runs.specs.inside.Skylines.{HasSides, HaveSides, IsActiveIn, IsActiveOver, IsAddedTo, IsBelow};
    ghost use Rattle.skyline_runs.specs.inside.Skylines.{IsDoneIn, IsNextActive, IsSkyline, IsUnder};
    ghost use Rattle.skyline_runs.specs.inside.Skylines.{Activates, Finishes, FinishesLower, HasRoom, Joins, KeepsRest, TakesOut};

    /// Nothing is covered.
    pub fn new(alloc: Global) -> Skyline
        ensures sound { IsSkyline result }
        ensures below { (row : ℤ) → IsBelow row result }
        ensures none { (c : Cell) → IsUnder result c → ⊥ }
    {
        Skyline {
            active: BTreeMap::new(alloc),
            runs: Vec::new(alloc),
        }
    }

    /// Adds the cells of a rectangle that begins no lower than those before it, and tells how many looks at active
    /// rectangles this took.
    pub fn add(&mut self, rect: Rect) -> Result<usize, NoMemory>
        requires sound { IsSkyline self.old }
        requires below { IsBelow rect.y0 self.old }
        ensures sound { OnOk result (IsSkyline self.new) }
        ensures below { OnOk result (IsBelow rect.y0 self.new) }
        ensures cells { OnOk result ((c : Cell) → IsUnder self.new c ↔ (IsUnder self.old c ⊎ Has rect c)) }
        ensures looks { IfOk result (λ looks. 0 < looks) }
        ensures sides { OnOk result ((xs : List ℤ) → HasSides xs self.old → Contains xs rect.x0 → Contains xs rect.x1 →
            HasSides xs self.new) }
        ensures few { IfOk result (λ looks. (xs : List ℤ) → HasSides xs self.old → Contains xs rect.x0 → Contains xs rect.x1 →
            looks ≤ length xs + 1) }
    {
        let (end, met) = self.add_over(rect)?;
        self.start(rect.x0, end, rect)?;
        Ok(met.saturating_add(1))
    }

    /// Adds what the rectangle has over active ones, from the right to the left, so that what is still to be added has no
    /// active one over its columns. Gives the column up to which it lies, and how many active ones it met. Each of these
    /// begins at another column, and all of them at sides of rectangles that were added.
    fn add_over(&mut self, rect: Rect) -> Result<(i32, usize), NoMemory>
        requires sound { IsSkyline self.old }
        requires below { IsBelow rect.y0 self.old }
        ensures added { IfOk result (λ found. IsAddedTo self.old self.new rect rect.x0 rect.x1 found.0) }
        ensures few { IfOk result (λ found. (xs : List ℤ) → HasSides xs self.old → Contains xs rect.x0 →
            Contains xs rect.x1 → found.1 ≤ length xs) }
    {
        let mut met: usize = 0;
        let mut column = rect.x1;
        let mut end = rect.x1;
        while rect.x0 < column {
            let Some(active) = self.last_before(column) else {
                return Ok((end, met));
            };
            if active.x1 <= rect.x0 {
                return Ok((end, met));
            }
            end = self.meet(active, rect, end)?;
            column = active.x0;
            met = met.saturating_add(1);
        }
        Ok((end, met))
    }

    /// Adds the cells of some rectangles that begin in the lowest row of this one, and tells how many looks at active
    /// rectangles this took.
    pub fn add_all(&mut self, parts: &[Rect], rect: Rect) -> Result<usize, NoMemory>
        requires sound { IsSkyline self.old }
        requires below { IsBelow rect.y0 self.old }
        requires level { All (λ part. part.y0 ≡ rect.y0) parts.now }
        ensures sound { OnOk result (IsSkyline self.new) }
        ensures below { OnOk result (IsBelow rect.y0 self.new) }
        ensures cells { OnOk result ((c : Cell) → IsUnder self.new c ↔ (IsUnder self.old c ⊎ IsInUnion parts.now c)) }
        ensures sides { OnOk result ((xs : List ℤ) → HasSides xs self.old → HaveSides xs parts.now → HasSides xs self.new) }
        ensures few { IfOk result (λ looks. (xs : List ℤ) → HasSides xs self.old → HaveSides xs parts.now →
            looks ≤ length parts.now * (length xs + 1)) }
    {
        let mut looks: usize = 0;
        for part in parts {
            looks = looks.saturating_add(self.add(*part)?);
        }
        Ok(looks)
    }

    /// What a rectangle that begins no lower than those before it has in common with them: rectangles that begin where
    /// it begins. Tells also how many active rectangles were looked at: each part is found at another one of them.
    pub fn common(&self, alloc: Global, rect: Rect) -> Result<(Vec<Rect>, usize), NoMemory>
        requires sound { IsSkyline self.now }
        requires below { IsBelow rect.y0 self.now }
        ensures level { IfOk result (λ found. All (λ part. part.y0 ≡ rect.y0) found.0.items) }
        ensures cells { IfOk result (λ found. (c : Cell) →
            IsInUnion found.0.items c ↔ (IsUnder self.now c × Has rect c)) }
        ensures sides { IfOk result (λ found. (xs : List ℤ) → HasSides xs self.now → Contains xs rect.x0 →
            Contains xs rect.x1 → HaveSides xs found.0.items) }
        ensures few { IfOk result (λ found. (xs : List ℤ) → HasSides xs self.now → length found.0.items ≤ length xs) }
        ensures looks { IfOk result (λ found. (xs : List ℤ) → HasSides xs self.now → found.1 ≤ length xs) }
    {
        let mut parts = Vec::new(alloc);
        let mut met: usize = 0;
        let mut column = rect.x1;
        while rect.x0 < column {
            let Some(active) = self.last_before(column) else {
                return Ok((parts, met));
            };
            push_common(&mut parts, active, rect)?;
            column = active.x0;
            met = met.saturating_add(1);
        }
        Ok((parts, met))
    }

    /// All of the rectangles.
    pub fn finish(self) -> Result<Vec<Rect>, NoMemory>
        requires { IsSkyline self }
        ensures cells { IfOk result (λ runs. (c : Cell) → IsInUnion runs.items c ↔ IsUnder self c) }
        ensures apart { IfOk result (λ runs. AreApart runs.items) }
    {
        let Skyline {
            mut active,
            mut runs,
        } = self;
        while let Some((_, rect)) = active.pop_first() {
            runs.push(rect)?;
        }
        Ok(runs)
    }

    /// The active rectangle that begins before this column and farthest to the right.
    fn last_before(&self, column: i32) -> Option<Rect>
        requires { IsSkyline self.now }
        ensures is_active { IfSome result (λ active. IsActiveIn self.now active) }
        ensures before { IfSome result (λ active. active.x0 <ℤ column) }
        ensures behind { IfSome result (λ active. (x : ℤ) → IsIn active.x1 column x → IsActiveOver self.now x → ⊥) }
        ensures none { IfNone result ((x : ℤ) → x <ℤ column → IsActiveOver self.now x → ⊥) }
    {
        let (_, active) = self.active.range(..column).next_back()?;
        Some(*active)
    }

    /// Adds what the rectangle has over the active one and to its right, up to this column: or at least takes the active
    /// one away, so that all up to this column can be added as one. Gives the column up to which the rectangle is still
    /// to be added.
    fn meet(&mut self, active: Rect, rect: Rect, end: i32) -> Result<i32, NoMemory>
        requires sound { IsSkyline self.old }
        requires below { IsBelow rect.y0 self.old }
        requires next { IsNextActive self.old active rect end }
        requires from { rect.x0 <ℤ end }
        requires up_to { end ≤ℤ rect.x1 }
        ensures { IfOk result (λ next. IsAddedTo self.old self.new rect active.x0 end next) }
    {
        if rect.y1 <= active.y1 {
            self.start(active.x1, end, rect)?;
            return Ok(active.x0.max(rect.x0));
        }
        self.take_out(active);
        self.keep_rest(active, rect, end)?;
        Ok(end)
    }

    /// Of an active rectangle that was taken out, keeps what lies beside and below the columns of the other rectangle up
    /// to this one.
    fn keep_rest(&mut self, active: Rect, rect: Rect, end: i32) -> Result<(), NoMemory>
        requires sound { IsSkyline self.old }
        requires room { HasRoom self.old active.x0 active.x1 active }
        requires begins { active.x0 <ℤ end }
        requires ends { rect.x0 <ℤ active.x1 }
        requires some { rect.x0 <ℤ end }
        requires up_to { end ≤ℤ rect.x1 }
        ensures { OnOk result (KeepsRest self.old self.new active rect end) }
    {
        if active.y1 <= rect.y0 {
            return self.finish_one(active);
        }
        self.keep(active.x0, rect.x0, active)?;
        self.keep(end, active.x1, active)?;
        self.finish_lower(active, rect, end)
    }

    /// Finishes what the one rectangle has below the columns of the other one up to this column.
    fn finish_lower(&mut self, active: Rect, rect: Rect, end: i32) -> Result<(), NoMemory>
        requires sound { IsSkyline self.old }
        requires columns { (x : ℤ) → IsIn active.x0 active.x1 x → IsIn rect.x0 end x → IsActiveOver self.old x → ⊥ }
        requires cells { (run : Rect) (c : Cell) → IsDoneIn self.old run → Has run c → Has active c → ⊥ }
        requires begins { active.x0 <ℤ end }
        requires ends { rect.x0 <ℤ active.x1 }
        requires some { rect.x0 <ℤ end }
        requires up_to { end ≤ℤ rect.x1 }
        requires reaches { rect.y0 <ℤ active.y1 }
        ensures { OnOk result (FinishesLower self.old self.new active rect end) }
    {
        if rect.y0 <= active.y0 {
            return Ok(());
        }
        self.finish_one(Rect::new(
            active.x0.max(rect.x0),
            active.y0,
            active.x1.min(end),
            rect.y0,
        ))
    }

    /// Makes the part of the rectangle in these columns, if there are any, active, and joins it with its neighbours.
    fn start(&mut self, low: i32, high: i32, rect: Rect) -> Result<(), NoMemory>
        requires sound { IsSkyline self.old }
        requires from { rect.x0 ≤ℤ low }
        requires up_to { high ≤ℤ rect.x1 }
        requires room { HasRoom self.old low high rect }
        ensures { OnOk result (Activates self.old self.new low high rect) }
    {
        if low >= high {
            return Ok(());
        }
        let part = Rect::new(low, rect.y0, high, rect.y1);
        let part = self.joined_left(part);
        let part = self.joined_right(part);
        self.activate(part)
    }

    /// Makes the part of the rectangle in these columns, if there are any, active.
    fn keep(&mut self, low: i32, high: i32, rect: Rect) -> Result<(), NoMemory>
        requires sound { IsSkyline self.old }
        requires from { rect.x0 ≤ℤ low }
        requires up_to { high ≤ℤ rect.x1 }
        requires room { HasRoom self.old low high rect }
        ensures { OnOk result (Activates self.old self.new low high rect) }
    {
        if low >= high {
            return Ok(());
        }
        self.activate(Rect::new(low, rect.y0, high, rect.y1))
    }

    /// Takes the active rectangle out that ends where this one begins, if both have the same rows, and gives both as one.
    fn joined_left(&mut self, rect: Rect) -> Rect
        requires sound { IsSkyline self.old }
        requires room { HasRoom self.old rect.x0 rect.x1 rect }
        ensures { Joins self.old self.new rect result }
    {
        match self.last_before(rect.x0) {
            Some(left) if left.x1 == rect.x0 && left.y0 == rect.y0 && left.y1 == rect.y1 => {
                self.take_out(left);
                Rect::new(left.x0, rect.y0, rect.x1, rect.y1)
            }
            _ => rect,
        }
    }

    /// Takes the active rectangle out that begins where this one ends, if both have the same rows, and gives both as one.
    fn joined_right(&mut self, rect: Rect) -> Rect
        requires sound { IsSkyline self.old }
        requires room { HasRoom self.old rect.x0 rect.x1 rect }
        ensures { Joins self.old self.new rect result }
    {
        match self.active.get(&rect.x1).copied() {
            Some(right) if right.y0 == rect.y0 && right.y1 == rect.y1 => {
                self.take_out(right);
                Rect::new(rect.x0, rect.y0, right.x1, rect.y1)
            }
            _ => rect,
        }
    }

    /// Makes the rectangle active.
    fn activate(&mut self, rect: Rect) -> Result<(), NoMemory>
        requires sound { IsSkyline self.old }
        requires room { HasRoom self.old rect.x0 rect.x1 rect }
        ensures { OnOk result (Activates self.old self.new rect.x0 rect.x1 rect) }
    {
        self.active.insert(rect.x0, rect)?;
        Ok(())
    }

    /// Takes an active rectangle out.
    fn take_out(&mut self, rect: Rect)
        requires sound { IsSkyline self.old }
        requires is_active { IsActiveIn self.old rect }
        ensures { TakesOut self.old self.new rect }
    {
        self.active.remove(&rect.x0);
    }

    /// Adds the rectangle to the finished ones.
    fn finish_one(&mut self, rect: Rect) -> Result<(), NoMemory>
        requires sound { IsSkyline self.old }
        requires room { HasRoom self.old rect.x0 rect.x1 rect }
        ensures { OnOk result (Finishes self.old self.new rect) }
    {
        self.runs.push(rect)?;
        Ok(())
    }
}

/// Adds what the two have in common, if anything, to the list.
fn push_common(parts: &mut Vec<Rect>, active: Rect, rect: Rect) -> Result<(), NoMemory>
    requires { active.y0 ≤ℤ rect.y0 }
    ensures { OnOk result (GainsCommon parts.old.items parts.new.items active rect) }
{
    if let Some(part) = clip(active, rect) {
        parts.push(part)?;
    }
    Ok(())
}
