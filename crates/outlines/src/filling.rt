ghost use Rattle.std.specs.Prelude.{ℤ, ℕ, neg_ℤ, ◌≡◌, ◌<◌, ◌≤ℤ◌, ◌<ℤ◌, OnOk, IfOk, All, AllPairs, length, []};
ghost use Rattle.geo_core.specs.declared.bounds.TheConstants.{FARTHEST};
ghost use Rattle.outlines.specs.inside.FillingRuns.{Finishes};

use super::run::Run;
use geo_core::{Interval, Rect};
use std::alloc::{AllocError, Global};

/// Rectangles of what is inside: finished ones, and runs of columns that grow up the rows. The runs stand from left to
/// right, and no two of them touch. Those on the right of where something changed last stand the other way round, the
/// first of them at the end: so a change costs how far it lies from the last one, and not how many runs there are.
#[derive(Drop)]
pub struct Filling {
    pub done: Vec<Rect>,
    pub left: Vec<Run>,
    pub right: Vec<Run>,
}

impl Filling {
    ghost use Rattle.geo_core.specs.Intervals.{IsInterval};
    ghost use Rattle.outlines.specs.inside.FillingRuns.{AddsRun, DropsRun, EndsLeft, EndsRight, HasRoom, IsFree, IsGrowingTo, IsParted, IsTaken, MovesRuns, PutsRun, TakesRun, runs_of};

    /// No rectangles.
    pub fn new(alloc: Global) -> Filling
        ensures growing { runs_of result ≡ [] }
        ensures done { result.done.items ≡ [] }
    {
        Filling {
            done: Vec::new(alloc),
            left: Vec::new(alloc),
            right: Vec::new(alloc),
        }
    }

    /// From the row on these columns are inside, none of which was. They are joined to the runs that end or begin where
    /// they do.
    pub fn fill(&mut self, columns: Interval, row: i32) -> Result<(), AllocError>
        requires bottom { neg_ℤ FARTHEST ≤ℤ row }
        requires top { row ≤ℤ FARTHEST }
        requires columns { IsInterval FARTHEST columns.low columns.high }
        requires free { IsFree columns.low columns.high (runs_of self.old) }
        requires growing { IsGrowingTo row self.old }
        ensures { OnOk result (AddsRun columns.low columns.high row self.old self.new) }
    {
        self.part(columns.low)?;
        let low = self.end_left(columns.low, row)?;
        let high = self.end_right(columns.high, row)?;
        self.put_left(low, high, row)
    }

    /// From the row on these columns are no longer inside, all of which were. What is left of their run goes on by itself.
    pub fn clear(&mut self, columns: Interval, row: i32) -> Result<(), AllocError>
        requires bottom { neg_ℤ FARTHEST ≤ℤ row }
        requires top { row ≤ℤ FARTHEST }
        requires columns { IsInterval FARTHEST columns.low columns.high }
        requires taken { IsTaken columns.low columns.high (runs_of self.old) }
        requires growing { IsGrowingTo row self.old }
        ensures { OnOk result (DropsRun columns.low columns.high row self.old self.new) }
    {
        self.part(columns.low + 1)?;
        let run = self.take(row)?;
        self.put_right(columns.high, run.high, row)?;
        self.put_left(run.low, columns.low, row)
    }

    /// The finished rectangles.
    pub fn finish(self) -> Vec<Rect>
        ensures { result.items ≡ self.done.items }
    {
        let Filling {
            done,
            left: _,
            right: _,
        } = self;
        done
    }

    /// Moves the runs so that those which end before the column stand on the left, and the others on the right.
    fn part(&mut self, column: i32) -> Result<(), AllocError>
        requires { AllPairs (λ a b. a.high <ℤ b.low) (runs_of self.old) }
        ensures moved { OnOk result (MovesRuns self.old self.new) }
        ensures parted { OnOk result (IsParted column self.new) }
    {
        self.go_left(column)?;
        self.go_right(column)
    }

    /// Moves those runs to the right that reach the column.
    fn go_left(&mut self, column: i32) -> Result<(), AllocError>
        requires { AllPairs (λ a b. a.high <ℤ b.low) (runs_of self.old) }
        ensures moved { OnOk result (MovesRuns self.old self.new) }
        ensures left { OnOk result (All (λ run. run.high <ℤ column) self.new.left.items) }
    {
        while let Some(run) = self.left.pop() {
            if run.high < column {
                self.left.push(run)?;
                return Ok(());
            }
            self.right.push(run)?;
        }
        Ok(())
    }

    /// Moves those runs to the left that end before the column.
    fn go_right(&mut self, column: i32) -> Result<(), AllocError>
        requires apart { AllPairs (λ a b. a.high <ℤ b.low) (runs_of self.old) }
        requires left { All (λ run. run.high <ℤ column) self.old.left.items }
        ensures moved { OnOk result (MovesRuns self.old self.new) }
        ensures parted { OnOk result (IsParted column self.new) }
    {
        while let Some(run) = self.right.pop() {
            if column <= run.high {
                self.right.push(run)?;
                return Ok(());
            }
            self.left.push(run)?;
        }
        Ok(())
    }

    /// Ends the first run on the right where it ends at the column, and gives where it began; else the column.
    fn end_left(&mut self, column: i32, row: i32) -> Result<i32, AllocError>
        requires top { row ≤ℤ FARTHEST }
        requires growing { IsGrowingTo row self.old }
        ensures ended { IfOk result (λ low. EndsLeft (length self.old.left.items) column low row self.old self.new) }
        ensures left { OnOk result (self.new.left.items ≡ self.old.left.items) }
    {
        let Some(run) = self.right.pop() else {
            return Ok(column);
        };
        if run.high != column {
            self.right.push(run)?;
            return Ok(column);
        }
        finish_run(&mut self.done, run, row)?;
        Ok(run.low)
    }

    /// Ends the first run on the right where it begins at the column, and gives where it ended; else the column.
    fn end_right(&mut self, column: i32, row: i32) -> Result<i32, AllocError>
        requires top { row ≤ℤ FARTHEST }
        requires growing { IsGrowingTo row self.old }
        ensures ended { IfOk result (λ high. EndsRight (length self.old.left.items) column high row self.old self.new) }
        ensures left { OnOk result (self.new.left.items ≡ self.old.left.items) }
    {
        let Some(run) = self.right.pop() else {
            return Ok(column);
        };
        if run.low != column {
            self.right.push(run)?;
            return Ok(column);
        }
        finish_run(&mut self.done, run, row)?;
        Ok(run.high)
    }

    /// Takes out the first run on the right, of which the part below the row is a rectangle.
    fn take(&mut self, row: i32) -> Result<Run, AllocError>
        requires some { 0 < length self.old.right.items }
        requires top { row ≤ℤ FARTHEST }
        ensures taken { IfOk result (λ run. TakesRun (length self.old.left.items) run row self.old self.new) }
        ensures left { OnOk result (self.new.left.items ≡ self.old.left.items) }
    {
        let run = self.right.pop().unwrap();
        finish_run(&mut self.done, run, row)?;
        Ok(run)
    }

    /// Puts in a run on the left that begins in the row, of the columns from `low` to before `high`, if there are any.
    fn put_left(&mut self, low: i32, high: i32, row: i32) -> Result<(), AllocError>
        requires left { neg_ℤ FARTHEST ≤ℤ low }
        requires right { high ≤ℤ FARTHEST }
        requires bottom { neg_ℤ FARTHEST ≤ℤ row }
        requires top { row ≤ℤ FARTHEST }
        requires room { HasRoom (length self.old.left.items) low high (runs_of self.old) }
        requires growing { IsGrowingTo row self.old }
        ensures { OnOk result (PutsRun (length self.old.left.items) low high row self.old self.new) }
    {
        if low >= high {
            return Ok(());
        }
        self.left.push(Run {
            low,
            high,
            from: row,
        })?;
        Ok(())
    }

    /// The same on the right.
    fn put_right(&mut self, low: i32, high: i32, row: i32) -> Result<(), AllocError>
        requires left { neg_ℤ FARTHEST ≤ℤ low }
        requires right { high ≤ℤ FARTHEST }
        requires bottom { neg_ℤ FARTHEST ≤ℤ row }
        requires top { row ≤ℤ FARTHEST }
        requires room { HasRoom (length self.old.left.items) low high (runs_of self.old) }
        requires growing { IsGrowingTo row self.old }
        ensures put { OnOk result (PutsRun (length self.old.left.items) low high row self.old self.new) }
        ensures left { OnOk result (self.new.left.items ≡ self.old.left.items) }
    {
        if low >= high {
            return Ok(());
        }
        self.right.push(Run {
            low,
            high,
            from: row,
        })?;
        Ok(())
    }
}

/// Adds the rectangle of what the run has below the row, if it has anything there.
fn finish_run(done: &mut Vec<Rect>, run: Run, row: i32) -> Result<(), AllocError>
    requires { row ≤ℤ FARTHEST }
    ensures { OnOk result (Finishes run row done.old.items done.new.items) }
{
    if run.from >= row {
        return Ok(());
    }
    done.push(Rect {
        x0: run.low,
        y0: run.from,
        x1: run.high,
        y1: row,
    })?;
    Ok(())
}
