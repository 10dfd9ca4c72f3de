ghost use Rattle.std.specs.Prelude.{◌≡◌, ◌+◌, ◌*◌, ◌<◌, ◌≤◌, pos, length, IfOk, IsTrue};
ghost use Rattle.cover_tree.specs.Columns.{AreRising};
ghost use Rattle.cover_tree.specs.TreeNodes.{TreeNode, IsNodeOf, is_in_cut, times_in_cut};
ghost use Rattle.cover_tree.specs.CoverTrees.{columns_of, count_of, width_of_depth, IsNew, IsPut, IsTaken, KeepsColumns};
ghost use Rattle.cover_tree.specs.TreeParts.{MayChange, IsChangedBy};

use super::below::{Edit, below};
use super::columns::Columns;
use super::parts::{Change, Part, Widths};
use geo_core::{CountRow, Steps};
use lists::NoMemory;
use std::alloc::Global;
use std::marker::Model;
use std::sync::ledger::Ledger;

/// Columns between places, of which ranges are put and taken again. Contracts see the places, the height of the tree and
/// the counts of its nodes. Places and widths are in database units.
#[derive(Drop)]
pub struct CoverTree {
    columns: Columns,
    row: CountRow,
    widths: Widths,
}

impl Model for CoverTree {
    ghost use Rattle.cover_tree.specs.CoverTrees.{Cover};
    ghost use Rattle.cover_tree.specs.TreeRows.{cover_of, IsTreeRow};

    ghost Value = { Cover };

    ghost view = { λ tree. cover_of tree.columns.places.items tree.columns.height tree.row };

    ghost invariant = { λ tree. IsTreeRow tree.columns.places.items tree.columns.height tree.row tree.widths };
}

impl CoverTree {
    /// A tree over the columns between these places, column `k` from `places[k]` to `places[k + 1]`, with no range put.
    /// The one error is that no memory is left.
    pub fn new(alloc: Global, places: &[i32]) -> Result<CoverTree, NoMemory>
        requires some { 2 ≤ length places.now }
        requires rising { AreRising places.now }
        ensures { IfOk result (IsNew places.now) }
    {
        let columns = Columns::new(alloc, places)?;
        let row = CountRow::new(alloc, 2 << columns.height)?;
        let widths = Widths { once: 0, twice: 0 };
        Ok(CoverTree {
            columns,
            row,
            widths,
        })
    }

    /// Puts the columns from `low` to before `high`. A step is a look at a node or a change of one.
    pub fn put<L: Ledger>(&mut self, low: usize, high: usize, steps: &mut Steps<L>)
        requires some { low < high }
        requires within { high ≤ columns_of self.old }
        requires room { (node : TreeNode) → IsNodeOf self.old.height node → IsTrue (is_in_cut self.old.height low high node) →
            count_of self.old node < usize.MAX }
        ensures put { IsPut low high self.old self.new }
        ensures steps { steps.new ≤ steps.old + 16 * (self.old.height + 1) }
        ensures some_steps { steps.old < steps.new }
    {
        self.change(
            Edit {
                low,
                high,
                change: Change::Put,
            },
            steps,
        );
    }

    /// Takes the columns from `low` to before `high` again, which were put. A step is a look at a node or a change of one.
    pub fn take<L: Ledger>(&mut self, low: usize, high: usize, steps: &mut Steps<L>)
        requires some { low < high }
        requires within { high ≤ columns_of self.old }
        requires was_put { (node : TreeNode) → IsNodeOf self.old.height node → IsTrue (is_in_cut self.old.height low high node) →
            1 ≤ count_of self.old node }
        ensures taken { IsTaken low high self.old self.new }
        ensures steps { steps.new ≤ steps.old + 16 * (self.old.height + 1) }
        ensures some_steps { steps.old < steps.new }
    {
        self.change(
            Edit {
                low,
                high,
                change: Change::Take,
            },
            steps,
        );
    }

    /// The total width of the columns of depth at least 1: those in at least one of the ranges put and not yet taken.
    pub fn once(&self) -> i64
        ensures { result ≡ pos (width_of_depth 1 self.now) }
    {
        self.widths.once
    }

    /// The total width of the columns of depth at least 2: those in at least two of the ranges put and not yet taken.
    pub fn twice(&self) -> i64
        ensures { result ≡ pos (width_of_depth 2 self.now) }
    {
        self.widths.twice
    }

    /// Puts or takes a range.
    fn change<L: Ledger>(&mut self, edit: Edit, steps: &mut Steps<L>)
        requires { (node : TreeNode) → IsNodeOf self.old.height node →
            MayChange edit.change (times_in_cut self.old.height edit.low edit.high node) (count_of self.old node) }
        ensures keeps { KeepsColumns self.old self.new }
        ensures counts { (node : TreeNode) → IsNodeOf self.old.height node →
            IsChangedBy edit.change (times_in_cut self.old.height edit.low edit.high node) (count_of self.old node) (count_of self.new node) }
        ensures steps { steps.new ≤ steps.old + 16 * (self.old.height + 1) }
        ensures some_steps { steps.old < steps.new }
    {
        let root = Part {
            number: 1,
            level: self.columns.height,
            from: 0,
            size: 1 << self.columns.height,
        };
        let widths = below(&mut self.row, &self.columns, root, edit, steps);
        self.widths = widths;
    }
}
