ghost use Rattle.std.specs.Prelude.{◌<◌, ◌≤◌, ◌+◌, ◌*◌, ◌≡◌, IfOk, IsTrue, flat_map};
ghost use Rattle.cover_tree.specs.CoverTrees.{columns_of, count_of};
ghost use Rattle.cover_tree.specs.TreeNodes.{TreeNode, IsNodeOf, is_in_cut};
ghost use Rattle.depth_sweep.specs.inside.Events.{AreEventsOf, IsAfter, MayHappen, begin_of, end_of, ends_of};

use super::bar::{Bar, Event};
use cover_tree::CoverTree;
use geo_core::Steps;
use lists::NoMemory;
use std::alloc::{AllocError, Global};
use std::sync::ledger::Ledger;

impl Event {
    /// Puts the columns of a bar that begins, and takes those of one that ends.
    pub fn apply<L: Ledger>(self, tree: &mut CoverTree, steps: &mut Steps<L>)
        requires within { self.high ≤ columns_of tree.old }
        requires may { (node : TreeNode) → IsNodeOf tree.old.height node →
            IsTrue (is_in_cut tree.old.height self.low self.high node) → MayHappen self.begins (count_of tree.old node) }
        ensures changed { IsAfter self tree.old tree.new }
        ensures some_steps { steps.old < steps.new }
        ensures few_steps { steps.new ≤ steps.old + 16 * (tree.old.height + 1) }
    {
        if self.begins {
            tree.put(self.low, self.high, steps);
        } else {
            tree.take(self.low, self.high, steps);
        }
    }
}

impl Bar {
    /// Where the bar begins.
    fn begin(self) -> Event
        ensures { result ≡ begin_of self }
    {
        Event {
            row: self.bottom,
            begins: true,
            low: self.low,
            high: self.high,
        }
    }

    /// Where it ends.
    fn end(self) -> Event
        ensures { result ≡ end_of self }
    {
        Event {
            row: self.top,
            begins: false,
            low: self.low,
            high: self.high,
        }
    }
}

/// The events of the bars, bar by bar.
fn all_ends(alloc: Global, bars: &[Bar]) -> Result<Vec<Event>, AllocError>
    ensures { IfOk result (λ events. events.items ≡ flat_map ends_of bars.now) }
{
    let mut events = Vec::new(alloc);
    for bar in bars {
        events.push(bar.begin())?;
        events.push(bar.end())?;
    }
    Ok(events)
}

/// The events of the bars, from the lowest row to the highest. Those in one row stand in any order: what is taken there
/// was put in a lower row.
pub fn events(alloc: Global, bars: &[Bar]) -> Result<Vec<Event>, NoMemory>
    ensures { IfOk result (λ events. AreEventsOf bars.now events.items) }
{
    let mut events = all_ends(alloc, bars)?;
    events.sort_unstable_by_key(|event| event.row);
    Ok(events)
}
