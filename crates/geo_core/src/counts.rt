ghost use Rattle.std.specs.Prelude.{◌≡◌, ◌+◌, ◌<◌, ℕ, List, Some, IfOk, length, slice_get, slice_set};
ghost use Rattle.geo_core.specs.NodeLists.{zeros};
ghost use Rattle.geo_core.specs.declared.counts.Node.{Node};

use lists::NoMemory;
use std::alloc::Global;
use std::marker::Model;
use std::sync::ledger::{Blank, Book, Ledger, Share};

/// How many steps were taken: calls of `get` and `set` of a `CountRow`. It takes no room, and no time at run time.
/// Contracts see it as the number.
#[derive(Drop)]
pub struct Steps<L: Ledger> {
    book: Book<L>,
    share: Share<L>,
}

impl<L: Ledger> Model for Steps<L> {
    ghost use Rattle.std.specs.Prelude.{ℕ, ◌<◌};

    ghost Value = { ℕ };

    ghost view = { λ s. s.book.total };

    ghost invariant = { λ s. 0 < s.share.parts };
}

impl<L: Ledger> Steps<L> {
    /// No step so far, in a new ledger.
    pub fn start(blank: Blank) -> Steps<L>
        requires name { blank.name ≡ L.name }
        requires parts { blank.parts ≡ L.parts }
        requires some { 0 < blank.parts }
        ensures { result ≡ 0 }
    {
        let (book, share) = blank.open::<L>();
        Steps { book, share }
    }

    /// Counts one step.
    fn tick(&mut self)
        ensures { self.new ≡ self.old + 1 }
    {
        self.book.add(&mut self.share, 1);
    }
}

/// What a node of a counting tree keeps: a count, and the widths of those of its columns that lie under at least one
/// and under at least two, in database units.
#[derive(Clone, Copy, PartialEq, Eq)]
pub struct Node {
    pub count: usize,
    pub once: i64,
    pub twice: i64,
}

/// A row of nodes by number. Contracts see it as the list of its nodes. Each look at a node and each change of one is a
/// step.
#[derive(Drop)]
pub struct CountRow {
    nodes: Vec<Node>,
}

impl Model for CountRow {
    ghost use Rattle.std.specs.Prelude.{List};
    ghost use Rattle.geo_core.specs.declared.counts.Node.{Node};

    ghost Value = { List Node };

    ghost view = { λ row. row.nodes.items };
}

impl CountRow {
    /// A row of `n` nodes of zeros. The one error is that no memory is left.
    pub fn new(alloc: Global, n: usize) -> Result<CountRow, NoMemory>
        ensures { IfOk result (λ row. row ≡ zeros n) }
    {
        let zero = Node {
            count: 0,
            once: 0,
            twice: 0,
        };
        let nodes = vec![in alloc; zero; n]?;
        Ok(CountRow { nodes })
    }

    /// The node number `k`, counted from 0. It is one step.
    pub fn get<L: Ledger>(&self, k: usize, steps: &mut Steps<L>) -> Node
        requires { k < length self.now }
        ensures node { slice_get self.now k ≡ Some result }
        ensures step { steps.new ≡ steps.old + 1 }
    {
        steps.tick();
        self.nodes[k]
    }

    /// Writes the node number `k`, counted from 0, and leaves the others. It is one step.
    pub fn set<L: Ledger>(&mut self, k: usize, node: Node, steps: &mut Steps<L>)
        requires { k < length self.old }
        ensures node { self.new ≡ slice_set self.old k node }
        ensures step { steps.new ≡ steps.old + 1 }
    {
        steps.tick();
        self.nodes[k] = node;
    }
}
