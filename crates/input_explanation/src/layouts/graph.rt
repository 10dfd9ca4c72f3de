//! References between the structures of a library: which lead on without end, how long chains are, and how often each
//! structure is placed.

ghost use Rattle.std.specs.Prelude.{◌<◌, ◌^◌, length};
ghost use Rattle.lists.specs.Differing.{AreDifferent};
ghost use Rattle.library_model.specs.Names.{names_of};

use crate::telling::Telling;
use flatten::copies;
use library_model::{Element, Library, NameIndex, Structure};

/// A reference: the number of the structure that it places, and how often it does.
#[derive(Clone, Copy)]
struct Link {
    target: usize,
    copies: u64,
}

/// A longest chain of references from a structure.
#[derive(Clone, Copy)]
pub struct Chain {
    /// How many references it has.
    pub length: u64,
    /// The structure at its end.
    pub end: usize,
}

/// What is known of a structure.
#[derive(Clone, Copy)]
struct Node {
    /// Its first reference among those of all structures.
    first: usize,
    /// The reference behind its last one.
    end: usize,
    /// Whether its references are followed.
    is_entered: bool,
    /// A longest chain from it, where references do not lead on from it without end.
    chain: Option<Chain>,
}

/// A step on the way through all structures.
#[derive(Clone, Copy)]
enum Step {
    /// Follows the references of this structure, unless they are followed already.
    Enter(usize),
    /// Comes back to this structure, of which all references are followed.
    Leave(usize),
}

/// The structures of a library and their references.
#[derive(Drop)]
pub struct Graph<'a> {
    pub structures: &'a [Structure],
    /// The references of all structures, those of one behind one another.
    links: Vec<Link>,
    /// What is known of each structure.
    nodes: Vec<Node>,
    /// Those that lead to an end, each behind all to which it leads.
    order: Vec<usize>,
}

/// The longer one of a chain and of another with one reference more in front of it, where both are known. Of those that are as
/// long it is the one whose end comes last in the library.
fn longer(one: Option<Chain>, other: Option<Chain>) -> Option<Chain> {
    let (Some(one), Some(Chain { length, end })) = (one, other) else {
        return None;
    };
    let length = length.saturating_add(1);
    if length > one.length || length == one.length && end > one.end {
        return Some(Chain { length, end });
    }
    Some(one)
}

/// Adds to each target of the links as often as it is placed by a structure that is placed so often.
fn add_copies(times: &mut [u64], links: &[Link], of_one: u64) {
    for link in links {
        if let Some(count) = times.get_mut(link.target) {
            *count = count.saturating_add(of_one.saturating_mul(link.copies));
        }
    }
}

/// The graph of a library's structures.
pub fn graph_of<'a>(told: &mut Telling, library: &'a Library) -> Graph<'a>
    requires differ { AreDifferent (names_of library.now.structures) }
    requires few { length library.now.structures < 2 ^ 32 }
{
    let structures = library.structures.as_slice();
    let mut graph = Graph {
        structures,
        links: Vec::new(told.alloc),
        nodes: Vec::new(told.alloc),
        order: Vec::new(told.alloc),
    };
    match library.index(told.alloc) {
        Ok(index) => graph.fill(told, &index),
        Err(_) => told.lose(),
    }
    graph
}

/// The name of the structure with this number.
pub fn name_of(structures: &[Structure], one: usize) -> &[u8] {
    match structures.get(one) {
        Some(structure) => structure.name.as_slice(),
        None => b"",
    }
}

impl Graph<'_> {
    /// Takes up the references of all structures, and follows them.
    fn fill(&mut self, told: &mut Telling, index: &NameIndex<'_>) {
        let structures = self.structures;
        let mut steps = Vec::new(told.alloc);
        for (number, structure) in structures.iter().enumerate() {
            self.add_node(told, index, structure);
            told.keep(&mut steps, Step::Enter(number));
        }
        self.follow(told, &mut steps);
    }

    /// Takes up the references of the next structure.
    fn add_node(&mut self, told: &mut Telling, index: &NameIndex<'_>, structure: &Structure) {
        let first = self.links.len();
        for element in structure.elements.as_slice() {
            if let Element::Reference(reference) = element
                && let Some(target) = index.find(reference.target.as_slice())
            {
                let link = Link {
                    target: target as usize,
                    copies: copies(reference),
                };
                told.keep(&mut self.links, link);
            }
        }
        let node = Node {
            first,
            end: self.links.len(),
            is_entered: false,
            chain: None,
        };
        told.keep(&mut self.nodes, node);
    }

    /// The references of the structure.
    fn links_at(&self, one: usize) -> &[Link] {
        match self.nodes.get(one) {
            Some(node) => self.links.get(node.first..node.end).unwrap_or(&[]),
            None => &[],
        }
    }

    /// A longest chain from the structure, where references do not lead on from it without end.
    pub fn chain_from(&self, one: usize) -> Option<Chain> {
        self.nodes.get(one)?.chain
    }

    /// Follows the references of the structure, unless they are followed already.
    fn enter(&mut self, told: &mut Telling, steps: &mut Vec<Step>, one: usize) {
        match self.nodes.get_mut(one) {
            Some(node) if !node.is_entered => node.is_entered = true,
            _ => return,
        }
        told.keep(steps, Step::Leave(one));
        for link in self.links_at(one) {
            told.keep(steps, Step::Enter(link.target));
        }
    }

    /// Comes back to the structure. A longest chain from it is known where one is from each to which it refers: from all but those
    /// of a circle.
    fn leave(&mut self, told: &mut Telling, one: usize) {
        let mut longest = Some(Chain {
            length: 0,
            end: one,
        });
        for link in self.links_at(one) {
            longest = longer(longest, self.chain_from(link.target));
        }
        if let Some(node) = self.nodes.get_mut(one) {
            node.chain = longest;
        }
        if longest.is_some() {
            told.keep(&mut self.order, one);
        }
    }

    /// Goes these steps, from the last one on, and those that they lead to.
    fn follow(&mut self, told: &mut Telling, steps: &mut Vec<Step>) {
        for _ in 0..u64::MAX {
            match steps.pop() {
                Some(Step::Enter(one)) => self.enter(told, steps, one),
                Some(Step::Leave(one)) => self.leave(told, one),
                None => return,
            }
        }
    }

    /// The structure to which the first reference leads from which others lead on without end, and the structure itself where
    /// there is none.
    fn endless_target(&self, one: usize) -> usize {
        for link in self.links_at(one) {
            if self.chain_from(link.target).is_none() {
                return link.target;
            }
        }
        one
    }

    /// A structure of a circle to which references lead from the structure: after as many steps as there are structures a walk
    /// goes round one.
    fn in_circle(&self, one: usize) -> usize {
        let mut at = one;
        for _ in 0..self.nodes.len() {
            at = self.endless_target(at);
        }
        at
    }

    /// The structures of a circle to which references lead from the structure, in their order, at most so many.
    pub fn circle_from(&self, told: &mut Telling, one: usize, most: usize) -> Vec<usize> {
        let first = self.in_circle(one);
        let mut at = first;
        let mut circle = Vec::new(told.alloc);
        for _ in 0..most {
            told.keep(&mut circle, at);
            at = self.endless_target(at);
            if at == first {
                break;
            }
        }
        circle
    }

    /// How often the top places each structure, where there is one and no references lead on from it without end. A number
    /// that 64 bits do not hold is the greatest that they do.
    pub fn times_placed(&self, told: &mut Telling, top: Option<usize>) -> Vec<u64> {
        let mut times = Vec::new(told.alloc);
        for one in 0..self.nodes.len() {
            let count = if top == Some(one) { 1 } else { 0 };
            told.keep(&mut times, count);
        }
        self.place_on(times.as_mut_slice());
        times
    }

    /// Adds how often structures are placed by those of which it is known how often they are.
    fn place_on(&self, times: &mut [u64]) {
        let order = self.order.as_slice();
        for behind in 0..order.len() {
            let one = order[order.len() - 1 - behind];
            let of_one = times.get(one).copied().unwrap_or(0);
            add_copies(times, self.links_at(one), of_one);
        }
    }
}
