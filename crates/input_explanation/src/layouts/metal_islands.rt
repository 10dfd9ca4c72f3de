//! The islands of the metals, and the terminals on each.

use crate::layouts::shapes::{Held, Shapes};
use crate::layouts::terminals::Known;
use crate::telling::Telling;
use islands::label;
use map_model::{Cut, Map};

/// The islands of a metal.
#[derive(Drop)]
pub struct MetalIslands<'a> {
    /// What is placed on the metal.
    pub held: &'a Held,
    /// Whether a cut joins it to another one, so that via clusters may be terminals of it.
    pub is_joined: bool,
    /// How many islands there are.
    pub count: u64,
    /// How many of them have one terminal.
    pub with_one: u64,
    /// How many of them have two or more.
    pub with_more: u64,
    /// Each terminal behind the number of its island, which is that of a rectangle. Those of an island stand together.
    carried: Vec<(usize, usize)>,
}

impl MetalIslands<'_> {
    /// Counts the islands of rectangles that have these.
    fn count_islands(&mut self, labels: &[usize]) {
        for (number, island) in labels.iter().enumerate() {
            // An island is told by the first of its rectangles.
            if number == *island {
                self.count = self.count.saturating_add(1);
            }
        }
    }

    /// Takes up the terminals of the metal of this number, whose rectangles have these islands.
    fn carry(&mut self, told: &mut Telling, terminals: &[Known], metal: usize, labels: &[usize]) {
        for one in terminals {
            if one.metal == metal
                && let Some(rect) = one.rect
                && let Some(island) = labels.get(rect)
            {
                told.keep(&mut self.carried, (*island, one.index));
            }
        }
        self.carried.sort_unstable();
    }

    /// Counts the islands with terminals.
    fn count_carried(&mut self) {
        let mut last = None;
        let mut terminals = 0usize;
        for (island, _) in self.carried.as_slice() {
            terminals = if last == Some(*island) {
                terminals.saturating_add(1)
            } else {
                1
            };
            last = Some(*island);
            if terminals == 1 {
                self.with_one = self.with_one.saturating_add(1);
            } else if terminals == 2 {
                self.with_one = self.with_one.saturating_sub(1);
                self.with_more = self.with_more.saturating_add(1);
            }
        }
    }
}

/// The islands of the metal of this number, on which this is placed, and which a cut may join to another one.
fn islands_of<'a>(
    told: &mut Telling,
    held: &'a Held,
    is_joined: bool,
    terminals: &[Known],
    metal: usize,
) -> MetalIslands<'a> {
    let mut islands = MetalIslands {
        held,
        is_joined,
        count: 0,
        with_one: 0,
        with_more: 0,
        carried: Vec::new(told.alloc),
    };
    match label(told.alloc, held.rects.as_slice()) {
        Ok(labels) => {
            islands.count_islands(labels.as_slice());
            islands.carry(told, terminals, metal, labels.as_slice());
            islands.count_carried();
        }
        Err(_) => told.lose(),
    }
    islands
}

/// Whether one of the cuts joins the metal to another one.
fn is_joined(cuts: &[Cut], metal: usize) -> bool {
    for cut in cuts {
        if cut.lower as usize == metal || cut.upper as usize == metal {
            return true;
        }
    }
    false
}

/// The islands of each metal of the map.
pub fn metal_islands<'a>(
    told: &mut Telling,
    map: &Map,
    shapes: &'a Shapes,
) -> Vec<MetalIslands<'a>> {
    let cuts = map.cuts.as_slice();
    let layers = shapes.held.as_slice();
    let metals = &layers[..layers.len().min(map.metals.as_slice().len())];
    let mut all = Vec::new(told.alloc);
    for (metal, held) in metals.iter().enumerate() {
        let is_joined = is_joined(cuts, metal);
        let islands = islands_of(told, held, is_joined, shapes.terminals.as_slice(), metal);
        told.keep(&mut all, islands);
    }
    all
}

/// Tells the islands of a metal that have terminals, each by a cell of it, in a line with these, counted from 1.
fn tell_carried(told: &mut Telling, islands: &MetalIslands<'_>) {
    let mut last = None;
    for (island, index) in islands.carried.as_slice() {
        if last != Some(*island) {
            told.say(if last.is_some() { "\n" } else { "" });
            islands.held.tell_layer(told, "    ");
            if let Some(rect) = islands.held.rects.get(*island) {
                told.point(", island of the cell ", rect.x0, rect.y0, ":");
            }
            last = Some(*island);
        }
        told.number(" ", (*index as u64).saturating_add(1), "");
    }
    if last.is_some() {
        told.say("\n");
    }
}

/// Tells which terminals are on which islands of the metals.
pub fn tell_all_carried(told: &mut Telling, all: &[MetalIslands<'_>]) {
    told.say("  terminals by islands, each told by a cell of it; terminals are counted from 1\n");
    for islands in all {
        tell_carried(told, islands);
    }
}
