//! A layer map of a layout, to be edited.

ghost use Rattle.std.specs.Prelude.{◌<◌, ◌^◌, length, All};
ghost use Rattle.lists.specs.Differing.{AreDifferent};
ghost use Rattle.library_model.specs.Names.{names_of};
ghost use Rattle.library_model.specs.Points.{AreWellPointed};

use crate::layouts::faults::Layout;
use crate::layouts::pairs::{PairHeld, shapes_of, tell_as_in_map, tell_pair};
use crate::layouts::shapes::{Held, Shapes, placed_shapes};
use crate::layouts::terminals::Known;
use crate::layouts::texts::TextMark;
use crate::telling::Telling;
use flatten::PlaceFault;
use geo_core::{Cell, Point};
use indexmap::IndexSet;
use layer_map::{MapFault, read_map};
use library_model::Library;
use map_model::limits::{MOST_METALS, MOST_TERMINALS};
use map_model::{Map, Metal};

/// What stands in front of the lines that are comments until they are wanted.
const COMMENT: &str = "#";

/// The keys of the document, with sizes that have to be replaced.
const KEYS: &str =
    ", to be edited: which of them are metals or cuts, and what they are called\nversion = 1\n# half of the side of each defect, in database units, and its weight: replace these\nradii = [100]\nweights = [1]\n# for opens between vias, without a list: `version = 2`, `sides` in place of `radii`, and `contacts = true`\n";

/// How a cut is written.
const CUT: &str =
    "\n# a layer of vias is a [[cut]] in place of a [[metal]], and names the metals that it joins besides:\n#lower = \"NAME\"\n#upper = \"NAME\"\n";

/// Tells a metal, in lines that begin with these words.
fn tell_metal(told: &mut Telling, before: &str, held: &PairHeld, has_top: bool) {
    let (layer, datatype) = held.pair;
    let comment = if before.is_empty() { "# " } else { "## " };
    told.say("\n");
    tell_pair(told, comment, held, has_top);
    told.word(before, "[[metal]]\n", before);
    let pair = [u64::from(layer), u64::from(datatype)];
    told.numbers("name = \"layer{}_{}\"\n", &pair);
    told.say(before);
    tell_as_in_map(told, "pairs = [", held.pair);
    told.say("]\n");
}

/// Tells a metal for each pair with shapes. Those behind the most that a map has are comments.
fn tell_metals(told: &mut Telling, pairs: &[PairHeld], has_top: bool) {
    let mut count = 0usize;
    for held in pairs {
        if shapes_of(held) == 0 {
            continue;
        }
        if count == MOST_METALS {
            told.say("\n# a map has at most 16 metals; the others stand here as comments\n");
        }
        let before = if count < MOST_METALS { "" } else { COMMENT };
        tell_metal(told, before, held, has_top);
        count = count.saturating_add(1);
    }
    if count == 0 {
        told.say("\n# the layout has no shapes, and a map has at least one metal\n");
    }
}

/// Whether the metal has a pair with this layer.
fn has_layer(metal: &Metal, layer: u16) -> bool {
    for pair in metal.pairs.as_slice() {
        if pair.0 == layer {
            return true;
        }
    }
    false
}

/// Adds the cell at which a text stands as a terminal of each metal of its layer.
fn add_known(
    told: &mut Telling,
    known: &mut Vec<Known>,
    metals: &[Metal],
    index: usize,
    mark: &TextMark<'_>,
) {
    let Point { x, y } = mark.point;
    for (metal, one) in metals.iter().enumerate() {
        if has_layer(one, mark.layer) {
            let one = Known {
                index,
                metal,
                cell: Cell { i: x, j: y },
                rect: None,
            };
            told.keep(known, one);
        }
    }
}

/// The texts of the top as terminals, with the numbers of the texts.
fn known_texts(
    told: &mut Telling,
    metals: &[Metal],
    texts: &[TextMark<'_>],
    top: &[u8],
) -> Vec<Known> {
    let mut known = Vec::new(told.alloc);
    for (index, mark) in texts.iter().enumerate() {
        if mark.structure == top {
            add_known(told, &mut known, metals, index, mark);
        }
    }
    known
}

/// Tells a terminal as a comment, and of which text it is.
fn tell_terminal(told: &mut Telling, layers: &[Held], mark: &TextMark<'_>, one: Known) {
    told.name(
        "\n## the text ",
        mark.string,
        "\n#[[terminal]]\n#metal = \"",
    );
    if let Some(held) = layers.get(one.metal) {
        told.raw(held.name.as_slice());
    }
    told.signed("\"\n#x = ", i64::from(one.cell.i), "\n");
    told.signed("#y = ", i64::from(one.cell.j), "\n");
}

/// Tells a text on a shape of its layer as a terminal, unless its cell is among those that are told already; whether others may
/// follow.
fn tell_next(
    told: &mut Telling,
    layers: &[Held],
    texts: &[TextMark<'_>],
    cells: &mut IndexSet<(usize, i32, i32)>,
    one: Known,
) -> bool {
    let Ok(is_new) = cells.insert((one.metal, one.cell.i, one.cell.j)) else {
        told.lose();
        return true;
    };
    if is_new && cells.len() > MOST_TERMINALS {
        told.say("\n# and others, which one map cannot have\n");
        return false;
    }
    if is_new && cells.len() == 1 {
        told.say("\n# terminals, for opens: the texts of the top on shapes of their layers\n");
    }
    if is_new && let Some(mark) = texts.get(one.index) {
        tell_terminal(told, layers, mark, one);
    }
    true
}

/// Tells the texts on shapes of their layers as terminals, each cell of a metal once.
fn tell_covered(told: &mut Telling, texts: &[TextMark<'_>], shapes: &Shapes) {
    let layers = shapes.held.as_slice();
    let mut cells = IndexSet::new(told.alloc);
    for one in shapes.terminals.as_slice() {
        if one.rect.is_some() && !tell_next(told, layers, texts, &mut cells, *one) {
            return;
        }
    }
}

/// Tells the terminals of a map of the layout's layers.
fn tell_terminals(
    told: &mut Telling,
    library: &Library,
    map: &Map,
    texts: &[TextMark<'_>],
    top: &[u8],
)
    requires differ { AreDifferent (names_of library.now.structures) }
    requires few_structures { length library.now.structures < 2 ^ 32 }
    requires few_elements { All (λ structure. length structure.elements < 2 ^ 32) library.now.structures }
    requires pointed { AreWellPointed library.now.structures }
{
    let known = known_texts(told, map.metals.as_slice(), texts, top);
    if known.is_empty() {
        return;
    }
    match placed_shapes(told, map, library, Some(top), known.as_slice()) {
        Ok(shapes) => tell_covered(told, texts, &shapes),
        Err(PlaceFault::Memory) => told.lose(),
        Err(fault) => {
            told.numbers(
                "\n# no terminals are told, since a run is refused: {} at {}\n",
                &[u64::from(fault.number()), fault.place()],
            );
        }
    }
}

/// Tells a map with a metal for each pair with shapes. Texts of the top, where it is known, are terminals in comments.
pub fn tell_skeleton(
    told: &mut Telling,
    layout: &Layout<'_>,
    library: &Library,
    pairs: &[PairHeld],
    texts: &[TextMark<'_>],
    top: Option<&[u8]>,
)
    requires differ { AreDifferent (names_of library.now.structures) }
    requires few_structures { length library.now.structures < 2 ^ 32 }
    requires few_elements { All (λ structure. length structure.elements < 2 ^ 32) library.now.structures }
    requires pointed { AreWellPointed library.now.structures }
{
    told.say("# the layers of ");
    layout.tell(told);
    told.say(KEYS);
    tell_metals(told, pairs, top.is_some());
    told.say(CUT);
    let Some(top) = top else {
        return;
    };
    match read_map(told.alloc, told.as_str().as_bytes()) {
        Ok(map) => tell_terminals(told, library, &map, texts, top),
        Err(MapFault::Memory) => told.lose(),
        Err(_) => {}
    }
}
