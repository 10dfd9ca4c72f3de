//! The layers of a layout.

ghost use Rattle.std.specs.Prelude.{◌≤◌, ◌<◌, ◌^◌, length, All};
ghost use Rattle.lists.specs.Differing.{AreDifferent};
ghost use Rattle.library_model.specs.Names.{names_of};
ghost use Rattle.library_model.specs.Points.{AreWellPointed};
ghost use Rattle.input_explanation.specs.declared.inputs.TheConstants.{LONGEST_LAYOUT};

use crate::layouts::faults::{Layout, tell_syntax};
use crate::layouts::good::tell_library;
use crate::layouts::graph::{graph_of, name_of};
use crate::layouts::pairs::{PairHeld, all_pairs, tell_pair};
use crate::layouts::skeleton::tell_skeleton;
use crate::layouts::structures::{found_tops, tell_no_top, tell_tops};
use crate::layouts::texts::{TextMark, tell_placed_texts, texts_of};
use crate::telling::Telling;
use gds_syntax::read_library;
use library_model::{Library, Structure};

/// The top: the one of the name that is given, or else the only one that no reference names.
fn chosen_top(layout: &Layout<'_>, structures: &[Structure], tops: &[u32]) -> Option<usize> {
    let Some(name) = layout.top else {
        return match tops {
            [only] => Some(*only as usize),
            _ => None,
        };
    };
    for (number, structure) in structures.iter().enumerate() {
        if structure.name.as_slice() == name {
            return Some(number);
        }
    }
    None
}

/// Tells of the library, and which structure is the top, or which ones may be.
fn tell_head(
    told: &mut Telling,
    layout: &Layout<'_>,
    library: &Library,
    tops: &[u32],
    top: Option<&[u8]>,
) {
    layout.tell(told);
    told.say(": its layers; each shape counts once, as its structure has it\n");
    tell_library(told, library);
    if let Some(top) = top {
        told.name(", top ", top, "\n");
        return;
    }
    told.say("\n");
    if !tops.is_empty() {
        tell_tops(told, library.structures.as_slice(), tops);
        told.say("  --top NAME tells which shapes one of them places\n");
    }
}

/// Tells what each pair has.
fn tell_pairs(told: &mut Telling, pairs: &[PairHeld], has_top: bool) {
    for held in pairs {
        tell_pair(told, "  ", held, has_top);
    }
    told.say(if pairs.is_empty() {
        "  no shapes and no texts\n"
    } else {
        "  --map-skeleton behind these words prints a map of these layers, to be edited\n"
    });
}

/// Tells a map of these layers.
fn tell_map(
    told: &mut Telling,
    layout: &Layout<'_>,
    library: &Library,
    pairs: &[PairHeld],
    texts: &[TextMark<'_>],
    times: &[u64],
    top: Option<&[u8]>,
)
    requires differ { AreDifferent (names_of library.now.structures) }
    requires few_structures { length library.now.structures < 2 ^ 32 }
    requires few_elements { All (λ structure. length structure.elements < 2 ^ 32) library.now.structures }
    requires pointed { AreWellPointed library.now.structures }
{
    tell_skeleton(told, layout, library, pairs, texts, top);
    if let Some(top) = top {
        tell_placed_texts(told, times, texts, top);
    }
}

/// Tells the layers of a library, of which this is the top.
fn tell_layers_of(
    told: &mut Telling,
    layout: &Layout<'_>,
    library: &Library,
    tops: &[u32],
    top: Option<usize>,
    as_map: bool,
)
    requires differ { AreDifferent (names_of library.now.structures) }
    requires few_structures { length library.now.structures < 2 ^ 32 }
    requires few_elements { All (λ structure. length structure.elements < 2 ^ 32) library.now.structures }
    requires pointed { AreWellPointed library.now.structures }
{
    let times = graph_of(told, library).times_placed(told, top);
    let texts = texts_of(told, layout.bytes);
    let pairs = all_pairs(told, library, texts.as_slice(), times.as_slice());
    let top = match top {
        Some(top) => Some(name_of(library.structures.as_slice(), top)),
        None => None,
    };
    let (times, texts, pairs) = (times.as_slice(), texts.as_slice(), pairs.as_slice());
    if as_map {
        tell_map(told, layout, library, pairs, texts, times, top);
    } else {
        tell_head(told, layout, library, tops, top);
        tell_pairs(told, pairs, top.is_some());
    }
}

/// Tells the layers of a library, or that it has no structure of the name that its top is to have.
fn tell_listed(told: &mut Telling, layout: &Layout<'_>, library: &Library, as_map: bool)
    requires differ { AreDifferent (names_of library.now.structures) }
    requires few_structures { length library.now.structures < 2 ^ 32 }
    requires few_elements { All (λ structure. length structure.elements < 2 ^ 32) library.now.structures }
    requires pointed { AreWellPointed library.now.structures }
{
    let structures = library.structures.as_slice();
    let tops = found_tops(told, library);
    let top = chosen_top(layout, structures, tops.as_slice());
    if layout.top.is_some() && top.is_none() {
        tell_no_top(told, layout, structures, tops.as_slice());
    } else {
        tell_layers_of(told, layout, library, tops.as_slice(), top, as_map);
    }
}

/// Tells the layers of a layout, as a map where this is asked for. What is no layout is told as it is of a run.
pub fn tell_listing(told: &mut Telling, layout: &Layout<'_>, as_map: bool)
    requires { length layout.now.bytes.now ≤ LONGEST_LAYOUT }
{
    match read_library(told.alloc, layout.bytes) {
        Ok(library) => tell_listed(told, layout, &library, as_map),
        Err(fault) => tell_syntax(told, layout, fault),
    }
}
