//! What is wrong with a layout, or that nothing is.

ghost use Rattle.std.specs.Prelude.{◌≤◌, ◌<◌, ◌^◌, length, All};
ghost use Rattle.lists.specs.Differing.{AreDifferent};
ghost use Rattle.library_model.specs.Names.{names_of};
ghost use Rattle.library_model.specs.Points.{AreWellPointed};
ghost use Rattle.input_explanation.specs.declared.inputs.TheConstants.{LONGEST_LAYOUT};

use crate::layouts::beginnings::{begins_as_text, format_of, is_gdsii};
use crate::layouts::good::tell_good;
use crate::layouts::places::{record_name, spot_up_to, tell_place, tell_place_at};
use crate::layouts::shapes::{Held, Shapes, placed_shapes, tell_uncovered};
use crate::layouts::structures::tell_place_fault;
use crate::layouts::terminals::{first_off, known_terminals, tell_off_metal};
use crate::maps::good_map::GoodMap;
use crate::remedies::remedy_of;
use crate::telling::Telling;
use gds_records::RecordFault;
use gds_syntax::{SyntaxFault, read_library};
use library_model::Library;

/// The status of a run that refuses a layout.
pub const REFUSED: u8 = 4;

/// A layout as it is told of.
#[derive(Clone, Copy)]
pub struct Layout<'a> {
    /// The name of its file, and none if it is generated.
    pub name: Option<&'a [u8]>,
    /// What it contains.
    pub bytes: &'a [u8],
    /// The name of the structure that is wanted as the top, where one is.
    pub top: Option<&'a [u8]>,
    /// What the run gives of it, as the end of a line.
    pub outcome: &'a str,
}

impl Layout<'_> {
    /// Tells which layout it is.
    pub fn tell(&self, told: &mut Telling) {
        match self.name {
            Some(name) => told.name("layout ", name, ""),
            None => told.say("the generated layout"),
        }
    }
}

/// Tells what a number means of a place of the layout, in a line.
pub fn tell_number(told: &mut Telling, layout: &Layout<'_>, number: u8, place: u64) {
    told.refuse(REFUSED, number, place);
    let row = remedy_of(REFUSED, number);
    layout.tell(told);
    told.number(", byte ", place, ": ");
    told.word("", row.meaning, "; ");
    told.word("", row.remedy, "\n");
}

/// Tells of a file that is no GDSII layout from its beginning on.
fn tell_no_gdsii(told: &mut Telling, layout: &Layout<'_>, fault: SyntaxFault) {
    told.refuse(REFUSED, fault.number(), fault.place());
    layout.tell(told);
    told.say(": it is no GDSII layout");
    if layout.bytes.is_empty() {
        told.say(", but empty");
    } else if let Some(format) = format_of(layout.bytes) {
        told.word(", but ", format, "");
    } else if begins_as_text(layout.bytes) {
        let beginning = &layout.bytes[..layout.bytes.len().min(16)];
        told.name("; it begins as a text does, with ", beginning, "");
    } else {
        told.say("; it is compressed or of another format, so unpack it, or export it as GDSII");
    }
    told.say("\n");
}

/// Tells what is wrong with a record, or with where it stands, and what stands in front of it.
fn tell_record(told: &mut Telling, layout: &Layout<'_>, fault: SyntaxFault) {
    told.say("  ");
    match fault {
        SyntaxFault::Unexpected { kind, .. } => told.word("", record_name(kind), " "),
        SyntaxFault::Record(RecordFault::BadLength { len, .. }) => {
            told.number("length ", u64::from(len), ", ");
        }
        SyntaxFault::Record(RecordFault::BadRecord { kind, form, .. }) => {
            told.word("", record_name(kind), ", ");
            told.number("", u64::from(kind), ", with data of form ");
            told.number("", u64::from(form), ", ");
        }
        _ => {}
    }
    let spot = spot_up_to(layout.bytes, fault.place() as u32, false);
    match spot.before {
        Some(kind) => told.word("behind ", record_name(kind), ", "),
        None => told.say("at the file's beginning, "),
    }
    tell_place(told, "", &spot, "\n");
}

/// Tells of bytes that are no library.
pub fn tell_syntax(told: &mut Telling, layout: &Layout<'_>, fault: SyntaxFault) {
    let is_of_record = matches!(
        fault,
        SyntaxFault::Record(_) | SyntaxFault::Unexpected { .. }
    );
    if matches!(fault, SyntaxFault::Memory) {
        told.lose();
        return;
    }
    if is_of_record && !is_gdsii(layout.bytes) {
        tell_no_gdsii(told, layout, fault);
        return;
    }
    tell_number(told, layout, fault.number(), fault.place());
    if is_of_record {
        tell_record(told, layout, fault);
    } else {
        tell_place_at(told, "  ", layout.bytes, fault.place() as u32, "");
        if let SyntaxFault::Missing { kind, .. } = fault {
            told.word("; it lacks ", record_name(kind), "");
        }
        told.say("\n");
    }
}

/// What the placed shapes hold on each layer, if all have a cover and cover all terminals, after what is told of a good layout.
/// Otherwise it is told which ones do not.
fn tell_shapes(
    told: &mut Telling,
    good: &GoodMap<'_>,
    layout: &Layout<'_>,
    library: &Library,
    shapes: Shapes,
) -> Option<Vec<Held>>
    requires differ { AreDifferent (names_of library.now.structures) }
    requires few { length library.now.structures < 2 ^ 32 }
{
    if let Some(first) = shapes.uncovered.first() {
        tell_number(told, layout, first.fault.number(), first.fault.place());
        tell_uncovered(told, layout, &shapes);
        return None;
    }
    if let Some(first) = first_off(shapes.terminals.as_slice()) {
        tell_off_metal(told, good, layout, library, &shapes, first);
        return None;
    }
    tell_good(told, &good.map, layout, library, &shapes);
    let Shapes {
        held,
        uncovered: _,
        terminals: _,
    } = shapes;
    Some(held)
}

/// What the layers of the map hold by a library, if it is good. Otherwise it is told why not.
fn tell_library(
    told: &mut Telling,
    good: &GoodMap<'_>,
    layout: &Layout<'_>,
    library: &Library,
) -> Option<Vec<Held>>
    requires differ { AreDifferent (names_of library.now.structures) }
    requires few_structures { length library.now.structures < 2 ^ 32 }
    requires few_elements { All (λ structure. length structure.elements < 2 ^ 32) library.now.structures }
    requires pointed { AreWellPointed library.now.structures }
{
    let map = &good.map;
    let terminals = known_terminals(told, map);
    match placed_shapes(told, map, library, layout.top, terminals.as_slice()) {
        Ok(shapes) => tell_shapes(told, good, layout, library, shapes),
        Err(fault) => {
            tell_place_fault(told, map, layout, library, fault);
            None
        }
    }
}

/// What the layers of the map hold by the layout, if it is good. Otherwise it is told why not.
pub fn tell_layout(told: &mut Telling, good: &GoodMap<'_>, layout: &Layout<'_>) -> Option<Vec<Held>>
    requires { length layout.now.bytes.now ≤ LONGEST_LAYOUT }
{
    match read_library(told.alloc, layout.bytes) {
        Ok(library) => tell_library(told, good, layout, &library),
        Err(fault) => {
            tell_syntax(told, layout, fault);
            None
        }
    }
}
