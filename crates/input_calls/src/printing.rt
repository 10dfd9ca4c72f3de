//! Libraries as text.

use crate::texts::text_of;
use gds_syntax::{Element, Library, Reference, Shape, Structure};
use row_tables::Text;
use std::alloc::Global;

/// The library as text, with or without the offsets of its parts.
pub fn printed(alloc: Global, library: &Library, with_places: bool) -> Text {
    let mut text = Text::new(alloc);
    text.say("library ");
    text.say(text_of(library.name.as_slice()));
    text.say(", units ");
    match hex::encode(alloc, library.units.as_slice()) {
        Ok(digits) => text.say(digits.as_str()),
        Err(_) => text.say("no memory is left"),
    }
    text.say("\n");
    for structure in library.structures.as_slice() {
        print_structure(&mut text, structure, with_places);
    }
    text
}

/// Appends a line on the structure, and one on each of its elements.
fn print_structure(text: &mut Text, structure: &Structure, with_places: bool) {
    text.say("structure ");
    text.say(text_of(structure.name.as_slice()));
    if with_places {
        text.say(" at ");
        text.print(structure.at);
    }
    text.say("\n");
    for element in structure.elements.as_slice() {
        match element {
            Element::Shape(shape) => print_shape(text, shape, with_places),
            Element::Reference(reference) => print_reference(text, reference, with_places),
        }
        text.say("\n");
    }
}

/// Appends the offset of an element, or nothing.
fn print_place(text: &mut Text, at: u32, with_place: bool) {
    if with_place {
        text.print(at);
        text.say(": ");
    }
}

/// Appends what the shape is.
fn print_shape(text: &mut Text, shape: &Shape, with_place: bool) {
    print_place(text, shape.at, with_place);
    text.print(format_args!("{:?}", shape.kind));
    text.say(" on ");
    text.print(shape.layer);
    text.say("/");
    text.print(shape.datatype);
    text.say(":");
    for point in shape.points.as_slice() {
        text.say(" ");
        text.print(point.x);
        text.say(",");
        text.print(point.y);
    }
}

/// Appends what the reference is.
fn print_reference(text: &mut Text, reference: &Reference, with_place: bool) {
    print_place(text, reference.at, with_place);
    text.say(text_of(reference.target.as_slice()));
    text.say(" at ");
    text.print(reference.origin.x);
    text.say(",");
    text.print(reference.origin.y);
    if reference.turn.reflect {
        text.say(", mirrored");
    }
    text.say(", quarters ");
    text.print(reference.turn.quarters);
    if let Some(lattice) = &reference.lattice {
        let (columns, rows) = (lattice.columns, lattice.rows);
        let (right, up) = (lattice.column_step, lattice.row_step);
        text.print(format_args!(", {columns} by {rows} in steps {right:?} and {up:?}"));
    }
}
