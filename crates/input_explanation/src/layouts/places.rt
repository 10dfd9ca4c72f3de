//! Places in a layout: which structure and which element stand at an offset.

use crate::telling::Telling;
use gds_records::{Record, Records, kind_name, kinds, text, u16_at};
use gds_syntax::{ElementKind, point_at};
use geo_core::Point;

/// What the records of an element tell of it, as far as they are read.
#[derive(Clone, Copy)]
pub struct ElementTold<'a> {
    pub kind: ElementKind,
    pub layer: Option<u16>,
    /// Its datatype, or the type of a box, a text or a node.
    pub datatype: Option<u16>,
    /// Its first point, in database units.
    pub point: Option<Point>,
    /// The name of the structure that a reference places.
    pub target: Option<&'a [u8]>,
    /// What a text says.
    pub string: Option<&'a [u8]>,
}

/// What is known of a place in a layout, as far as its records tell.
#[derive(Clone, Copy)]
pub struct Spot<'a> {
    /// How many structures begin in front of the place.
    pub structures: usize,
    /// The name of the structure.
    pub structure: Option<&'a [u8]>,
    /// The number of the element in its structure, counted from 1, and 0 in front of the first.
    pub number: u32,
    /// The element, where the place is in one.
    pub element: Option<ElementTold<'a>>,
    /// The kind of the last record in front of the place.
    pub before: Option<u8>,
}

/// The place at the beginning of a layout.
pub const BEGINNING: Spot<'static> = Spot {
    structures: 0,
    structure: None,
    number: 0,
    element: None,
    before: None,
};

/// Whether a record of this kind ends or begins something, so that what stands behind it is no part of an element.
fn is_border(kind: u8) -> bool {
    matches!(
        kind,
        kinds::BGNSTR | kinds::ENDSTR | kinds::ENDEL | kinds::ENDLIB
    ) || ElementKind::opened_by(kind).is_some()
}

/// The number that a record of two-byte numbers begins with, where it has one.
fn first_number(record: &Record<'_>) -> Option<u16> {
    if record.body.len() < 2 {
        return None;
    }
    Some(u16_at(record, 0))
}

/// The point that a record of points begins with, where it has one.
fn first_point(record: &Record<'_>) -> Option<Point> {
    if record.body.len() < 8 {
        return None;
    }
    Some(point_at(record, 0))
}

impl<'a> ElementTold<'a> {
    /// What is told once this record of it is read, too.
    fn with(self, record: &Record<'a>) -> ElementTold<'a> {
        let mut told = self;
        match record.kind {
            kinds::LAYER => told.layer = first_number(record),
            kinds::DATATYPE | kinds::TEXTTYPE | kinds::NODETYPE | kinds::BOXTYPE => {
                told.datatype = first_number(record);
            }
            kinds::XY => told.point = first_point(record),
            kinds::SNAME => told.target = Some(text(record)),
            kinds::STRING => told.string = Some(text(record)),
            _ => {}
        }
        told
    }
}

impl<'a> Spot<'a> {
    /// Goes behind a record that opens an element or tells something of one.
    fn pass_in_structure(&mut self, record: &Record<'a>) {
        if let Some(kind) = ElementKind::opened_by(record.kind) {
            self.number = self.number.saturating_add(1);
            self.element = Some(ElementTold {
                kind,
                layer: None,
                datatype: None,
                point: None,
                target: None,
                string: None,
            });
        } else if let Some(element) = self.element {
            self.element = Some(element.with(record));
        }
    }

    /// Goes behind a record.
    pub fn pass(&mut self, record: &Record<'a>) {
        match record.kind {
            kinds::BGNSTR => {
                *self = Spot {
                    structures: self.structures.saturating_add(1),
                    ..BEGINNING
                }
            }
            kinds::STRNAME => self.structure = Some(text(record)),
            kinds::ENDEL | kinds::ENDSTR => self.element = None,
            _ => self.pass_in_structure(record),
        }
        self.before = Some(record.kind);
    }
}

/// The records of a layout, of which offsets of 32 bits tell the places, and else none.
pub fn records_of(bytes: &[u8]) -> Records<'_> {
    if bytes.len() > u32::MAX as usize {
        return Records::new(&[]);
    }
    Records::new(bytes)
}

/// What stands in front of the record at this offset of the bytes, and where this is wanted, what that record opens, too: an
/// element with what its records tell, or a structure with its name.
pub fn spot_up_to(bytes: &[u8], place: u32, with_opened: bool) -> Spot<'_> {
    let mut spot = BEGINNING;
    let mut records = records_of(bytes);
    for _ in 0..bytes.len() {
        let Ok(Some(record)) = records.next() else {
            return spot;
        };
        let is_behind = if with_opened {
            record.at > place && is_border(record.kind)
        } else {
            record.at >= place
        };
        if is_behind {
            return spot;
        }
        spot.pass(&record);
    }
    spot
}

/// The name of a kind of records.
pub fn record_name(kind: u8) -> &'static str {
    kind_name(kind).unwrap_or("an unknown kind")
}

/// What an element is.
fn element_name(kind: ElementKind) -> &'static str {
    match kind {
        ElementKind::Boundary => "a boundary",
        ElementKind::Path => "a path",
        ElementKind::Sref => "a reference",
        ElementKind::Aref => "an array of references",
        ElementKind::Text => "a text",
        ElementKind::Node => "a node",
        ElementKind::BoxElement => "a box",
    }
}

/// Tells the element of this number in its structure, and what is known of it.
fn tell_element(told: &mut Telling, number: u32, element: ElementTold<'_>) {
    told.number(", element ", u64::from(number), ": ");
    told.say(element_name(element.kind));
    if let Some(target) = element.target {
        told.name(" to ", target, "");
    }
    if let Some(layer) = element.layer {
        told.number(" on layer ", u64::from(layer), "");
    }
    if let Some(datatype) = element.datatype {
        told.number(", datatype ", u64::from(datatype), "");
    }
    if let Some(Point { x, y }) = element.point {
        told.point(", first point ", x, y, "");
    }
}

/// Tells behind some words which structure and which element stand at a place, and then others.
pub fn tell_place(told: &mut Telling, before: &str, spot: &Spot<'_>, after: &str) {
    told.say(before);
    match spot.structure {
        Some(name) => told.name("structure ", name, ""),
        None => told.say("in front of the first structure's name"),
    }
    if let Some(element) = spot.element {
        tell_element(told, spot.number, element);
    }
    told.say(after);
}

/// Tells behind some words what the record at this offset of the bytes opens, and then others.
pub fn tell_place_at(told: &mut Telling, before: &str, bytes: &[u8], place: u32, after: &str) {
    tell_place(told, before, &spot_up_to(bytes, place, true), after);
}
