//! The texts of a layout, which the model of a library leaves out.

use crate::layouts::places::{BEGINNING, Spot, records_of};
use crate::telling::Telling;
use gds_records::kinds;
use gds_syntax::ElementKind;
use geo_core::Point;

/// A text.
#[derive(Clone, Copy)]
pub struct TextMark<'a> {
    /// The number of its structure in the library.
    number: usize,
    /// The name of its structure.
    pub structure: &'a [u8],
    pub layer: u16,
    pub texttype: u16,
    /// Where it stands, in database units.
    pub point: Point,
    /// What it says.
    pub string: &'a [u8],
}

/// The text that ends at this place, where one does. In a library each has its layer, its type, its point and what it says.
fn mark_of<'a>(spot: &Spot<'a>) -> Option<TextMark<'a>> {
    let element = spot.element?;
    if element.kind != ElementKind::Text {
        return None;
    }
    Some(TextMark {
        number: spot.structures.saturating_sub(1),
        structure: spot.structure.unwrap_or(b""),
        layer: element.layer.unwrap_or(0),
        texttype: element.datatype.unwrap_or(0),
        point: element.point.unwrap_or(Point { x: 0, y: 0 }),
        string: element.string.unwrap_or(b""),
    })
}

/// The texts of a layout that is a library, in the order of the stream.
pub fn texts_of<'a>(told: &mut Telling, bytes: &'a [u8]) -> Vec<TextMark<'a>> {
    let mut texts = Vec::new(told.alloc);
    let mut spot = BEGINNING;
    let mut records = records_of(bytes);
    for _ in 0..bytes.len() {
        let Ok(Some(record)) = records.next() else {
            break;
        };
        if record.kind == kinds::ENDEL
            && let Some(mark) = mark_of(&spot)
        {
            told.keep(&mut texts, mark);
        }
        spot.pass(&record);
    }
    texts
}

/// Tells as a comment how many texts are of structures that the top of this name places, where each is placed so often.
pub fn tell_placed_texts(told: &mut Telling, times: &[u64], texts: &[TextMark<'_>], top: &[u8]) {
    let mut count = 0u64;
    for one in texts {
        if one.structure != top && times.get(one.number).copied().unwrap_or(0) > 0 {
            count = count.saturating_add(1);
        }
    }
    if count > 0 {
        told.number(
            "\n# texts of the structures that the top places are left out: ",
            count,
            ", each counted once\n",
        );
    }
}
