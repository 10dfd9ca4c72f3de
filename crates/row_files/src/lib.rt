//! The layouts and the maps that rows of tables give.
//!
//! A layout is given as `shapes`, which are rectangles `[layer, datatype, left, bottom, right, top]`. Without them it is the file of
//! two bars, in which `replaced = [from, to]` puts `records` or `bytes` in place of the bytes from one offset to the other. `records`
//! has GDSII records by their names and values (`records`). A row may name a layout `[layout.NAME]` of the document that has these
//! keys.
//!
//! A map is given as `map`, which names the `text` of a `[map.NAME]`, as `map_text` or as `map_bytes`. `changed = [old, new]` puts a
//! text in place of a part of the map's text, and with `times` it puts it there so many times.
#![tactic(auto)]

mod layouts;
mod maps;
mod records;

pub use layouts::{has_layout, layout_of};
use lists::Name;
pub use maps::{map_of, shared_text};
pub use records::records_of;
use row_tables::Case;

/// Appends a file.
pub fn push_file(
    case: &mut Case<'_>,
    files: &mut Vec<(Name, Vec<u8>)>,
    name: &str,
    bytes: Vec<u8>,
) {
    let name = Vec::from_slice(case.alloc, name.as_bytes());
    let name = Name::from_vec(case.list(name));
    case.push(files, (name, bytes));
}
