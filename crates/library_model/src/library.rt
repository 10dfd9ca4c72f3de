ghost use Rattle.std.specs.Prelude.{◌≡◌, length};
ghost use Rattle.lists.specs.ByteLists.{AreBytes};

use super::element::Elements;
use lists::{Items, Name};

/// A library: what a GDSII stream contains.
#[derive(Drop)]
pub struct Library {
    /// The text of LIBNAME.
    pub name: Name,
    /// The body of UNITS: the database unit in user units and in metres, two eight-byte reals. Their values are not checked.
    pub units: [u8; 16],
    pub structures: Structures,
    // A number in `specs/` has no bound of its own, so that of each byte is told.
    pub ghost name_fits: { AreBytes name },
    pub ghost units_count: { length units ≡ 16 },
    pub ghost units_fit: { AreBytes units },
}

/// A structure: a named list of elements, which other structures can place.
#[derive(Drop)]
pub struct Structure {
    /// The offset of its opening record.
    pub at: u32,
    pub name: Name,
    pub elements: Elements,
    pub ghost name_fits: { AreBytes name },
}

/// Structures in the order of the stream, numbered from 0.
pub type Structures = Items<Structure>;
