ghost use Rattle.std.specs.Prelude.{◌<◌, length};

use geo_core::{Cell, Rect, RectList};
use lists::Items;

/// A rectangle of a metal with the numbers of an island and of a net. In nets that `extract` makes, pieces of one metal
/// have the same `island` exactly where they are of one island, and pieces of any metals have the same `net` exactly where
/// they are of one net. Pieces may overlap.
#[derive(Clone, Copy)]
pub struct Piece {
    pub rect: Rect,
    pub island: usize,
    pub net: usize,
}

/// A rectangle of a cut with the numbers of an island of its lower metal and of one of its upper metal. In `Nets` the two
/// islands and the cut have all of its cells, and so it joins the metals there.
#[derive(Clone, Copy, PartialEq, Eq)]
pub struct ContactPiece {
    pub rect: Rect,
    pub lower: usize,
    pub upper: usize,
}

/// The contact pieces of a cut that carry the same two islands: an island of the cut's lower metal and one of its upper
/// metal. In nets that `extract` makes they are a via cluster.
#[derive(Drop)]
pub struct ContactGroup {
    pub lower: usize,
    pub upper: usize,
    /// The rectangles of the contact pieces.
    pub rects: RectList,
    pub ghost some: { 0 < length rects },
}

/// A cell of a metal with the number of an island of this. In `Nets` it is a terminal and stands on the island.
#[derive(Clone, Copy)]
pub struct Anchor {
    pub metal: u32,
    pub cell: Cell,
    pub island: usize,
}

/// The pieces of a metal.
pub type PieceList = Items<Piece>;

/// The contact pieces of a cut.
pub type ContactList = Items<ContactPiece>;

/// The groups of the contact pieces of a cut.
pub type GroupList = Items<ContactGroup>;
