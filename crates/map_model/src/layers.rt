ghost use Rattle.std.specs.Prelude.{◌≢◌, ◌↔◌, IsTrue, Contains};
ghost use Rattle.map_model.specs.Limits.{ArePairs};

use super::name::LayerName;
use geo_core::Cell;
use lists::Items;

/// A metal: its name, and the layers and datatypes of the shapes that are of it, 1 to 16 pairs.
#[derive(Drop)]
pub struct Metal {
    pub name: LayerName,
    pub pairs: Pairs,
    pub ghost are_pairs: { ArePairs pairs },
}

/// A cut, which joins two metals, by the numbers of these: its name, and the layers and datatypes of the shapes that
/// are of it, 1 to 16 pairs.
#[derive(Drop)]
pub struct Cut {
    pub name: LayerName,
    pub pairs: Pairs,
    pub lower: u32,
    pub upper: u32,
    pub ghost are_pairs: { ArePairs pairs },
    pub ghost ends_differ: { lower ≢ upper },
}

/// A terminal: a cell of a metal, by the number of this.
#[derive(Clone, Copy)]
pub struct Terminal {
    pub metal: u32,
    pub cell: Cell,
}

/// Pairs of a layer and a datatype.
pub type Pairs = Items<(u16, u16)>;

/// Metals, by number.
pub type Metals = Items<Metal>;

/// Cuts, by number.
pub type Cuts = Items<Cut>;

/// Terminals, by number.
pub type Terminals = Items<Terminal>;

/// Sizes of defects: radii or sides, in database units.
pub type Sizes = Items<u32>;

/// Weights of the sizes, in the same order.
pub type Weights = Items<u64>;

/// Whether the pair is one of these.
pub fn has_pair(pairs: &[(u16, u16)], pair: (u16, u16)) -> bool
    ensures { IsTrue result ↔ Contains pairs.now pair }
{
    pairs.contains(&pair)
}
