//! The metals and cuts so far.

ghost use Rattle.map_model.specs.Limits.{ArePairs};

use map_model::layers::Pairs;
use map_model::name::LayerName;
use std::alloc::Global;

/// The names and the pairs of the metals and cuts so far.
#[derive(Drop)]
pub struct Seen {
    pub names: Vec<LayerName>,
    pub pairs: Vec<(u16, u16)>,
}

impl Seen {
    ghost use Rattle.std.specs.Prelude.{[]};
    ghost use Rattle.layer_map.specs.inside.ReadLayers.{AreSeen};

    /// None so far.
    pub fn new(alloc: Global) -> Seen
        ensures { AreSeen [] result }
    {
        Seen {
            names: Vec::new(alloc),
            pairs: Vec::new(alloc),
        }
    }
}

/// A metal or a cut, without the ends of a cut.
#[derive(Drop)]
pub struct Layer {
    pub name: LayerName,
    pub pairs: Pairs,
    pub ghost are_pairs: { ArePairs pairs },
}
