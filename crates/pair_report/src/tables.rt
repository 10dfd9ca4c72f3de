use lists::Items;
use map_model::{LayerName, Measure};

/// Pairs of nets of a metal: the numbers of the two nets, the lesser one first, and at how many cells of the window a defect
/// touches both.
#[derive(Drop)]
pub struct MetalPairs {
    /// The name of the metal.
    pub layer: LayerName,
    /// The pairs, by the first number and then by the second.
    pub pairs: Items<(usize, usize, u64)>,
}

/// The pairs of nets of each metal of a layer map, for one size of defects.
#[derive(Drop)]
pub struct PairTables {
    /// Whether the size is a radius or a side.
    pub measure: Measure,
    /// The size, as the map lists it.
    pub size: u32,
    /// Those of each metal, in the order of the map.
    pub metals: Items<MetalPairs>,
}
