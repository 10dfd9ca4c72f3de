use map_model::{LayerName, Measure};

/// The area of shorts between two nets of a metal, for one size of defect.
#[derive(Clone, Copy)]
pub struct PairRow {
    /// The name of the metal.
    pub layer: LayerName,
    /// The number of the one net.
    pub first: usize,
    /// The number of the other net.
    pub second: usize,
    /// Whether the size is a radius or a side.
    pub measure: Measure,
    /// The size of the defect, as its map lists it.
    pub size: u32,
    /// For how many cells a defect touches both nets.
    pub area: u64,
}
