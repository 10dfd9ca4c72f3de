use map_model::LayerName;
use near_index::Nearest;

/// What a probe tells of a metal: the two of its nets that are nearest to the cell, by the numbers that nets have on the metal.
#[derive(Clone, Copy)]
pub struct MetalNear {
    /// The name of the metal.
    pub layer: LayerName,
    /// The nearest net, and the nearest of all others: their numbers as labels, and how far from the cell they are, in cells.
    pub nearest: Nearest,
}
