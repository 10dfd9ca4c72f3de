ghost use Rattle.std.specs.Prelude.{◌≡◌, ◌≤◌};

use std::alloc::AllocError;

/// Who counts areas, and over which tiles. The areas are the same for each edge, each number of workers and each gate.
pub struct Sharing<'a, G> {
    /// The width and the height of a tile, in database units, 1 to 1,000,000,000. Where several workers look for opens of many
    /// rectangles it is at most a quarter of the layout. Then it is doubled until there are at most 1,000,000 tiles, until long
    /// pieces, or all for large defects, are looked at in few tiles each, and until tiles ask about as many questions as there are
    /// pieces, or few.
    pub edge: u32,
    /// How many workers share the tiles, 1 to 64, but no more than there are tiles: in threads of their own, where these can be
    /// started.
    pub workers: u32,
    /// What each tile passes before its amounts are asked for.
    pub gate: &'a G,
    pub ghost some_edge: { 1 ≤ edge },
    pub ghost short_edge: { edge ≤ 1000000000 },
    pub ghost some_workers: { 1 ≤ workers },
    pub ghost few_workers: { workers ≤ 64 },
}

// A derive would ask the same of the gate.
impl<G> Clone for Sharing<'_, G> {
    ghost is_clone = { λ sharing copy. copy ≡ sharing };

    ghost is_infallible = { λ _. Unit {0} };

    fn clone(&self) -> Result<Self, AllocError> {
        Ok(*self)
    }
}

impl<G> Copy for Sharing<'_, G> {}
