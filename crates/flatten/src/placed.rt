use geo_core::Turn;

/// A shape of a structure, as it is placed in the top. A point of the shape lies where `turn` takes it, shifted by `dx`
/// and `dy`.
#[derive(Clone, Copy)]
pub struct Placed {
    /// The number of the structure that has the shape.
    pub structure: u32,
    /// The number of the shape among the structure's elements.
    pub element: u32,
    /// The offset of the shape in the stream.
    pub at: u32,
    /// The number of the shape's layer in the map.
    pub layer: u32,
    pub turn: Turn,
    /// How far right, in database units.
    pub dx: i64,
    /// How far up, in database units.
    pub dy: i64,
}
