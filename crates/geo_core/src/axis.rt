/// One of the two directions of the plane. What is so of columns along the one is so of rows along the other.
#[derive(Clone, Copy)]
pub enum Axis {
    /// From left to right, where columns are counted.
    X,
    /// From bottom to top, where rows are counted.
    Y,
}
