use geo_core::Rect;

/// A rectangle with a label, of which each cell counts so often. The weight is one in 64 bits: what is taken away counts as what is
/// missing to 2 to the 64th.
#[derive(Clone, Copy)]
pub struct Weighted {
    pub rect: Rect,
    pub label: usize,
    pub weight: u64,
}

/// Which of a point and a span has the lesser label, so that both add something.
#[derive(Clone, Copy)]
pub enum Lesser {
    /// Either: their labels differ.
    Either,
    /// The point.
    Point,
    /// The span.
    Span,
}
