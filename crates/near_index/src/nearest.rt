/// A label, and how far from a cell the nearest of its pieces is, in cells: 0 where one of them has the cell, and at most
/// 1,999,999,999 in a layout.
#[derive(Clone, Copy, PartialEq, Eq)]
pub struct Near {
    pub distance: u32,
    pub label: usize,
}

/// The label that is nearest to a cell, and the nearest of all other labels. Among labels that are equally near the least one is
/// taken. There is no second where all pieces have one label, and no first where there is no piece.
#[derive(Clone, Copy, PartialEq, Eq)]
pub struct Nearest {
    pub first: Option<Near>,
    pub second: Option<Near>,
}
