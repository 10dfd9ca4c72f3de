use half_boxes::HalfBox;

/// A box of an island that lies outside of what is looked at, with the number of the fixed box that leads it: those of one
/// leader are joined with one another.
#[derive(Clone, Copy)]
pub struct Fixed {
    pub part: HalfBox,
    pub leader: usize,
}

/// A box of an island that may be removed, in part or as a whole, and the number of the terminal that has it, if one does. One
/// terminal may have several boxes.
#[derive(Clone, Copy)]
pub struct Loose {
    pub part: HalfBox,
    pub terminal: Option<usize>,
}

/// The terminal has half squares among the fixed boxes of the leader, or joined with them.
#[derive(Clone, Copy, PartialEq, Eq)]
pub struct Mark {
    pub terminal: usize,
    pub leader: usize,
}
