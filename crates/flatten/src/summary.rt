/// What is kept of a structure once it is surveyed. The height stands still at 257, and the counts at 8,000,001.
#[derive(Clone, Copy)]
pub struct Summary {
    /// How many references the longest chain from it has; 257 stands for more, too.
    pub height: u32,
    /// How many shapes on mapped layers it places; 8,000,001 stands for more, too.
    pub shapes: u64,
    /// How many points they have; 8,000,001 stands for more, too.
    pub points: u64,
}

/// How far the survey of a structure has come.
#[derive(Clone, Copy)]
pub enum State {
    New,
    /// It is on the way from the structure at which the search began. The part at this place is next.
    Open(usize),
    Done(Summary),
}
