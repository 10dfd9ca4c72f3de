use std::collections::LinkedList;

/// The most slots that a board may have.
pub const MOST_SLOTS: u32 = 2_000;

/// The most draws that a board may have.
pub const MOST_DRAWS: u64 = 1 << 62;

const _: () = prove!(MOST_SLOTS == 2_000);

const _: () = prove!(MOST_DRAWS == 4_611_686_018_427_387_904);

/// What a board is made for.
#[derive(Clone, Copy)]
pub struct Limits {
    /// How many tickets there are: the numbers below this.
    pub tickets: u64,
    /// How many slots there are: the numbers below this.
    pub slots: u32,
    /// The most that one credit may add.
    pub cap: u64,
    /// How often numbers may be drawn, by all hands together.
    pub draws: u64,
}

/// An amount that is added to the total of a slot on account of a ticket. Contracts speak of credits; none is kept.
#[derive(Clone, Copy)]
pub struct Credit {
    /// The ticket that earned it.
    pub ticket: u64,
    /// The slot whose total grows.
    pub slot: u32,
    /// By how much.
    pub amount: u64,
}

/// What a hand has done and may still do. Contracts speak of views; no value of the type is ever made, and the lists
/// take no memory as they grow.
pub struct View {
    /// The tickets that the hand drew, in order.
    pub tickets: LinkedList<u64>,
    /// The credits that the hand made, in order.
    pub credits: LinkedList<Credit>,
    /// How often the hand has drawn a number, tickets or not.
    pub made: u64,
    /// How often it may still draw.
    pub left: u64,
}
