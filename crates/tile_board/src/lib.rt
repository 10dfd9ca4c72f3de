//! A board on which threads share numbered work.
//!
//! Hands draw *tickets*, the numbers below a bound, each once, and *credit* amounts to the totals of *slots*, on
//! account of a ticket that they drew. All hands draw at once, no call waits, and the totals are exact for every order
//! of their steps. A hand is split in two so that another thread may have the one of them, and joined again; the hand
//! that closes the board gets the totals.
//!
//! `specs/Machine.antt` says this as a machine: a state has the number that is drawn next, the totals, and for each
//! hand a *view*, its tickets, its credits, and how many draws it has made and has left. `specs/Sound.antt` says what
//! holds at any time:
//!
//! - As many draws were made as numbers are gone. Those made and those left are all. No hand has more tickets than it
//!   made draws.
//! - The hands together have each ticket whose number is gone, once.
//! - Each credit is for a ticket of its hand and at most the cap, and no two of a hand are for one ticket and slot.
//! - Each total is the sum of the credits of all hands to its slot.
//!
//! Events that are allowed lead to such states only (`board_runs`), so no ticket and slot is credited twice
//! (`credits_are_single`), and no total passes tickets times cap (`totals_are_bounded`), which is below 2^63.
//!
//! A board that runs is a row of words, the next number and the totals, and a hand is one number, its draws left; views
//! are known to proofs alone, and take no memory as they grow. `atomic_table` of the toolchain keeps a rule between any
//! two steps of any threads: the words and all views are a sound state (`rule`). What a step cannot see of its call,
//! such as the ticket of a credit, is a parameter of its type, so a draw and a credit are one instruction each.
//!
//! Two hands on a board of 2 tickets, one slot and 4 draws; `0:3` is a credit of 3 for ticket 0:
//!
//! ```text
//! event                          next total  first: tickets; credits; made, left    second
//! open                           0    0      none; none; 0, 4
//! the first gives 2 draws away   0    0      none; none; 0, 2                       none; none; 0, 2
//! the second draws 0, a ticket   1    0      none; none; 0, 2                       0; none; 1, 1
//! the first draws 1, a ticket    2    0      1; none; 1, 1                          0; none; 1, 1
//! the first credits 5            2    5      1; 1:5; 1, 1                           0; none; 1, 1
//! the second draws 2, no ticket  3    5      1; 1:5; 1, 1                           0; none; 2, 0
//! the second credits 3           3    8      1; 1:5; 1, 1                           0; 0:3; 2, 0
//! the second joins the first     3    8      0, 1; 0:3, 1:5; 3, 1                   none; none; 0, 0
//! ```
//!
//! The first closes the board. It has made 3 draws and has 1 left, all 4: so no other view has any, and the total is
//! what its own credits come to. It drew more than it has tickets, so some number was none, and all tickets were drawn.
//! Had the second hand been dropped, the first would know only that the total is no less than its own 5.
#![tactic(auto)]

pub mod board;
pub mod laws;
mod rule;
pub mod views;

pub use board::{Board, Hand};
pub use views::{Credit, Limits, MOST_DRAWS, MOST_SLOTS, View};
