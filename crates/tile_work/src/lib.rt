//! Workers that share the tickets of a board.
//!
//! Each of them draws tickets with a hand of its own and credits their amounts, all at once, and what they credited in
//! all is the same for any number of workers and any order of their steps, where each ticket has one amount for each
//! slot (`laws::sums_agree`). A job says what the amounts are (`TileJob`), and a gate sees each ticket as it is drawn
//! (`Gate`).
//!
//! `run_tiles` takes the draws of no more workers than there are tickets, and leaves the others with its hand. It
//! splits what it took by halves until there is a hand for each worker, has these work by fork and join, and joins them
//! again before it answers. Each worker has a draw for each ticket and one more, so it goes on until a number is none,
//! whatever the others draw. The worker that finds no memory stops, and the others go on to their end. `close_sums`
//! then gives the totals. That two threads ran at once, which of them drew which ticket, and that a thread gets on, no
//! clause says.
#![tactic(auto)]

pub mod gate;
pub mod job;
pub mod laws;
pub mod sums;
pub mod tiles;
mod working;

pub use gate::{Gate, NoGate};
pub use job::TileJob;
pub use sums::close_sums;
pub use tiles::{MOST_WORKERS, run_tiles};
