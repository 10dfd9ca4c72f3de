//! Which questions a layer map asks, in their order, and the rows that answer them.
//!
//! Whoever computes areas and whoever prints them stands on this crate, and neither on the other.
#![tactic(auto)]

pub mod kind;
pub mod question;
pub mod row;

pub use kind::Kind;
pub use question::{Question, questions_of};
pub use row::{MOST_ROWS, Row};
