//! The text of a report: its rows, and the totals of their products.
//!
//! A row is an area with its weight, and gets a line.
#![tactic(auto)]

mod text;
mod totals;

pub use questions::{Kind, MOST_ROWS, Row};
pub use text::{letter, write_report};
pub use totals::product;
