//! Gauges, objects that are told the rows of a report and print a text at its end.
#![tactic(auto)]

pub mod gauge;
pub mod laws;
pub mod nonzero;
pub mod pair_gauge;
pub mod pair_row;
mod pair_rows;
pub mod pair_telling;
pub mod peak;
pub mod telling;
pub mod worst;

pub use gauge::Gauge;
pub use nonzero::Nonzero;
pub use pair_gauge::PairGauge;
pub use pair_row::PairRow;
pub use pair_telling::{append_pair_texts, tell_pair_row};
pub use peak::Peak;
pub use telling::{append_texts, tell};
pub use worst::Worst;
