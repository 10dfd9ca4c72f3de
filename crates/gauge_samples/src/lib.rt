//! Gauges for tests of those that call gauges: one that counts how often it is dropped, and some that no caller should trust. Each
//! keeps the clauses of a gauge, so whoever calls gauges is to get along with them.
#![tactic(auto)]

mod counted;
mod gauge_kinds;
mod hostile;
mod pair_hostile;

pub use counted::Counted;
pub use gauge_kinds::{GaugeKind, PairGaugeKind};
pub use hostile::{Mute, Silent, Tight};
pub use pair_hostile::{CountedPairs, MutePairs, PairAreas, TightPairs};
