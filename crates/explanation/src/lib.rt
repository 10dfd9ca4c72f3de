//! What critarea finds in a run, in words for people: what is wrong with its input, or what it tells of nets.
//!
//! What is wrong with the words, the map or the layout is told by the crate below. Of good ones this crate tells what the run finds
//! in them: the worst pairs of nets, the nets that are nearest to a cell, or the critical cells of a row. Why a run ended as it did
//! is told by reading its words and its files once more, and that it tells the number and the place of the run is tested. It is
//! proved to be safe and to come to an end on every input. Its text is no promise, and may change.
#![tactic(auto)]

mod answers;
mod covered;
mod nearest_nets;
mod net_starts;
mod regions;
mod worst_pairs;

pub use answers::{answer, answer_untold};
pub use input_explanation::{Explanation, OsPaths, PathKind, Paths, Word};
