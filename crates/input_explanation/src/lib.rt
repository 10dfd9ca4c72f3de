//! What critarea finds wrong with the words, the map or the layout of a run, in words for people.
//!
//! It reads the same files again by the same readers, in the same order, finds the same first refusal, and tells more
//! of it than a number and a place: the key, the structure by its name, the element. Of good files it tells what the layers
//! hold, and of a layout alone its layers, or a map of them. It counts nothing, so that it needs no nets: what a run finds of
//! them is told by the crate above. It is proved to be safe and to come to an end on every input. Its text is no promise.
#![tactic(auto)]

mod ends;
mod inputs;
mod layouts;
mod maps;
mod path_kinds;
mod remedies;
mod run;
mod telling;
mod words;

pub use command_line::{Request, Word};
pub use ends::{Ended, ended_in, tell_end, tell_found};
pub use layouts::shapes::Held;
pub use maps::good_map::{GoodMap, cut_place, metal_place};
pub use maps::named::{NamedRow, tell_numbers};
pub use path_kinds::{OsPaths, PathKind, Paths};
pub use run::{layers_for, map_for, request_of, tell_asked};
pub use telling::{Explanation, Telling};
pub use words::inquiry::Inquiry;
pub use words::misfit::tell_words;
