//! What a run reads before anything is counted: the map and the layout that a request names, the query resolved against the map, and
//! the shapes on layers; or the first refusal.
//!
//! The map and the layout are in files that the request names, or the request makes them (`sources`), and no other file is started.
//! What the request asks for is looked up in the map, which may lack it (`query`, `named_layers`). The shapes that a library places
//! become lists of rectangles, one for each layer of the map (`layers`): the cells that the definitions of faults ask about are those
//! that shapes along routes cover (`specs/Coverage.antt`). Each stage comes to its value or to the first thing that is wrong
//! (`specs/Verdict.antt`), which has a number and a place (`refusal`, `layout_fault`).
#![tactic(auto)]

mod layers;
mod layout_fault;
mod named_layers;
mod query;
mod refusal;
mod sources;
mod unreported;

pub use layers::layers_of_library;
pub use layout_fault::LayoutFault;
pub use query::{ListedSize, Query, query_of};
pub use refusal::Refusal;
pub use sources::{layout_for, map_for};
pub use unreported::Unreported;
