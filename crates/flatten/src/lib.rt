//! The placement of a library's shapes, each by one turn and one shift.
//!
//! References and arrays are followed from the top down to each shape on a layer of the map. They and their turns are
//! those of SREF and AREF in the GDSII Stream Format Manual, Release 6.0.
//!
//! `place` works in three steps. A plan is made of the library: for each structure its shapes on mapped layers and its
//! references, how long its longest chain of references is, and how many shapes and points it places (`plan`,
//! `survey`). By these numbers the top is refused or not (`size`). Then what places nothing leaves the plan
//! (`pruning`), and what is left is followed from the top down, each reference as often as it makes copies, with one
//! motion for all steps so far (`expansion`, `way`, `motion`). So each copy that is walked places a shape.
#![tactic(auto)]

mod expansion;
pub mod fault;
pub mod laws;
pub mod limits;
mod marks;
pub mod motion;
mod offset;
mod part;
mod parts;
pub mod placed;
pub mod placing;
mod plan;
mod pruning;
mod ranges;
mod search;
mod size;
mod summary;
mod summing;
mod survey;
mod tops;
mod way;

pub use fault::PlaceFault;
pub use motion::Motion;
pub use placed::Placed;
pub use placing::place;
pub use summing::copies;
pub use tops::tops_of;
