//! What words, a layer map and a layout come to.
//!
//! That is the report, the pairs of nets, the probe of a cell, the critical cells of a row as a library, or the first refusal. `run`
//! reads the words, then the map, and then the layout, and looks at nothing behind what is refused (`command`, over the readers of
//! `run_inputs`). Where the words ask for what the map does not have, the layout is not looked at. `analysis` goes from the bytes of a
//! layout to what is asked, over lists of rectangles for each layer. What is due is made whole before its first byte is written
//! (`printing`), so a run that is refused has written nothing but its line. Here the side of texts and the side of faults meet: the
//! cells that the definitions of faults ask about are those that shapes along routes cover (`run_inputs/specs/Coverage.antt`).
#![tactic(auto)]

mod analysis;
mod boxed;
mod command;
mod found;
pub mod laws;
mod printing;
mod words_of_system;

pub use analysis::analyse;
pub use boxed::run_boxed;
pub use command::run;
pub use command_line::{Request, Task, Word, WordsFault, read_words};
pub use critical_areas::{Gate, NoGate};
pub use printing::NO_MEMORY;
pub use run_inputs::LayoutFault;
pub use words_of_system::system_words;
