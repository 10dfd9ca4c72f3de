//! The records of a GDSII stream, and the numbers and texts in their bodies.
//!
//! `Records` splits the bytes of a stream into records, one after the other up to ENDLIB.
#![tactic(auto)]

pub mod fault;
pub mod fields;
pub mod forms;
pub mod kinds;
pub mod laws;
mod names;
pub mod reals;
pub mod record;
pub mod records;
mod table;

pub use fault::RecordFault;
pub use fields::{i16_at, i32_at, text, u16_at};
pub use names::kind_name;
pub use reals::real_whole;
pub use record::Record;
pub use records::Records;
