//! The bytes of a GDSII stream for a library.
//!
//! They are those of the GDSII Stream Format Manual, Release 6.0. Which records are written is a definition, and the
//! law `written_reads` says that they come to the same library, but for the offsets at which its parts begin: no reader
//! and no writer stands in it. That `read_library` and `write_library` do as defined is what their own contracts say.
#![tactic(auto)]

mod bodies;
mod elements;
pub mod laws;
mod library;

pub use library::write_library;
