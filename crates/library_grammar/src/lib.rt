//! What a library is in the records of a GDSII stream, and what its first fault is: definitions and laws.
//!
//! The grammar is that of the GDSII Stream Format Manual, Release 6.0. The definitions stand in `specs/`. The crate has
//! no code but laws and the type of faults.
//!
//! A definition that reads records one by one is the reader over again, with the reader's mistakes. So a library is
//! said by whole lists: `specs/Grammar.antt` takes an element, a structure and a library apart into their records, and
//! says which of these are in shape, on one page that can be laid beside the manual's syntax. A record may stand where
//! some list in shape goes on with it (`MayStand`), so the first that may not is the one with which no list in shape
//! can go on. Which library it is, the same parts say (`specs/Libraries.antt`), with no reader in between.
//!
//! Readers are proved against `specs/Places.antt`, which goes one record at a time: a place, a kind, the next place.
//! The law `places_say_what_may_stand` joins the two: behind records that lead to a place, what may stand is what the
//! place has a next one for. The one direction needs, from each place, a way to the end of a library; the other, that a
//! beginning of a list in shape never runs out of places.
#![tactic(auto)]

pub mod fault;
pub mod laws;

pub use fault::SyntaxFault;
pub use laws::{
    bytes_come_to_something, libraries_agree, names_differ, places_say_what_may_stand,
    shapes_are_well_pointed,
};
