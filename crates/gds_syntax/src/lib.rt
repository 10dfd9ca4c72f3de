//! The library that the bytes of a GDSII stream come to, or the first fault in them.
//!
//! Its structures and their elements are read by the grammar of the GDSII Stream Format Manual, Release 6.0, one record
//! at a time: `library_grammar` says what a library is.
#![tactic(auto)]

mod arrays;
mod checks;
mod element_kind;
mod elements;
mod head;
mod kept;
mod own_records;
mod points;
pub mod read;
mod records;
mod references;
mod shapes;
mod structures;

pub use element_kind::ElementKind;
pub use library_grammar::{
    SyntaxFault, bytes_come_to_something, libraries_agree, places_say_what_may_stand,
};
pub use library_model::{
    Element, Elements, Lattice, Library, NameIndex, Reference, Shape, ShapeKind, Structure,
    Structures,
};
pub use points::point_at;
pub use read::read_library;
