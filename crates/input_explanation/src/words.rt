//! The words of a run: what is wrong with them, and what they ask for.

pub mod asked;
pub mod inquiry;
pub mod misfit;
