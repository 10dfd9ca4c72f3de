//! The first refusal of an input that is read stage by stage: definitions and laws.
//!
//! Stages come one after the other, and checks in their order. Whatever reads input states its refusals in these words.
//! The definitions stand in `specs/`. The crate has no code but laws: each is a function with an empty body, and its
//! contract says what holds of the definitions.
#![tactic(auto)]

pub mod checks;
pub mod stages;

pub use checks::{
    CheckList, all_hold_or_one_fails, checks_agree, checks_cannot_lack_an_outcome,
    first_failures_agree, first_refusals_agree, nothing_fails_where_all_hold,
};
pub use stages::{
    Readable, Stage, Stages, readings_agree, readings_cannot_lack_an_outcome, retold_stages_agree,
    retold_stages_cannot_lack_an_outcome, stages_agree, stages_cannot_lack_an_outcome,
};
