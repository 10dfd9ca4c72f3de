//! What a square defect does in a layout, and what an area is: definitions and laws.
//!
//! These are shorts, opens and via blocks, the islands and nets that these speak of, and areas as tallies of cells. The
//! definitions stand in `specs/`. The code is the types `Island` and `Spot`, whose facts these are, and laws: each is a
//! function with an empty body, and its contract says what holds of the definitions.
//!
//! Nothing here knows of texts. Which cells each metal and each cut covers is a parameter,
//! `covers : ℕ → Cell → Type 0`, which `critical_areas` fills with what lists of rectangles cover, and `critarea_core`
//! with what placed shapes cover. So another way to read layouts changes no definition of a fault, and another kind of
//! fault changes no reader.
#![tactic(auto)]

pub mod faults;
pub mod island;
pub mod nets;
pub mod sets;
pub mod sizes;
pub mod tallies;
pub mod terminals;
pub mod walks;
pub mod windows;

pub use faults::{
    blocks_are_near_whole_clusters, clusters_are_classes, larger_sides_keep_faults,
    shorts_are_near_two_nets, sides_as_halves,
};
pub use island::{Island, Spot, Spots};
pub use nets::{
    contacts_join, cuts_without_contacts_join_nothing, islands_lie_in_nets, nets_are_classes,
    nets_keep_to_metals, nets_without_cuts_are_islands,
};
pub use sets::{HalfSet, Layout, Property};
pub use sizes::{footprints_come_near, radii_reach, side_0_touches_none, sides_reach};
pub use tallies::{
    tallies_add, tallies_agree, tallies_are_bounded, tallies_follow_truth, tallies_grow,
    tallies_ignore_order, tallies_of_nothing, tests_have_tallies,
};
pub use terminals::{
    cells_are_tied_as_wholes, covered_terminals_are_parted, no_terminal_is_parted,
    no_vias_are_cells, one_terminal_is_not_parted,
};
pub use walks::{
    corners_do_not_join, edges_join, half_squares_have_one_cell, islands_are_classes,
    walks_are_chains, walks_are_lists, walks_join, walks_turn_round,
};
pub use windows::{
    cells_are_listed_once, faults_stay_in_windows, touches_stay_in_windows, windows_agree,
};
