//! The numbers of the nets of one metal of a layout: definitions and laws.
//!
//! On each metal nets are numbered from 0 by their first cells, row by row from below, each row from the left. `net_numbers` computes
//! such numbers from labelled pieces. Here stands what a number is in the terms of the layout, which pairs of nets and the nets
//! near a cell share.
#![tactic(auto)]

pub mod laws;
