//! Layer maps: what is wrong with them, and where it stands.

pub mod faults;
pub mod good_map;
pub mod lines;
pub mod named;
pub mod parting;
pub mod wanted;
