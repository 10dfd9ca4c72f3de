//! Whole runs that no row of a table can give: gates that hold workers, devices that fail at each call and behind each byte in turn,
//! gauges that go on from run to run, and files that are too large to be written down.
//!
//! All other runs are rows of tables (`run_rows`). Each answer was worked out by hand. The crate has tests alone.
#![tactic(auto)]

#[cfg(test)]
mod cut_files;
#[cfg(test)]
mod devices;
#[cfg(test)]
mod gated;
#[cfg(test)]
mod gauged;
#[cfg(test)]
mod runs;
#[cfg(test)]
mod trials;
#[cfg(test)]
mod words_of_the_system;
