//! Boards that hand out the numbers of tiles, workers that share a board, and small calls of the geometry. Most calls of the geometry
//! are rows of `area_calls`. The crate has tests alone.
#![tactic(auto)]

#[cfg(test)]
mod board_threads;
#[cfg(test)]
mod boards;
#[cfg(test)]
mod jobs;
#[cfg(test)]
mod small_calls;
#[cfg(test)]
mod workers;
