//! What rows of `area_calls` cannot say of the calls on the way to areas: steps that are counted, a tree that is changed in turn, long
//! lists of pairs, and a fault without a layout. Each answer was worked out by hand. The crate has tests alone.
#![tactic(auto)]

#[cfg(test)]
mod fault;
#[cfg(test)]
mod links;
#[cfg(test)]
mod pairs;
#[cfg(test)]
mod sweeps;
