//! Steps that sweeps and their trees take.

mod step_rows;
mod tree_rows;
