//! The program `critarea`.
//!
//! Its words, the files of the system, its standard output and error are handed to a run with the gauges `Peak` and
//! `Nonzero`, and `Worst` for pairs of nets.
#![tactic(auto)]

use program::{run_gauged, run_program};
use std::process::ExitCode;

fn main(rt: HostRuntime) -> ExitCode {
    run_program(&rt, rt.stdout(), rt.stderr(), |words, files, out, err| {
        run_gauged(&rt, rt.alloc(), words, files, out, err)
    })
}
