//! The second program: it hands the words and files of the system to `explanation`.
//!
//! Its words are those of a run, or say how one ended with its words behind. What is said goes to standard output. The status
//! is that of the run, and 0 where it is told how the run ended.
#![tactic(auto)]

use edge_io::OsFiles;
use explanation::{Explanation, OsPaths, Word, answer, answer_untold};
use std::alloc::Global;
use std::env;
use std::io::{self, ErrorKind};
use std::process::ExitCode;
use std::rt::Env;

/// The status where an output failed.
const FAILED: u8 = 5;

/// The status where no memory is left.
const NO_MEMORY: u8 = 6;

/// The words after the program's name.
fn words<R: Env + AllocGlobal>(rt: &R) -> io::Result<Vec<Word>> {
    let mut words = Vec::new(rt.alloc());
    for text in env::args(rt)?.skip(1) {
        words.push(Word::from_string(text))?;
    }
    Ok(words)
}

/// Prints what is said, and gives the status.
fn print(rt: &impl Print, told: &Explanation) -> u8 {
    match rt.print(told.text.as_str()) {
        Ok(()) => told.status,
        Err(_) => FAILED,
    }
}

fn main(rt: HostRuntime) -> ExitCode {
    let mut files = OsFiles::new(&rt);
    let paths = OsPaths::new(&rt);
    let told = match words(&rt) {
        Ok(words) => answer(rt.alloc(), words.as_slice(), &mut files, &paths),
        Err(error) if error.kind() == ErrorKind::OutOfMemory => return ExitCode::from(NO_MEMORY),
        Err(_) => answer_untold(rt.alloc()),
    };
    match told {
        Ok(told) => ExitCode::from(print(&rt, &told)),
        Err(_) => ExitCode::from(NO_MEMORY),
    }
}
