//! Words as the system tells them.

use critarea_core::{Word, system_words};
use std::alloc::Global;
use std::env::FillError;
use std::rt::Env;

/// A system that was handed these words, the program's name before them.
#[derive(Drop)]
struct Told(&'static [&'static [u8]]);

impl Env for Told {
    fn arg(&self, i: usize, buf: &mut [u8]) -> Result<usize, FillError> {
        let Some(word) = self.0.get(i) else {
            return Err(FillError::NotPresent);
        };
        if buf.len() < word.len() {
            return Err(FillError::TooLong);
        }
        buf[..word.len()].copy_from_slice(word);
        Ok(word.len())
    }

    fn var(&self, _name: &str, _buf: &mut [u8]) -> Result<usize, FillError> {
        Err(FillError::NotPresent)
    }

    fn var_at(&self, _i: usize, _buf: &mut [u8]) -> Result<usize, FillError> {
        Err(FillError::NotPresent)
    }
}

/// A word that is longer than the room that is tried first.
const LONG: &[u8] = &[b'x'; 300];

/// What the system was handed, and whether it is told as words, with the program's name left out, or ends with the status 7.
const ROWS: &[(&[&[u8]], bool)] = &[
    (&[b"critarea"], true),
    (&[b"critarea", b"a", b"--layer"], true),
    // empty words are words
    (&[b"critarea", b"", b"a", b""], true),
    (&[b"critarea", LONG], true),
    // words that are no UTF-8
    (&[b"critarea", b"\xff"], false),
    (&[b"critarea", b"a", b"\xc3"], false),
];

/// Whether these are the words.
fn are(words: &[Word], wanted: &[&[u8]]) -> bool {
    if words.len() != wanted.len() {
        return false;
    }
    for (word, text) in words.iter().zip(wanted) {
        if word.as_str().as_bytes() != *text {
            return false;
        }
    }
    true
}

/// Whether the system's words are told as texts, or end with the status 7.
fn are_told(alloc: Global, handed: &'static [&'static [u8]], as_texts: bool) -> bool {
    match system_words(&(Told(handed), alloc)) {
        Ok(words) => as_texts && are(words.as_slice(), &handed[handed.len().min(1)..]),
        Err(status) => !as_texts && status == 7,
    }
}

#[test]
fn words_of_the_system_are_told(rt: HostRuntime) {
    for (number, (handed, as_texts)) in ROWS.iter().enumerate() {
        let holds = are_told(rt.alloc(), *handed, *as_texts);
        assert!(rt; holds, "row {number}");
    }
}
