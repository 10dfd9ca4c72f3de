//! The files of a run, read for the first time, or once more after a run that has read them.

ghost use Rattle.std.specs.Prelude.{◌≤◌, IfSome, length};
ghost use Rattle.input_explanation.specs.declared.inputs.TheConstants.{LONGEST_LAYOUT};

use crate::path_kinds::{PathKind, Paths};
use crate::remedies::remedy_of;
use crate::telling::Telling;
use edge_io::{Files, ReadError, read_whole};

/// The status of a run in which a file or an output failed.
pub const FAILED: u8 = 5;

/// The status that stands for a file that cannot be read a second time. No run ends with it.
pub const READ_ONCE: u8 = 8;

/// The most bytes that a layout may have.
pub const LONGEST_LAYOUT: usize = 268_435_456;

/// The most bytes that a map may have.
const LONGEST_MAP: usize = 1_048_576;

/// What a file is to a run.
#[derive(Clone, Copy)]
pub enum Input {
    Map,
    Layout,
}

impl Input {
    /// How it is called.
    pub fn word(self) -> &'static str {
        match self {
            Input::Map => "map",
            Input::Layout => "layout",
        }
    }

    /// The most bytes that it may have.
    fn limit(self) -> usize
        ensures { result ≤ LONGEST_LAYOUT }
    {
        match self {
            Input::Map => LONGEST_MAP,
            Input::Layout => LONGEST_LAYOUT,
        }
    }
}

/// Why a file that could not be read could not, in words.
fn words_of(kind: PathKind) -> &'static str {
    match kind {
        PathKind::Missing => "there is no such file",
        PathKind::Forbidden =>
            "the system does not let it be looked at; see who may enter its folder",
        PathKind::Folder => "this is a folder, and a file is wanted",
        PathKind::Pipe => "this is a pipe or a socket, and it cannot be read; save it as a file",
        PathKind::Device => "this is a device, and it cannot be read; save it as a file",
        PathKind::File => "the file is there and cannot be read; see who may read it",
        PathKind::Untold => "the system cannot reach it",
    }
}

/// Why a second reading would not find what the first one did, in words, where that is so.
fn words_of_once(kind: PathKind) -> Option<&'static str> {
    match kind {
        PathKind::Pipe => Some(
            "this is a pipe, which cannot be read a second time; save it as a file to be told more",
        ),
        PathKind::Device => Some(
            "this is a device, which cannot be read a second time; save it as a file to be told more",
        ),
        _ => None,
    }
}

/// Tells in these words why a file is not read.
fn tell_unread(told: &mut Telling, input: Input, name: &[u8], words: &str) {
    told.say(input.word());
    told.name(" ", name, ": ");
    told.word("", words, "\n");
}

/// Tells that a file is too long.
fn tell_too_long(told: &mut Telling, input: Input, name: &[u8]) {
    let limit = input.limit() as u64;
    let (status, number) = match input {
        Input::Map => (3, 39),
        Input::Layout => (4, 9),
    };
    told.refuse(status, number, limit);
    told.say(input.word());
    told.name(" ", name, ": it has more than ");
    told.number("", limit, " bytes; ");
    told.word("", remedy_of(status, number).remedy, "\n");
}

/// What the file contains, if it can be read, after a run a second time, and is not too long. Otherwise it is told why not.
pub fn read_input<F: Files, P: Paths>(
    told: &mut Telling,
    files: &mut F,
    paths: &P,
    input: Input,
    name: &[u8],
) -> Option<Vec<u8>>
    ensures { IfSome result (λ bytes. length bytes.items ≤ LONGEST_LAYOUT) }
{
    let kind = paths.kind(name);
    if told.is_behind_run {
        if let Some(words) = words_of_once(kind) {
            told.status = READ_ONCE;
            tell_unread(told, input, name, words);
            return None;
        }
    }
    match read_whole(told.alloc, files, name, input.limit()) {
        Ok(bytes) => return Some(bytes),
        Err(ReadError::TooLong) => tell_too_long(told, input, name),
        Err(ReadError::Memory) => told.lose(),
        Err(ReadError::Fault) => {
            told.status = FAILED;
            tell_unread(told, input, name, words_of(kind));
        }
    }
    None
}
