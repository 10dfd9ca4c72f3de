//! Why a run of the program ended as it did: what its status and its line mean, if reading its words and files again finds
//! something else, or if nothing was to be read.

use crate::inputs::{FAILED, READ_ONCE};
use crate::maps::faults::{place_of, tell_place};
use crate::maps::named::tell_size_count;
use crate::remedies::{Remedy, known_remedy};
use crate::telling::{Explanation, Telling};
use command_line::Word;
use layer_map::{Measure, Place};

/// The word in front of a status, a line and the words of the run that ended so.
const ENDED: &str = "--ended";

/// The greatest status that no signal gives.
const LAST_STATUS: u8 = 128;

/// What is said of a signal behind its number.
fn words_of(signal: u8) -> &'static str {
    match signal {
        2 => ", the interrupt of a keyboard",
        9 =>
            ", as the system does where memory is short; use a machine with more of it, or take a part of the layout",
        11 => ", as where its stack is too deep; file an issue with the layout and the words",
        15 => ", which asks it to end",
        _ => "",
    }
}

/// How a run of the program ended.
#[derive(Clone, Copy)]
pub struct Ended<'a> {
    /// Its status. A signal gives 128 and its number.
    pub status: u8,
    /// What it wrote to standard error.
    pub line: &'a str,
    /// Its words.
    pub words: &'a [Word],
}

impl Ended<'_> {
    /// The number and the place in the line, and 0 for both where the line is no refusal.
    fn refusal(&self) -> (u64, u64) {
        if let Some(rest) = self.line.strip_prefix("error ")
            && let Some(rest) = rest.strip_suffix('\n')
            && let Some((number, place)) = rest.split_once(" at ")
            && let (Ok(number), Ok(place)) = (number.parse::<u64>(), place.parse::<u64>())
        {
            return (number, place);
        }
        (0, 0)
    }

    /// Whether files and words are worth a second look.
    pub fn is_of_files(&self) -> bool {
        self.status <= FAILED && self.status != 1
    }
}

/// Tells which place of a map is meant whose document is not known, so that its sizes may be radii or sides.
fn tell_map_place(told: &mut Telling, place: u64) {
    let of_radii = place_of(place, Measure::Radius);
    let of_sides = place_of(place, Measure::Side);
    // What stands beside sides alone has no place of its own beside radii.
    if of_radii != of_sides && of_radii != Place::Document {
        tell_place(told, None, of_radii);
        told.say(" or ");
    }
    tell_place(told, None, of_sides);
}

/// Tells what the row of a status and a number is about, where its place is this and the meaning does not name it.
fn tell_subject(told: &mut Telling, status: u8, number: u64, row: Remedy, place: u64) {
    match (status, number) {
        (3, 39) | (3, 40) | (3, 49) | (4, 9) | (4, 27) => {}
        (3, 48) => {
            told.say("the map, which lists ");
            tell_size_count(told, place);
            told.say(": ");
        }
        (3, _) => {
            told.say("the map, ");
            tell_map_place(told, place);
            told.say(": ");
        }
        (4, 50) => {
            let number = place.saturating_add(1);
            told.number("the layout, [[terminal]] number ", number, " of the map: ");
        }
        (4, _) => {
            told.word("the layout, ", row.place, " at byte ");
            told.number("", place, ": ");
        }
        _ => {}
    }
}

/// Tells what a status and a line mean by themselves.
fn tell_meaning(told: &mut Telling, ended: &Ended<'_>) {
    let (number, place) = ended.refusal();
    match known_remedy(ended.status, number) {
        Some(row) => {
            tell_subject(told, ended.status, number, row, place);
            told.word("", row.meaning, "; ");
            told.word("", row.remedy, "\n");
        }
        None => told.number(
            "the program ended with status ",
            u64::from(ended.status),
            " in a way that docs/REFUSALS.md does not have; file an issue with the words and the files\n",
        ),
    }
}

/// Tells why the run ended so by its status and its line alone.
pub fn tell_end(told: &mut Telling, ended: &Ended<'_>) {
    if ended.status <= LAST_STATUS {
        tell_meaning(told, ended);
        return;
    }
    let signal = ended.status - LAST_STATUS;
    told.number("the program was stopped by signal ", u64::from(signal), "");
    told.word("", words_of(signal), "\n");
}

/// Tells what was found, in lines that begin with two spaces.
fn tell_further_in(told: &mut Telling, found: &Explanation) {
    for line in found.text.as_str().split('\n') {
        if !line.is_empty() {
            told.word("  ", line, "\n");
        }
    }
}

/// Tells why the run ended so by what is found when its words and files are read again.
pub fn tell_found(told: &mut Telling, ended: &Ended<'_>, found: &Explanation) {
    match found.text.as_str().strip_prefix(ended.line) {
        Some(behind) if found.status == ended.status => told.say(behind),
        _ => tell_other_end(told, ended, found),
    }
}

/// Tells why the run ended so where reading its words and files again comes to another end.
fn tell_other_end(told: &mut Telling, ended: &Ended<'_>, found: &Explanation) {
    tell_meaning(told, ended);
    if found.status == READ_ONCE {
        tell_further_in(told, found);
    } else if ended.status == FAILED {
        told.say(
            "  read again, each file can be read: it was an output, or what stands there has changed\n",
        );
    } else if found.status == 0 {
        told.say("  read again, nothing is wrong: what stands there has changed\n");
    } else {
        told.say("  read again, it ends otherwise: what stands there has changed\n");
        tell_further_in(told, found);
    }
}

/// How a run ended, if the first three words tell it: `--ended`, the status, and the line that the program wrote.
pub fn ended_in(words: &[Word]) -> Option<Ended<'_>> {
    let [first, status, line, words @ ..] = words else {
        return None;
    };
    match status.as_str().parse::<u8>() {
        Ok(status) if first.as_str() == ENDED => Some(Ended {
            status,
            line: line.as_str(),
            words,
        }),
        _ => None,
    }
}
