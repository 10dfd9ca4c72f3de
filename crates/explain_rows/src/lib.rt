//! What is told of faulty runs, from tables of text.
//!
//! Each `[[explanation]]` gives words and files, and the status and the text that are told of them. The keys of a row:
//!
//! - `words`: the command line, one word after the other.
//! - The layout, which is the file `a`, and the map, which is the file `m`, as `row_files` reads them. A row without a layout or a map has
//!   no such file. The map may be what is told of other words, `map_said`, with the same layout.
//! - `at`: the name of an `[at.NAME]`, whose `text` says what stands at names, as `told` reads it.
//! - `status`, and `says`: the whole text, after that of the `[before.NAME]` which `before` names, and before that of the `[after.NAME]`
//!   which `after` names. In its place may stand `starts` and `ends`, how the text begins and ends.
#![tactic(auto)]

mod told;

use row_files::shared_text;
use row_tables::{Case, Text};

/// Checks a row, if it is an explanation, and answers whether it is one.
pub fn check(case: &mut Case<'_>) -> bool {
    if case.kind != "explanation" {
        return false;
    }
    let told = told::told(case);
    case.expect("status", told.status);
    if case.has("starts") {
        expect_ends(case, told.text.as_str());
    } else {
        expect_whole(case, told.text.as_str());
    }
    true
}

/// Compares a text with the whole one that the row wants.
fn expect_whole(case: &mut Case<'_>, came: &str) {
    let mut wanted = Text::new(case.alloc);
    wanted.say(shared_text(case, "before"));
    if case.has("says") {
        wanted.say(case.text("says"));
    }
    wanted.say(shared_text(case, "after"));
    case.compare("says", wanted.shown(), came);
}

/// Compares how a text begins and ends with what the row wants.
fn expect_ends(case: &mut Case<'_>, came: &str) {
    let starts = case.text("starts");
    let ends = case.text("ends");
    let rest = came.len().saturating_sub(ends.len());
    case.compare("starts", starts, came.get(..starts.len()).unwrap_or(came));
    case.compare("ends", ends, came.get(rest..).unwrap_or(came));
}
