//! Texts that are made of parts, and those of faults.

use row_tables::{Case, Text};

/// The bytes as text.
pub fn text_of(bytes: &[u8]) -> &str {
    std::str::from_utf8(bytes).unwrap_or("no text")
}

/// Appends the number and the place of a fault.
pub fn print_fault(text: &mut Text, number: u8, place: u64) {
    text.print(number);
    text.say(" at ");
    text.print(place);
}

/// Compares the number and the place of a fault with what the row gives.
pub fn expect_fault(case: &mut Case<'_>, number: u8, place: u64) {
    let mut text = Text::new(case.alloc);
    print_fault(&mut text, number, place);
    case.expect_text("gives", text.shown());
}

/// Appends the part with the number in place of each `#`.
fn push_numbered(text: &mut Text, part: &str, number: i32) {
    for (place, piece) in part.split('#').enumerate() {
        if place > 0 {
            text.print(number);
        }
        text.say(piece);
    }
}

/// The text of a row's `parts`: each as often as `times` says, with a number that rises from `first` in place of each `#`.
pub fn joined(case: &mut Case<'_>) -> Text {
    let parts = case.texts("parts");
    let times = case.numbers::<i32>("times");
    let first = case.numbers::<i32>("first");
    let numbers = times.as_slice().iter().zip(first.as_slice());
    let mut text = Text::new(case.alloc);
    for (part, (times, first)) in parts.as_slice().iter().zip(numbers) {
        for number in *first..first.saturating_add(*times) {
            push_numbered(&mut text, part, number);
        }
    }
    text
}
