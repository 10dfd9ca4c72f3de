use std::alloc::Global;
use std::fmt::Display;

/// A text that is made piece by piece. It keeps in mind if no memory was left for a piece.
#[derive(Drop)]
pub struct Text {
    text: String,
    is_cut: bool,
}

impl Text {
    /// An empty text.
    pub fn new(alloc: Global) -> Text {
        Text {
            text: String::new(alloc),
            is_cut: false,
        }
    }

    /// Appends a text.
    pub fn say(&mut self, text: &str) {
        if self.text.push_str(text).is_err() {
            self.is_cut = true;
        }
    }

    /// Appends a value as it prints itself.
    pub fn print(&mut self, value: impl Display + Drop) {
        if write!(self.text, "{value}").is_err() {
            self.is_cut = true;
        }
    }

    /// Appends each line of a text, after these words.
    pub fn say_lines(&mut self, before: &str, text: &str) {
        for line in text.split('\n') {
            self.say(before);
            self.say(line);
            self.say("\n");
        }
    }

    /// The text, or that no memory was left for it.
    pub fn shown(&self) -> &str {
        if self.is_cut {
            "no memory is left"
        } else {
            self.text.as_str()
        }
    }
}
