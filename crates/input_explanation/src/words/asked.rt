//! Words that are no run, but ask for the layers of a layout: its name, maybe its top, and maybe that they are to come as a
//! map.

use command_line::{Word, is_plain};

/// The word that asks for a map of a layout's layers.
pub const MAP_SKELETON: &str = "--map-skeleton";

/// What is asked for.
#[derive(Clone, Copy)]
pub struct Asked<'a> {
    /// The name of the layout, and nothing where none is given yet.
    pub layout: &'a [u8],
    pub top: Option<&'a [u8]>,
    /// Whether the layers are to come as a map.
    pub as_map: bool,
    /// Whether the next word is the name of the top.
    awaits_top: bool,
    /// Whether no word is an option any more.
    is_behind_dashes: bool,
}

impl<'a> Asked<'a> {
    /// Takes the name of a top; whether none was given yet.
    fn take_top(&mut self, name: &'a str) -> bool {
        let is_first = self.top.is_none() && !name.is_empty();
        self.top = Some(name.as_bytes());
        self.awaits_top = false;
        is_first
    }

    /// Takes one word more; whether it may stand there.
    fn take(&mut self, word: &'a str) -> bool {
        if self.awaits_top {
            return is_plain(word) && self.take_top(word);
        }
        if self.is_behind_dashes || is_plain(word) {
            let is_first = self.layout.is_empty() && !word.is_empty();
            self.layout = word.as_bytes();
            return is_first;
        }
        match word {
            "--" => self.is_behind_dashes = true,
            "--top" => self.awaits_top = true,
            _ if word == MAP_SKELETON && !self.as_map => self.as_map = true,
            _ => {
                return match word.strip_prefix("--top=") {
                    Some(name) => self.take_top(name),
                    None => false,
                };
            }
        }
        true
    }
}

/// What the words ask for, where they ask for layers.
pub fn asked_of(words: &[Word]) -> Option<Asked<'_>> {
    let mut asked = Asked {
        layout: b"",
        top: None,
        as_map: false,
        awaits_top: false,
        is_behind_dashes: false,
    };
    for word in words {
        if !asked.take(word.as_str()) {
            return None;
        }
    }
    if asked.awaits_top || asked.layout.is_empty() {
        return None;
    }
    Some(asked)
}
