//! What is said of a run, put together piece by piece.

use lists::NoMemory;
use std::alloc::Global;
use std::fmt::Display;

/// The most bytes of a name or a value that are shown.
const MOST_SHOWN: usize = 256;

/// What is said of a run.
#[derive(Drop)]
pub struct Explanation {
    /// The status with which the run ends, and 8 if a file cannot be read a second time.
    pub status: u8,
    /// The line that the run prints if it refuses its input, and then the words.
    pub text: String,
}

/// What is said of a run so far. Where no memory is left for a piece, or for something that is to be told, the text stays
/// without it and keeps that in mind, so that whoever tells has no failure to pass on. Most pieces come with what stands in
/// front of them and behind them.
#[derive(Drop)]
pub struct Telling {
    /// The allocator for all that is read and found.
    pub alloc: Global,
    /// Whether the run came before and has read its files, so that a pipe has nothing more.
    pub is_behind_run: bool,
    /// The status with which the run ends, and 8 where a file cannot be read a second time.
    pub status: u8,
    /// The line that the run prints, where it refuses its input, and then the words.
    text: String,
    /// Whether no memory was left for a part of it.
    is_cut: bool,
}

impl Telling {
    /// Nothing yet, where a run may have come before.
    pub fn new(alloc: Global, is_behind_run: bool) -> Telling {
        Telling {
            alloc,
            is_behind_run,
            status: 0,
            text: String::new(alloc),
            is_cut: false,
        }
    }

    /// Puts a piece behind it.
    pub fn say(&mut self, piece: &str) {
        if self.text.push_str(piece).is_err() {
            self.is_cut = true;
        }
    }

    /// Puts a word behind it.
    pub fn word(&mut self, before: &str, word: &str, after: &str) {
        self.say(before);
        self.say(word);
        self.say(after);
    }

    /// Puts a number behind it.
    pub fn number(&mut self, before: &str, number: u64, after: &str) {
        self.say(before);
        if write!(self.text, "{number}").is_err() {
            self.is_cut = true;
        }
        self.say(after);
    }

    /// Puts a text behind it, with a number in each of its gaps, which are written `{}`.
    pub fn numbers(&mut self, text: &str, numbers: &[u64]) {
        let mut rest = text;
        for number in numbers {
            if let Some((before, behind)) = rest.split_once("{}") {
                self.number(before, *number, "");
                rest = behind;
            }
        }
        self.say(rest);
    }

    /// Puts a number with its sign behind it.
    pub fn signed(&mut self, before: &str, number: i64, after: &str) {
        self.say(before);
        let sign = if number < 0 { "-" } else { "" };
        self.number(sign, number.unsigned_abs(), after);
    }

    /// Puts a point or a cell behind it.
    pub fn point(&mut self, before: &str, x: i32, y: i32, after: &str) {
        self.say(before);
        self.signed("(", i64::from(x), ", ");
        self.signed("", i64::from(y), ")");
        self.say(after);
    }

    /// Puts a name behind it, in quotes.
    pub fn name(&mut self, before: &str, name: &[u8], after: &str) {
        self.word(before, "'", "");
        self.raw(name);
        self.word("'", after, "");
    }

    /// Puts what a file says behind it: printable ASCII as it is, and each other byte, a quote and a backslash as `\x` with
    /// its two digits. Of many bytes the first are shown, and two dots behind them.
    pub fn raw(&mut self, bytes: &[u8]) {
        for byte in &bytes[..bytes.len().min(MOST_SHOWN)] {
            self.byte(*byte);
        }
        if bytes.len() > MOST_SHOWN {
            self.say("..");
        }
    }

    /// Puts a byte behind it.
    fn byte(&mut self, byte: u8) {
        let put = match byte {
            b' '..=b'&' | b'('..=b'[' | b']'..=b'~' => self.text.push(char::from(byte)).is_ok(),
            _ => write!(self.text, "\\x{byte:02x}").is_ok(),
        };
        self.is_cut = self.is_cut || !put;
    }

    /// Puts a value behind it as it prints itself, shown as what a file says.
    pub fn value<T: Display>(&mut self, value: &T) {
        match format!(in self.alloc; "{value}") {
            Ok(shown) => self.raw(shown.as_str().as_bytes()),
            Err(_) => self.lose(),
        }
    }

    /// Puts an item behind others that are to be told.
    pub fn keep<T: Drop>(&mut self, items: &mut Vec<T>, item: T) {
        if items.push(item).is_err() {
            self.is_cut = true;
        }
    }

    /// Keeps in mind that no memory was left for a part of it.
    pub fn lose(&mut self) {
        self.is_cut = true;
    }

    /// Whether no memory was left for a part of it.
    pub fn is_cut(&self) -> bool {
        self.is_cut
    }

    /// What is there so far.
    pub fn as_str(&self) -> &str {
        self.text.as_str()
    }

    /// Says the line of a refusal, and keeps its status.
    pub fn refuse(&mut self, status: u8, number: u8, place: u64) {
        self.status = status;
        self.numbers("error {} at {}\n", &[u64::from(number), place]);
    }

    /// The explanation, if memory was left for all of it.
    pub fn explanation(self) -> Result<Explanation, NoMemory> {
        let Telling {
            alloc: _,
            is_behind_run: _,
            status,
            text,
            is_cut,
        } = self;
        if is_cut {
            return Err(NoMemory);
        }
        Ok(Explanation { status, text })
    }
}
