//! In which line of a map a place of its document begins.

use crate::telling::Telling;
use layer_map::{Measure, Place};
use std::alloc::Global;
use toml::{Table, Value};
use toml_parser::text::{first, skip};
use toml_parser::{quoted, starts_string};

/// The text behind the line that ends next, or no text.
fn behind_line(text: &str) -> &str {
    match text.split_once('\n') {
        Some((_, behind)) => behind,
        None => "",
    }
}

/// The text behind the sign or the quoted text with which it begins. A document has no others outside of comments.
fn behind_token(alloc: Global, text: &str) -> &str {
    if starts_string(text) {
        return match quoted(alloc, text) {
            Ok((_, behind)) => behind,
            Err(_) => "",
        };
    }
    match first(text) {
        1..=127 => skip(text, 1),
        _ => "",
    }
}

/// The text behind the first statement of a document, which ends with a line outside of brackets and braces.
fn behind_statement(alloc: Global, text: &str) -> &str {
    let mut rest = text;
    let mut depth = 0u32;
    for _ in 0..text.len() {
        match first(rest) {
            b'[' | b'{' => depth = depth.saturating_add(1),
            b']' | b'}' => depth = depth.saturating_sub(1),
            b'#' | b'\n' if depth == 0 => return behind_line(rest),
            b'#' => {
                rest = behind_line(rest);
                continue;
            }
            _ => {}
        }
        rest = behind_token(alloc, rest);
    }
    rest
}

/// Whether the table at the place may have the key, in a document whose sizes are measured so.
pub fn is_known(place: Place, measure: Measure, key: &str) -> bool {
    place.known_keys(measure).contains(&key)
}

/// What is looked for in a map.
#[derive(Clone, Copy)]
pub struct Sought {
    pub place: Place,
    /// Whether it is not the place itself, but the first key in the table there that is not known.
    pub is_unknown_key: bool,
    /// What measures the sizes of the map, by which its keys are known.
    pub measure: Measure,
}

impl Sought {
    /// Whether the key is meant, where it is one of the table at the place or round it.
    fn is_meant(&self, key: &str) -> bool {
        match self.place {
            Place::Document | Place::Item(_, _) => {
                self.is_unknown_key && !is_known(self.place, self.measure, key)
            }
            Place::Key(meant) | Place::ItemKey(_, _, meant) => meant == key,
        }
    }
}

/// To what the keys of a statement belong.
#[derive(Clone, Copy)]
enum Owner {
    Document,
    /// The item that has the place.
    Item,
    Other,
}

/// The line in which a place begins.
#[derive(Clone, Copy)]
pub enum Line {
    /// The place begins in this line.
    At(u64),
    /// What has the place within begins in this line.
    Within(u64),
}

impl Line {
    /// Tells between some words which line it is, and whether something begins there that has the place within.
    pub fn tell(self, told: &mut Telling, before: &str, after: &str) {
        told.say(before);
        match self {
            Line::At(line) => told.number("line ", line, after),
            Line::Within(line) => told.number("in what begins in line ", line, after),
        }
    }
}

/// What is known on a walk over the statements of a document.
#[derive(Clone, Copy)]
struct Walk {
    sought: Sought,
    owner: Owner,
    /// How many tables of the place's list were seen.
    tables: usize,
    /// The line of the table that is to have the place, once it was seen.
    table: Option<u64>,
}

impl Walk {
    /// Goes behind the head of a table in this line. The answer is the place, where it is found.
    fn pass_head(&mut self, key: &str, value: &Value, line: u64) -> Option<Line> {
        self.owner = Owner::Other;
        match self.sought.place.item() {
            Some((kind, number)) if kind.list() == key && value.is_array() => {
                self.enter_item(number, line)
            }
            None if self.sought.is_meant(key) => Some(Line::At(line)),
            _ => None,
        }
    }

    /// Goes behind the head in this line of an item of the place's list. The answer is the line, where the item is looked for
    /// and no key of it.
    fn enter_item(&mut self, number: usize, line: u64) -> Option<Line> {
        let is_it = self.tables == number;
        self.tables = self.tables.saturating_add(1);
        if !is_it {
            return None;
        }
        self.owner = Owner::Item;
        self.table = Some(line);
        match self.sought.place {
            Place::Item(_, _) if !self.sought.is_unknown_key => Some(Line::At(line)),
            _ => None,
        }
    }

    /// Goes behind a key with its value in this line. The answer is the place, where it is found.
    fn pass_key(&self, key: &str, line: u64) -> Option<Line> {
        match (self.owner, self.sought.place.item()) {
            (Owner::Document, None) | (Owner::Item, _) if self.sought.is_meant(key) => {
                Some(Line::At(line))
            }
            (Owner::Document, Some((kind, _))) if kind.list() == key => Some(Line::Within(line)),
            _ => None,
        }
    }

    /// Goes behind a statement that begins in this line, and of which this is the table. It has one key, or none where it is
    /// blank.
    fn pass(&mut self, statement: &[u8], table: &Table, line: u64) -> Option<Line> {
        match table.iter().next() {
            Some((key, value)) if statement.trim_ascii_start().starts_with(b"[") => {
                self.pass_head(key.as_str(), value, line)
            }
            Some((key, _)) => self.pass_key(key.as_str(), line),
            None => None,
        }
    }
}

/// In which line of a document, which these bytes are, begins what is looked for. Where it is missing it is the line of the
/// table that is to have it, and none where that is the document.
pub fn line_of(alloc: Global, bytes: &[u8], sought: Sought) -> Option<Line> {
    let text = str::from_utf8(bytes).unwrap_or("");
    let mut walk = Walk {
        sought,
        owner: Owner::Document,
        tables: 0,
        table: None,
    };
    let mut rest = text;
    let mut line = 1u64;
    for _ in 0..text.len() {
        if rest.is_empty() {
            break;
        }
        let behind = behind_statement(alloc, rest);
        let statement = front(rest.as_bytes(), rest.len().saturating_sub(behind.len()));
        if let Ok(table) = toml::table_from_slice(alloc, statement) {
            let found = walk.pass(statement, &table, line);
            if found.is_some() {
                return found;
            }
        }
        line = line.saturating_add(line_ends(statement));
        rest = behind;
    }
    Some(Line::At(walk.table?))
}

/// The bytes in front of an offset, or all where it lies behind them.
pub fn front(bytes: &[u8], offset: usize) -> &[u8] {
    &bytes[..offset.min(bytes.len())]
}

/// How many lines end in the bytes.
pub fn line_ends(bytes: &[u8]) -> u64 {
    let mut count = 0u64;
    for byte in bytes {
        if *byte == b'\n' {
            count = count.saturating_add(1);
        }
    }
    count
}

/// How many characters the last line of the bytes has, which begins behind the last line's end.
pub fn last_line(bytes: &[u8]) -> usize {
    let mut count = 0usize;
    for byte in bytes {
        if *byte == b'\n' {
            count = 0;
        } else if *byte & 0xC0 != 0x80 {
            count = count.saturating_add(1);
        }
    }
    count
}
