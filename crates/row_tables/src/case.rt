ghost use Rattle.std.specs.Prelude.{◌≤◌};
ghost use Rattle.geo_core.specs.Bounds.{IsRadius};
ghost use Rattle.geo_core.specs.declared.bounds.TheConstants.{GREATEST_SIDE};

use super::text::Text;
use super::values::{bytes_of, number_at, rect_of, sides_of, whole_of};
use geo_core::{Cell, GREATEST_SIDE, Rect};
use std::alloc::Global;
use std::fmt::{Debug, Display};
use toml::{Table, Value};

/// A row that is being checked. What cannot be read is reported, and so is a call that finds no memory. Another value stands in its
/// place, so that the rest is checked all the same.
#[derive(Drop)]
pub struct Case<'a> {
    /// The allocator for what is read and made.
    pub alloc: Global,
    /// The kind of row.
    pub kind: &'a str,
    document: &'a Table,
    table: &'a Table,
    /// Where it reads what it does not have itself: the table that it shares, or the row again.
    shared: &'a Table,
    /// The keys of the row that were read or compared.
    known: Vec<&'a str>,
    /// What is wrong in the row, line by line.
    wrong: Text,
    has_compared: bool,
}

impl<'a> Case<'a> {
    /// The row of this kind in the document. Nothing of it is read yet. One that is no table is reported, and has no keys of its own.
    pub fn new(alloc: Global, kind: &'a str, document: &'a Table, row: &'a Value) -> Case<'a> {
        let table = row.as_table().unwrap_or(document);
        let mut case = Case {
            alloc,
            kind,
            document,
            table,
            shared: table,
            known: Vec::new(alloc),
            wrong: Text::new(alloc),
            has_compared: false,
        };
        if !row.is_table() {
            case.note("given up", "not a table");
        }
        case
    }

    /// Reports what is wrong, and at which key or in what else.
    pub fn note(&mut self, at: &str, wrong: &str) {
        self.wrong.say("  ");
        self.wrong.say(at);
        self.wrong.say(": ");
        self.wrong.say(wrong);
        self.wrong.say("\n");
    }

    /// Reports that there is no such kind of row.
    pub fn unknown_kind(&mut self) {
        self.note(self.kind, "unknown kind of row");
    }

    /// Reports that no memory is left.
    pub fn no_memory(&mut self) {
        self.note("given up", "no memory is left");
    }

    /// Reports it if no memory was left for this.
    pub fn kept<E: Drop>(&mut self, done: Result<(), E>) {
        if done.is_err() {
            self.no_memory();
        }
    }

    /// Appends a thing to a list.
    pub fn push<T: Drop>(&mut self, list: &mut Vec<T>, thing: T) {
        if list.push(thing).is_err() {
            self.no_memory();
        }
    }

    /// What a call gave, or else the other value if no memory was left for it.
    pub fn done<T: Drop, E: Drop>(&mut self, came: Result<T, E>, other: T) -> T {
        match came {
            Ok(value) => value,
            Err(_) => {
                self.no_memory();
                other
            }
        }
    }

    /// The list that a call gave, or else an empty one if no memory was left for it.
    pub fn list<T: Drop, E: Drop>(&mut self, came: Result<Vec<T>, E>) -> Vec<T> {
        self.done(came, Vec::new(self.alloc))
    }

    /// Takes it that the row may have the key.
    fn know(&mut self, key: &'a str) {
        if self.known.push(key).is_err() {
            self.no_memory();
        }
    }

    /// What stands at the key.
    fn value(&mut self, key: &'a str) -> Option<&'a Value> {
        self.know(key);
        match self.table.get(key) {
            Some(value) => Some(value),
            None => self.shared.get(key),
        }
    }

    /// What was read at the key, or else the other value, of which the form is told.
    fn read<T: Drop>(&mut self, key: &str, read: Option<T>, form: &str, other: T) -> T {
        match read {
            Some(value) => value,
            None => {
                self.note(key, form);
                other
            }
        }
    }

    /// The table `[kind.name]` of the document, whose name stands at the key that is called as the kind.
    fn named(&mut self, kind: &'a str) -> Option<&'a Table> {
        let name = self.text(kind);
        self.document.get(kind)?.get(name)?.as_table()
    }

    /// Goes on with the shared table of this kind, if the row names one.
    pub fn share(&mut self, kind: &'a str) {
        if self.has(kind) {
            match self.named(kind) {
                Some(table) => self.shared = table,
                None => self.note(kind, "the document has none of this name"),
            }
        }
    }

    /// Whether there is a value at the key.
    pub fn has(&self, key: &str) -> bool {
        self.table.contains_key(key) || self.shared.contains_key(key)
    }

    /// The text at the key.
    pub fn text(&mut self, key: &'a str) -> &'a str {
        match self.value(key) {
            Some(Value::String(text)) => text.as_str(),
            _ => {
                self.note(key, "not a text");
                ""
            }
        }
    }

    /// The values of the list at the key.
    pub fn items(&mut self, key: &'a str) -> &'a [Value] {
        match self.value(key) {
            Some(Value::Array(items)) => items.as_slice(),
            _ => {
                self.note(key, "not a list");
                &[]
            }
        }
    }

    /// The texts of the list at the key.
    pub fn texts(&mut self, key: &'a str) -> Vec<&'a str> {
        let mut texts = Vec::new(self.alloc);
        for value in self.items(key) {
            match value {
                Value::String(text) => self.push(&mut texts, text.as_str()),
                _ => self.note(key, "not a list of texts"),
            }
        }
        texts
    }

    /// The whole number at the key.
    pub fn number<T: TryFrom<i64> + Default + Drop>(&mut self, key: &'a str) -> T
    where
        T::Error: Drop,
    {
        let read = whole_of(self.value(key));
        self.read(key, read, "not a whole number in range", T::default())
    }

    /// The whole numbers that these values at the key are.
    fn numbers_in<T: TryFrom<i64> + Drop>(&mut self, key: &str, values: &[Value]) -> Vec<T>
    where
        T::Error: Drop,
    {
        let mut numbers = Vec::new(self.alloc);
        for value in values {
            match whole_of(Some(value)) {
                Some(number) => self.push(&mut numbers, number),
                None => self.note(key, "not a list of whole numbers in range"),
            }
        }
        numbers
    }

    /// The list of whole numbers at the key.
    pub fn numbers<T: TryFrom<i64> + Drop>(&mut self, key: &'a str) -> Vec<T>
    where
        T::Error: Drop,
    {
        let values = self.items(key);
        self.numbers_in(key, values)
    }

    /// The list of lists of whole numbers at the key.
    pub fn number_lists(&mut self, key: &'a str) -> Vec<Vec<i32>> {
        let mut lists = Vec::new(self.alloc);
        for value in self.items(key) {
            let numbers = match value {
                Value::Array(list) => self.numbers_in(key, list.as_slice()),
                _ => {
                    self.note(key, "not a list of lists");
                    Vec::new(self.alloc)
                }
            };
            self.push(&mut lists, numbers);
        }
        lists
    }

    /// The list at this key of an item, which has so many whole numbers. It is empty if the item has no such key.
    fn listed(&mut self, key: &str, item: &Table, name: &str, width: usize) -> Vec<i32> {
        match item.get(name) {
            Some(Value::Array(list)) if list.len() == width => {
                self.numbers_in(key, list.as_slice())
            }
            Some(_) => {
                self.note(key, "not a list of that many numbers");
                Vec::new(self.alloc)
            }
            None => Vec::new(self.alloc),
        }
    }

    /// Appends the lists of numbers that an item stands for.
    fn add_repeated(&mut self, numbers: &mut Vec<i32>, key: &str, item: &Table, width: usize) {
        let first = self.listed(key, item, "first", width);
        let right = self.listed(key, item, "right", width);
        let up = self.listed(key, item, "up", width);
        let times = self.listed(key, item, "times", 2);
        if first.is_empty() || times.is_empty() {
            self.note(key, "an item without `first` or `times`");
        }
        for row in 0..number_at(times.as_slice(), 1) {
            for column in 0..number_at(times.as_slice(), 0) {
                for (place, number) in first.as_slice().iter().enumerate() {
                    let right = number_at(right.as_slice(), place).saturating_mul(column);
                    let up = number_at(up.as_slice(), place).saturating_mul(row);
                    self.push(numbers, number.saturating_add(right).saturating_add(up));
                }
            }
        }
    }

    /// The numbers of the lists at the key, one after the other, where each list has as many as `width` says. In place of a list may
    /// stand `{ first = [..], times = [c, r], right = [..], up = [..] }` for `c` columns of `r` lists each: `first`, to which `right`
    /// is added once for each column and `up` once for each row.
    pub fn flat(&mut self, key: &'a str, width: usize) -> Vec<i32> {
        let mut numbers = Vec::new(self.alloc);
        for value in self.items(key) {
            match value {
                Value::Array(list) if list.len() == width => {
                    let mut list = self.numbers_in(key, list.as_slice());
                    self.kept(numbers.append(&mut list));
                }
                Value::Table(item) => self.add_repeated(&mut numbers, key, item, width),
                _ => self.note(key, "not lists of that many numbers"),
            }
        }
        numbers
    }

    /// The rectangle at the key, as `[left, bottom, right, top]`.
    pub fn rect(&mut self, key: &'a str) -> Rect {
        let read = rect_of(self.numbers(key).as_slice());
        self.read(key, read, "not a rectangle", Rect::new(0, 0, 1, 1))
    }

    /// The rectangles with these sides, four for each, which stand at the key.
    pub fn rects_in(&mut self, key: &str, sides: &[i32]) -> Vec<Rect> {
        let mut rects = Vec::new(self.alloc);
        for sides in sides.chunks(4) {
            match rect_of(sides) {
                Some(rect) => self.push(&mut rects, rect),
                None => self.note(key, "not a list of rectangles"),
            }
        }
        rects
    }

    /// The rectangles at the key, of which many may be written as one, as `flat` says.
    pub fn rects(&mut self, key: &'a str) -> Vec<Rect> {
        let sides = self.flat(key, 4);
        self.rects_in(key, sides.as_slice())
    }

    /// The bytes at the key, as a text of hexadecimal digits with spaces and newlines.
    pub fn bytes(&mut self, key: &'a str) -> Vec<u8> {
        let read = bytes_of(self.alloc, self.text(key));
        self.read(
            key,
            read,
            "not bytes in hexadecimal digits",
            Vec::new(self.alloc),
        )
    }

    /// The cell at the key, as its column and its row.
    pub fn cell(&mut self, key: &'a str) -> Cell {
        match self.numbers(key).as_slice() {
            [i, j] => Cell { i: *i, j: *j },
            _ => {
                self.note(key, "not a column and a row");
                Cell { i: 0, j: 0 }
            }
        }
    }

    /// The side of a defect.
    pub fn side(&mut self) -> u32
        ensures some { 1 ≤ result }
        ensures few { result ≤ GREATEST_SIDE }
    {
        let side = self.number("side");
        if side == 0 || side > GREATEST_SIDE {
            self.note("side", "not the side of a defect");
            return 1;
        }
        side
    }

    /// The radius of a defect.
    pub fn radius(&mut self) -> u32
        ensures { IsRadius result }
    {
        let radius = self.number("radius");
        if radius == 0 || radius > 1_000_000 {
            self.note("radius", "not the radius of a defect");
            return 1;
        }
        radius
    }

    /// Compares the two texts, of which the second came.
    pub fn compare(&mut self, at: &str, wanted: &str, came: &str) {
        self.has_compared = true;
        if wanted != came {
            self.note(at, "wanted - and came +");
            self.wrong.say_lines("  - ", wanted);
            self.wrong.say_lines("  + ", came);
        }
    }

    /// Compares what is wanted at the key with the text that came. A text is the answer itself, and any other value is the answer as
    /// TOML writes it: `50`, `true`, `[1, 2]`.
    fn expect_value(&mut self, key: &str, wanted: Option<&Value>, came: &str) {
        match wanted {
            Some(Value::String(wanted)) => self.compare(key, wanted.as_str(), came),
            Some(other) => match other.to_string(self.alloc) {
                Ok(wanted) => self.compare(key, wanted.as_str(), came),
                Err(_) => self.no_memory(),
            },
            None => {
                self.note(key, "nothing is wanted, and this came");
                self.wrong.say_lines("  + ", came);
            }
        }
    }

    /// Compares the answer at the key with the text that came. It has to stand in the row itself, and not in a table that it shares.
    pub fn expect_text(&mut self, key: &'a str, came: &str) {
        self.know(key);
        self.expect_value(key, self.table.get(key), came);
    }

    /// Compares the answer at the key with the one that came, as that prints itself.
    pub fn expect(&mut self, key: &'a str, came: impl Display + Drop) {
        let mut text = Text::new(self.alloc);
        text.print(came);
        self.expect_text(key, text.shown());
    }

    /// Compares what came with the answer at the key, or with this one if the row has no such key.
    pub fn expect_or(&mut self, key: &'a str, usual: &str, came: &str) {
        if self.has(key) {
            self.expect_text(key, came);
        } else {
            self.compare(key, usual, came);
        }
    }

    /// Compares what came if the row has the key.
    pub fn expect_if_wanted(&mut self, key: &'a str, came: impl Display + Drop) {
        if self.has(key) {
            self.expect(key, came);
        }
    }

    /// Compares what a call gave.
    pub fn expect_done<T: Display + Drop, E: Drop>(&mut self, key: &'a str, came: Result<T, E>) {
        match came {
            Ok(value) => self.expect(key, value),
            Err(_) => self.no_memory(),
        }
    }

    /// Compares the list that came.
    pub fn expect_list<T: Debug>(&mut self, key: &'a str, came: &[T]) {
        self.expect(key, format_args!("{came:?}"));
    }

    /// The sides of each rectangle.
    fn sides_of_all(&mut self, rects: &[Rect]) -> Vec<[i32; 4]> {
        let mut sides = Vec::new(self.alloc);
        for rect in rects {
            self.push(&mut sides, sides_of(*rect));
        }
        sides
    }

    /// Compares the rectangles that came, in their order. A row whose rectangles come back as they are may share them.
    pub fn expect_rects(&mut self, key: &'a str, came: &[Rect]) {
        let sides = self.sides_of_all(came);
        let mut text = Text::new(self.alloc);
        text.print(format_args!("{:?}", sides.as_slice()));
        let wanted = self.value(key);
        self.expect_value(key, wanted, text.shown());
    }

    /// Compares the rectangles that came, from the left.
    pub fn expect_sorted_rects(&mut self, key: &'a str, came: &[Rect]) {
        let mut sides = self.sides_of_all(came);
        sides.sort_unstable();
        self.expect_list(key, sides.as_slice());
    }

    /// The name of the row, if it has one.
    pub fn name(&self) -> &str {
        match self.table.get("name") {
            Some(Value::String(name)) => name.as_str(),
            _ => "",
        }
    }

    /// Ends the check. It reports the keys but the name that were neither read nor compared, or that nothing was.
    pub fn end(&mut self) {
        self.know("name");
        for key in self.table.keys() {
            if !self.known.as_slice().contains(&key.as_str()) {
                self.note(key.as_str(), "unknown key");
            }
        }
        if !self.has_compared && self.wrong.shown().is_empty() {
            self.note("given up", "nothing was compared");
        }
    }

    /// What is wrong in the row, line by line. It is empty if the row agrees.
    pub fn wrong(&self) -> &str {
        self.wrong.shown()
    }
}
