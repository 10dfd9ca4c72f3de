ghost use Rattle.std.specs.Prelude.{◌≡◌, ◌+◌, ◌-◌, ◌*◌, ◌/◌, ◌^◌, ◌<◌, ◌≤◌};

/// A node with all that lies below it.
#[derive(Clone, Copy)]
pub struct Part {
    /// The node's number in the row.
    pub number: usize,
    /// Its level, counted from the single columns up.
    pub level: u32,
    /// The first of its columns.
    pub from: usize,
    /// How many columns it is over.
    pub size: usize,
}

/// The widths of a part's columns of depth at least 1, and at least 2, in database units.
#[derive(Clone, Copy)]
pub struct Widths {
    pub once: i64,
    pub twice: i64,
}

/// What is done to a range of columns.
#[derive(Clone, Copy)]
pub enum Change {
    Put,
    Take,
}

impl Part {
    /// Its first half.
    pub fn left(self) -> Part
        requires level { 0 < self.level }
        requires number { self.number < 2 ^ 62 }
        ensures number { result.number ≡ 2 * self.number }
        ensures level { result.level ≡ self.level - 1 }
        ensures from { result.from ≡ self.from }
        ensures size { result.size ≡ self.size / 2 }
    {
        Part {
            number: 2 * self.number,
            level: self.level - 1,
            from: self.from,
            size: self.size / 2,
        }
    }

    /// Its second half.
    pub fn right(self) -> Part
        requires level { 0 < self.level }
        requires number { self.number < 2 ^ 62 }
        requires end { self.from + self.size < 2 ^ 62 }
        ensures number { result.number ≡ 2 * self.number + 1 }
        ensures level { result.level ≡ self.level - 1 }
        ensures from { result.from ≡ self.from + self.size / 2 }
        ensures size { result.size ≡ self.size / 2 }
    {
        let half = self.size / 2;
        Part {
            number: 2 * self.number + 1,
            level: self.level - 1,
            from: self.from + half,
            size: half,
        }
    }
}
