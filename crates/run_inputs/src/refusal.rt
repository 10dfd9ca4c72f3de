use lists::NoMemory;
use std::alloc::Global;

/// The most bytes that a map may have.
pub const MAP_LIMIT: usize = 1_048_576;

/// The most bytes that a layout may have.
pub const LAYOUT_LIMIT: usize = 268_435_456;

/// Why the input is refused, as it is printed, with the exit status that goes with it.
#[derive(Clone, Copy)]
pub struct Refusal {
    /// 2 for words, 3 for maps, 4 for layouts.
    pub status: u8,
    /// Which rule the input breaks.
    pub number: u8,
    /// Where the input shows it: a path of the map, how many sizes it has, an offset in bytes, a limit on a length, the number of a
    /// terminal, or 0.
    pub place: u64,
}

/// The refusal of words that fit no form of the command.
pub const USAGE: Refusal = Refusal {
    status: 2,
    number: 2,
    place: 0,
};

/// The refusal of a map that has more bytes than it may.
pub const MAP_TOO_LONG: Refusal = Refusal {
    status: 3,
    number: 39,
    place: MAP_LIMIT as u64,
};

/// The refusal of a map that lacks the layer that a task names.
pub const NO_SUCH_LAYER: Refusal = Refusal {
    status: 3,
    number: 49,
    place: 0,
};

/// The refusal of a layout that has more bytes than it may.
pub const LAYOUT_TOO_LONG: Refusal = Refusal {
    status: 4,
    number: 9,
    place: LAYOUT_LIMIT as u64,
};

impl Refusal {
    ghost use Rattle.std.specs.Prelude.{◌≡◌, IfOk, string_bytes};
    ghost use Rattle.run_inputs.specs.Refusals.{no_such_size as no_size_behind, refusal_text};

    /// The refusal of a map that lists no more sizes than this, where a task names one behind them.
    pub fn no_such_size(sizes: usize) -> Refusal
        ensures { result ≡ no_size_behind sizes }
    {
        Refusal {
            status: 3,
            number: 48,
            place: sizes as u64,
        }
    }

    /// The line that is printed for it.
    pub fn line(&self, alloc: Global) -> Result<String, NoMemory>
        ensures { IfOk result (λ text. string_bytes text ≡ refusal_text self.now) }
    {
        let number = self.number;
        let place = self.place;
        Ok(format!(in alloc; "error {number} at {place}\n")?)
    }
}
