ghost use Rattle.layer_map.specs.declared.fault.MapFault.TheVariants.{Memory};
ghost use Rattle.std.specs.Prelude.{◌≡◌};

use lists::NoMemory;
use std::alloc::{AllocError, AllocFailed};
use thiserror::Error;

/// Why bytes are no layer map. A path is the number of a place in the document:
///
/// | path | place |
/// |---|---|
/// | 1 | the document |
/// | 2, 3, 4 | `version`, `radii` or `sides`, `weights` |
/// | 5, 6, 7 | `metal`, `cut`, `terminal` |
/// | 8 | `contacts` |
/// | 100, 110, 120, .. | the first, second, third, .. item of `metal`; its `name` is 1 further, its `pairs` 2 |
/// | 300, 310, 320, .. | those of `cut`; `name`, `pairs`, `lower` and `upper` are 1, 2, 3 and 4 further |
/// | 1000, 1010, 1020, .. | those of `terminal`; `metal`, `x` and `y` are 1, 2 and 3 further |
#[derive(Clone, Copy, Debug, Error)]
pub enum MapFault {
    /// The bytes are no text in UTF-8, or the text is no TOML document, by TOML 1.1 as the crate `toml` reads it. So
    /// whole numbers beyond 64 bits and values nested more than 80 deep are refused here, too.
    #[error("the map is no TOML document")]
    Syntax,
    /// A table has a key that it may not have.
    #[error("the table at path {path} has an unknown key")]
    BadKey { path: u32 },
    /// What stands there may not stand there. It is missing, or not of the kind that belongs there; a number is too
    /// small or too great; a list is empty; a layer has more than 16 pairs; the sizes do not rise; there is not one
    /// weight for each size; a name is none; or a cut's upper metal is its lower.
    #[error("what stands at path {path} is missing or may not stand there")]
    BadValue { path: u32 },
    /// A pair of a layer and a datatype stands twice, in one layer or in two.
    #[error("the pairs at path {path} have one that stands earlier")]
    RepeatedPair { path: u32 },
    /// An earlier metal or cut has this name.
    #[error("the name at path {path} is that of an earlier layer")]
    RepeatedName { path: u32 },
    /// No metal has this name.
    #[error("no metal has the name at path {path}")]
    UnknownMetal { path: u32 },
    /// An earlier terminal has the same metal and the same cell.
    #[error("the terminal at path {path} stands earlier")]
    RepeatedTerminal { path: u32 },
    /// More than 32 sizes, 16 metals, 16 cuts or 10,000 terminals. (A layer with too many pairs is a `BadValue`.)
    #[error("the list at path {path} is too long")]
    LimitPassed { path: u32 },
    /// No memory is left, which says nothing of the bytes.
    #[error("no memory is left")]
    Memory,
}

impl MapFault {
    ghost use Rattle.layer_map.specs.MapFaults.{number_of, place_of};

    /// The fault's number: 40 to 47 in the order of the variants, and 0 for want of memory.
    pub fn number(&self) -> u8
        ensures { result ≡ number_of self.now }
    {
        match self {
            MapFault::Syntax => 40,
            MapFault::BadKey { .. } => 41,
            MapFault::BadValue { .. } => 42,
            MapFault::RepeatedPair { .. } => 43,
            MapFault::RepeatedName { .. } => 44,
            MapFault::UnknownMetal { .. } => 45,
            MapFault::RepeatedTerminal { .. } => 46,
            MapFault::LimitPassed { .. } => 47,
            MapFault::Memory => 0,
        }
    }

    /// The path of what is at fault, and 0 for bytes that are no document and for want of memory.
    pub fn place(&self) -> u64
        ensures { result ≡ place_of self.now }
    {
        match self {
            MapFault::Syntax | MapFault::Memory => 0,
            MapFault::BadKey { path }
            | MapFault::BadValue { path }
            | MapFault::RepeatedPair { path }
            | MapFault::RepeatedName { path }
            | MapFault::UnknownMetal { path }
            | MapFault::RepeatedTerminal { path }
            | MapFault::LimitPassed { path } => u64::from(*path),
        }
    }
}

impl From<NoMemory> for MapFault {
    ghost from_gives = { λ _ fault. fault ≡ Memory };

    fn from(_error: NoMemory) -> MapFault {
        MapFault::Memory
    }
}

impl From<AllocError> for MapFault {
    ghost from_gives = { λ _ fault. fault ≡ Memory };

    fn from(_error: AllocError) -> MapFault {
        MapFault::Memory
    }
}

impl<T: Drop> From<AllocFailed<T>> for MapFault {
    ghost from_gives = { λ _ fault. fault ≡ Memory };

    fn from(_error: AllocFailed<T>) -> MapFault {
        MapFault::Memory
    }
}
