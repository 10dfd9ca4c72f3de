ghost use Rattle.std.specs.Prelude.{◌≡◌};
ghost use Rattle.flatten.specs.declared.fault.PlaceFault.TheVariants.{Memory};

use lists::NoMemory;
use std::alloc::{AllocError, AllocFailed};
use thiserror::Error;

/// Why a library's shapes are not placed. What comes first here comes first where there is more than one reason.
#[derive(Clone, Copy, Debug, Error)]
pub enum PlaceFault {
    /// The reference at this offset names no structure of the library: the first such, whether the top reaches it or not.
    #[error("the reference at byte {at} names no structure")]
    UnknownStructure { at: u32 },
    /// References lead on without end from the structure at this offset: the first such.
    #[error("the structure at byte {at} leads to a cycle of references")]
    Cycle { at: u32 },
    /// No structure has the wanted name, or the library has no structure.
    #[error("there is no such structure")]
    NoTop,
    /// No name is wanted, and more than one structure is named by no reference. The second of them is at this offset.
    #[error("the structure at byte {at} is another that no reference names")]
    ManyTops { at: u32 },
    /// A chain of more than 256 references begins at the top, which is at this offset.
    #[error("the structure at byte {at} begins too long a chain of references")]
    TooDeep { at: u32 },
    /// The top, which is at this offset, places more than 1,000,000 shapes on mapped layers, or more than 8,000,000
    /// points in them.
    #[error("the structure at byte {at} places too many shapes or points")]
    TooManyShapes { at: u32 },
    /// A point of the shape at this offset is placed more than 1,000,000,000 from 0 in a coordinate: the first such, in
    /// the order of the placed shapes.
    #[error("the shape at byte {at} is placed out of range")]
    OutOfRange { at: u32 },
    /// No memory is left, which says nothing of the library.
    #[error("no memory is left")]
    Memory,
}

impl PlaceFault {
    ghost use Rattle.flatten.specs.PlaceFaults.{number_of, place_of};

    /// The fault's number, by which it is printed: from 24 for an unknown structure to 30 for a point out of range. Faults
    /// come in the order of the variants, in which too deep a top, 26, stands behind a top that is missing or not alone. Out
    /// of memory has none, which is 0 here and below.
    pub fn number(&self) -> u8
        ensures { result ≡ number_of self.now }
    {
        match self {
            PlaceFault::UnknownStructure { .. } => 24,
            PlaceFault::Cycle { .. } => 25,
            PlaceFault::NoTop => 27,
            PlaceFault::ManyTops { .. } => 28,
            PlaceFault::TooDeep { .. } => 26,
            PlaceFault::TooManyShapes { .. } => 29,
            PlaceFault::OutOfRange { .. } => 30,
            PlaceFault::Memory => 0,
        }
    }

    /// The offset at which the fault shows: 0 where there is no top, which shows at no byte.
    pub fn place(&self) -> u64
        ensures { result ≡ place_of self.now }
    {
        match self {
            PlaceFault::UnknownStructure { at }
            | PlaceFault::Cycle { at }
            | PlaceFault::ManyTops { at }
            | PlaceFault::TooDeep { at }
            | PlaceFault::TooManyShapes { at }
            | PlaceFault::OutOfRange { at } => u64::from(*at),
            PlaceFault::NoTop | PlaceFault::Memory => 0,
        }
    }
}

impl From<NoMemory> for PlaceFault {
    ghost from_gives = { λ _ fault. fault ≡ Memory };

    fn from(_error: NoMemory) -> PlaceFault {
        PlaceFault::Memory
    }
}

impl From<AllocError> for PlaceFault {
    ghost from_gives = { λ _ fault. fault ≡ Memory };

    fn from(_error: AllocError) -> PlaceFault {
        PlaceFault::Memory
    }
}

impl<T: Drop> From<AllocFailed<T>> for PlaceFault {
    ghost from_gives = { λ _ fault. fault ≡ Memory };

    fn from(_error: AllocFailed<T>) -> PlaceFault {
        PlaceFault::Memory
    }
}
