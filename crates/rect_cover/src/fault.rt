ghost use Rattle.std.specs.Prelude.{◌≡◌};
ghost use Rattle.rect_cover.specs.declared.fault.CoverFault.TheVariants.{Memory};

use lists::NoMemory;
use std::alloc::{AllocError, AllocFailed};
use thiserror::Error;

/// Why a shape is not cut into rectangles. Each offset is that of the shape. The checks of a path come in this order, but
/// that `BadExtension` comes twice and `OutOfRange` last: first round ends, then unknown ends, an odd width, equal points,
/// slanted edges, a way back, a piece that is eaten up, and a piece too far out.
#[derive(Clone, Copy, Debug, Error)]
pub enum CoverFault {
    /// The path has round ends, which is PATHTYPE 1.
    #[error("the shape at byte {at} has round ends")]
    RoundPath { at: u32 },
    /// The PATHTYPE of the path is none of 0, 1, 2 and 4, or a piece of the path is no longer than what its extensions take away.
    #[error("the shape at byte {at} has no such ends")]
    BadExtension { at: u32 },
    /// The width of the path is odd, and half of it no whole number of database units.
    #[error("the shape at byte {at} has an odd width")]
    OddWidth { at: u32 },
    /// All points of the path are equal.
    #[error("the shape at byte {at} is a point")]
    PointPath { at: u32 },
    /// Two neighbouring points of the shape differ in both coordinates.
    #[error("the shape at byte {at} is slanted")]
    NotRectilinear { at: u32 },
    /// A piece of the path leads back along the piece before it.
    #[error("the shape at byte {at} turns back")]
    Reversal { at: u32 },
    /// A rectangle of the path reaches more than 1,000,000,000 from 0.
    #[error("the shape at byte {at} is out of range")]
    OutOfRange { at: u32 },
    /// No memory is left, which says nothing of the shape.
    #[error("no memory is left")]
    Memory,
}

impl CoverFault {
    ghost use Rattle.rect_cover.specs.CoverFaults.{number_of, place_of};

    /// The fault's number, from 30 to 36. Out of memory has none, which is 0 here and below.
    pub fn number(&self) -> u8
        ensures { result ≡ number_of self.now }
    {
        match self {
            CoverFault::OutOfRange { .. } => 30,
            CoverFault::NotRectilinear { .. } => 31,
            CoverFault::RoundPath { .. } => 32,
            CoverFault::OddWidth { .. } => 33,
            CoverFault::Reversal { .. } => 34,
            CoverFault::BadExtension { .. } => 35,
            CoverFault::PointPath { .. } => 36,
            CoverFault::Memory => 0,
        }
    }

    /// The offset of the shape.
    pub fn place(&self) -> u64
        ensures { result ≡ place_of self.now }
    {
        match self {
            CoverFault::OutOfRange { at }
            | CoverFault::NotRectilinear { at }
            | CoverFault::RoundPath { at }
            | CoverFault::OddWidth { at }
            | CoverFault::Reversal { at }
            | CoverFault::BadExtension { at }
            | CoverFault::PointPath { at } => u64::from(*at),
            CoverFault::Memory => 0,
        }
    }
}

impl From<NoMemory> for CoverFault {
    ghost from_gives = { λ _ fault. fault ≡ Memory };

    fn from(_error: NoMemory) -> CoverFault {
        CoverFault::Memory
    }
}

impl From<AllocError> for CoverFault {
    ghost from_gives = { λ _ fault. fault ≡ Memory };

    fn from(_error: AllocError) -> CoverFault {
        CoverFault::Memory
    }
}

impl<T: Drop> From<AllocFailed<T>> for CoverFault {
    ghost from_gives = { λ _ fault. fault ≡ Memory };

    fn from(_error: AllocFailed<T>) -> CoverFault {
        CoverFault::Memory
    }
}
