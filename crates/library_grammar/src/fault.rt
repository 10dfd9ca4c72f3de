ghost use Rattle.std.specs.Prelude.{◌≡◌};
ghost use Rattle.library_grammar.specs.declared.fault.SyntaxFault.TheVariants.{Memory, Record};

use gds_records::RecordFault;
use lists::NoMemory;
use std::alloc::{AllocError, AllocFailed};
use thiserror::Error;

/// Why bytes are no library: the first fault in them. Each offset is in bytes from the start of the stream.
#[derive(Clone, Copy, Debug, Error)]
pub enum SyntaxFault {
    /// Bytes that do not begin with a record that is taken, where one has to follow.
    #[error("bytes are no record")]
    Record(RecordFault),
    /// A record that may not stand where it does.
    #[error("a record may not stand there")]
    Unexpected {
        /// The record's offset.
        at: u32,
        /// Its kind.
        kind: u8,
    },
    /// An element without a record that it needs.
    #[error("an element lacks a record that it needs")]
    Missing {
        /// The offset of the element's opening record.
        at: u32,
        /// The kind of the missing record, the least one where several are missing.
        kind: u8,
    },
    /// A structure that has the name of an earlier one.
    #[error("an earlier structure has the same name")]
    RepeatedStructure {
        /// The offset of STRNAME.
        at: u32,
    },
    /// An element with too few or too many points.
    #[error("an element has too few or too many points")]
    PointCount {
        /// The offset of the element's opening record.
        at: u32,
    },
    /// A boundary or a box whose last point is not its first.
    #[error("an outline does not end where it begins")]
    NotClosed {
        /// The offset of the element's opening record.
        at: u32,
    },
    /// A reference that is magnified.
    #[error("a reference is magnified")]
    Magnified {
        /// The offset of the element's opening record.
        at: u32,
    },
    /// A reference that is turned by an angle other than a multiple of 90 degrees from -360 to 360.
    #[error("a reference is turned by no whole quarters of a circle")]
    BadAngle {
        /// The offset of the element's opening record.
        at: u32,
    },
    /// A reference with an absolute angle.
    #[error("a reference has an absolute angle")]
    AbsoluteAngle {
        /// The offset of the element's opening record.
        at: u32,
    },
    /// An array whose columns or rows, as numbers with sign, are below 1.
    #[error("an array has no columns or no rows")]
    EmptyArray {
        /// The offset of the element's opening record.
        at: u32,
    },
    /// An array whose columns or rows are no whole number of database units apart.
    #[error("the steps of an array are no whole numbers")]
    UnevenArray {
        /// The offset of the element's opening record.
        at: u32,
    },
    /// Out of memory. This says nothing of the bytes.
    #[error("no memory is left")]
    Memory,
}

impl SyntaxFault {
    ghost use Rattle.library_grammar.specs.SyntaxFaults.{number_of, place_of};

    /// The fault's number: that of a record's fault, and from 14 for an unexpected record to 23 for an uneven array, in the
    /// order of the variants. Out of memory has none, which is 0 here and below.
    pub fn number(&self) -> u8
        ensures { result ≡ number_of self.now }
    {
        match self {
            SyntaxFault::Record(fault) => fault.number(),
            SyntaxFault::Unexpected { .. } => 14,
            SyntaxFault::Missing { .. } => 15,
            SyntaxFault::RepeatedStructure { .. } => 16,
            SyntaxFault::PointCount { .. } => 17,
            SyntaxFault::NotClosed { .. } => 18,
            SyntaxFault::Magnified { .. } => 19,
            SyntaxFault::BadAngle { .. } => 20,
            SyntaxFault::AbsoluteAngle { .. } => 21,
            SyntaxFault::EmptyArray { .. } => 22,
            SyntaxFault::UnevenArray { .. } => 23,
            SyntaxFault::Memory => 0,
        }
    }

    /// The offset at which the fault shows.
    pub fn place(&self) -> u64
        ensures { result ≡ place_of self.now }
    {
        match self {
            SyntaxFault::Record(fault) => fault.place(),
            SyntaxFault::Unexpected { at, .. }
            | SyntaxFault::Missing { at, .. }
            | SyntaxFault::RepeatedStructure { at }
            | SyntaxFault::PointCount { at }
            | SyntaxFault::NotClosed { at }
            | SyntaxFault::Magnified { at }
            | SyntaxFault::BadAngle { at }
            | SyntaxFault::AbsoluteAngle { at }
            | SyntaxFault::EmptyArray { at }
            | SyntaxFault::UnevenArray { at } => u64::from(*at),
            SyntaxFault::Memory => 0,
        }
    }
}

impl<T: Drop> From<AllocFailed<T>> for SyntaxFault {
    ghost from_gives = { λ _ fault. fault ≡ Memory };

    fn from(_error: AllocFailed<T>) -> SyntaxFault {
        SyntaxFault::Memory
    }
}

impl From<AllocError> for SyntaxFault {
    ghost from_gives = { λ _ fault. fault ≡ Memory };

    fn from(_error: AllocError) -> SyntaxFault {
        SyntaxFault::Memory
    }
}

impl From<NoMemory> for SyntaxFault {
    ghost from_gives = { λ _ fault. fault ≡ Memory };

    fn from(_error: NoMemory) -> SyntaxFault {
        SyntaxFault::Memory
    }
}

impl From<RecordFault> for SyntaxFault {
    ghost from_gives = { λ why fault. fault ≡ Record why };

    fn from(why: RecordFault) -> SyntaxFault {
        SyntaxFault::Record(why)
    }
}
