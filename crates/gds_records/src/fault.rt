ghost use Rattle.std.specs.Prelude.{◌≡◌};

use thiserror::Error;

/// Why the bytes at an offset are no record.
#[derive(Clone, Copy, Debug, PartialEq, Eq, Error)]
pub enum RecordFault {
    /// Fewer bytes are left than a record's head has, or than its length counts.
    #[error("the record at byte {at}: the stream ends within it")]
    Truncated {
        /// The record's offset.
        at: u32,
    },
    /// A length that does not count the four bytes of the head, or is odd.
    #[error("the record at byte {at}: its length is odd or below 4")]
    BadLength {
        /// The record's offset.
        at: u32,
        /// The length that stands there.
        len: u16,
    },
    /// A kind that is not in the table of records, or one whose data has another form there.
    #[error("the record at byte {at}: its kind is not known, or not with its form")]
    BadRecord {
        /// The record's offset.
        at: u32,
        /// The kind that stands there.
        kind: u8,
        /// The form that stands there.
        form: u8,
    },
    /// A body of a size that the table of records does not permit.
    #[error("the record at byte {at}: its body has a size that its kind does not have")]
    BadSize {
        /// The record's offset.
        at: u32,
    },
}

impl RecordFault {
    ghost use Rattle.gds_records.specs.RecordFaults.{number_of, place_of};

    /// The fault's number: 10 for a stream that ends within a record, 11 for a bad length, 12 for a bad kind or form, 13
    /// for a bad size.
    pub fn number(&self) -> u8
        ensures { result ≡ number_of self.now }
    {
        match self {
            RecordFault::Truncated { .. } => 10,
            RecordFault::BadLength { .. } => 11,
            RecordFault::BadRecord { .. } => 12,
            RecordFault::BadSize { .. } => 13,
        }
    }

    /// The offset of the record that is at fault.
    pub fn place(&self) -> u64
        ensures { result ≡ place_of self.now }
    {
        match self {
            RecordFault::Truncated { at }
            | RecordFault::BadLength { at, .. }
            | RecordFault::BadRecord { at, .. }
            | RecordFault::BadSize { at } => u64::from(*at),
        }
    }
}
