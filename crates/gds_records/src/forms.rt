//! The forms of a record's data, as the GDSII Stream Format Manual, Release 6.0, numbers them. Reals of four bytes, its
//! number 4, are in no use.

ghost use Rattle.std.specs.Prelude.{◌≡◌};

/// No data.
pub const NO_DATA: u8 = 0x00;
/// Sixteen bits.
pub const BITS: u8 = 0x01;
/// Whole numbers of two bytes each.
pub const TWO_BYTE_NUMBERS: u8 = 0x02;
/// Whole numbers of four bytes each.
pub const FOUR_BYTE_NUMBERS: u8 = 0x03;
/// Reals of eight bytes each.
pub const EIGHT_BYTE_REALS: u8 = 0x05;
/// A text, filled up to an even number of bytes with a zero byte.
pub const TEXT: u8 = 0x06;

/// The numbers of all forms, as the manual has them. Definitions name them by the constants.
pub fn forms_are_numbered()
    ensures { (NO_DATA ≡ 0x00) ×
        (BITS ≡ 0x01) ×
        (TWO_BYTE_NUMBERS ≡ 0x02) ×
        (FOUR_BYTE_NUMBERS ≡ 0x03) ×
        (EIGHT_BYTE_REALS ≡ 0x05) ×
        (TEXT ≡ 0x06) }
{}
