ghost use Rattle.std.specs.Prelude.{◌≡◌, ◌*◌, ◌+◌, ◌≤◌, length};
ghost use Rattle.std.specs.Int.{w16, w32, cast_signed};
ghost use Rattle.gds_records.specs.Fields.{HasItem, IsText, item};

use crate::record::Record;
use byteorder::{BigEndian, ByteOrder};

/// Item `k` of a body of two-byte numbers, counted from 0, as a number with sign. The item must lie in the body.
pub fn i16_at(rec: &Record, k: usize) -> i16
    requires { HasItem 2 k rec.now.body.now }
    ensures { result ≡ cast_signed w16 (item 2 k rec.now.body.now) }
{
    BigEndian::read_i16(&rec.body[2 * k..])
}

/// Item `k` of a body of two-byte numbers, counted from 0, as a number without sign. The item must lie in the body.
pub fn u16_at(rec: &Record, k: usize) -> u16
    requires { HasItem 2 k rec.now.body.now }
    ensures { result ≡ item 2 k rec.now.body.now }
{
    BigEndian::read_u16(&rec.body[2 * k..])
}

/// Item `k` of a body of four-byte numbers, counted from 0, as a number with sign. The item must lie in the body.
pub fn i32_at(rec: &Record, k: usize) -> i32
    requires { HasItem 4 k rec.now.body.now }
    ensures { result ≡ cast_signed w32 (item 4 k rec.now.body.now) }
{
    BigEndian::read_i32(&rec.body[4 * k..])
}

/// The text of a body, without the zero bytes at its end: a text of odd length is filled up with one.
pub fn text<'a>(rec: &Record<'a>) -> &'a [u8]
    ensures { IsText rec.now.body.now result.now }
{
    let body = rec.body;
    let mut end = body.len();
    while end > 0 && body[end - 1] == 0 {
        end -= 1;
    }
    &body[..end]
}
