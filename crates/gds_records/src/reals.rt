ghost use Rattle.std.specs.Prelude.{◌≡◌, ℕ, ℤ, ◌*◌, ◌^◌, ◌<◌, drop, FitsSigned, IfSome, IfNone};
ghost use Rattle.std.specs.Int.{w64};
ghost use Rattle.gds_records.specs.Fields.{HasItem};
ghost use Rattle.gds_records.specs.Reals.{HasValue, IsSize};

use crate::record::Record;
use byteorder::{BigEndian, ByteOrder};

/// The exponent with which a fraction of 56 bits is a whole number as it stands: 64 stands for 16^0, and 2^56 is 16^14.
const WHOLE: u32 = 64 + 14;

/// The size of a real with this fraction and this exponent, where it is a whole number below 2^64.
fn whole_size(fraction: u64, exponent: u32) -> Option<u64>
    ensures some { IfSome result (IsSize fraction exponent) }
    ensures none { IfNone result ((size : ℕ) → size < 2 ^ 64 → IsSize fraction exponent size → ⊥) }
{
    if fraction == 0 {
        return Some(0);
    }
    if exponent >= WHOLE {
        let scale = 16u64.checked_pow(exponent - WHOLE)?;
        return fraction.checked_mul(scale);
    }
    let parts = 16u64.checked_pow(WHOLE - exponent)?;
    if fraction % parts != 0 {
        return None;
    }
    Some(fraction / parts)
}

/// The value of item `k` of a body of eight-byte reals, counted from 0, where it is a whole number that fits `i64`, and
/// else `None`. A real is a bit of sign, seven bits of exponent in excess 64, and 56 bits of fraction, and is worth
/// fraction / 2^56 * 16^(exponent - 64) with its sign (GDSII Stream Format Manual, Release 6.0). A value has many
/// spellings, and each counts. The item must lie in the body.
pub fn real_whole(rec: &Record, k: usize) -> Option<i64>
    requires { HasItem 8 k rec.now.body.now }
    ensures some { IfSome result (HasValue (drop (8 * k) rec.now.body.now)) }
    ensures none { IfNone result ((z : ℤ) → FitsSigned w64 z → HasValue (drop (8 * k) rec.now.body.now) z → ⊥) }
{
    let bits = BigEndian::read_u64(&rec.body[8 * k..]);
    let fraction = bits % (1 << 56);
    let exponent = (bits >> 56) % (1 << 7);
    let size = whole_size(fraction, exponent as u32)?;
    if bits >> 63 == 0 {
        0i64.checked_add_unsigned(size)
    } else {
        0i64.checked_sub_unsigned(size)
    }
}
