//! Records by what they hold, written behind what is there already.

ghost use Rattle.std.specs.Prelude.{◌≡◌, ◌+◌, ◌++◌, ◌∷◌, [], ◌<◌, ◌≤◌, ◌^◌, IfOk, length};
ghost use Rattle.byteorder.specs.Endian.{big_bytes};
ghost use Rattle.gds_records.specs.RecordSpelling.{spelling, spellings};
ghost use Rattle.gds_write.specs.Bodies.{
  bare,
  counts_entry,
  date_entry,
  entry,
  is_not_zero,
  long_entry,
  point_bytes,
  points_entry,
  short_entry,
  text_entry,
  unsigned_entry,
  entry_if,
};

use byteorder::{BigEndian, ByteOrder};
use gds_records::forms::{FOUR_BYTE_NUMBERS, NO_DATA, TEXT, TWO_BYTE_NUMBERS};
use gds_records::kinds::{COLROW, XY};
use geo_core::Point;
use lists::NoMemory;

/// The bytes in front of a record's body: its length, its kind and its form.
const HEAD: usize = 4;

/// The head of a record whose body has `size` bytes.
fn write_head(out: &mut Vec<u8>, kind: u8, form: u8, size: usize) -> Result<(), NoMemory>
    requires { size + 4 < 2 ^ 16 }
    ensures { IfOk result (λ _. out.new.items ≡ out.old.items ++ big_bytes 2 (size + 4) ++ kind ∷ form ∷ []) }
{
    let mut head = [0, 0, kind, form];
    BigEndian::write_u16(&mut head, (size + HEAD) as u16);
    out.extend_from_slice(&head)?;
    Ok(())
}

/// A record with this body.
pub fn write_record(out: &mut Vec<u8>, kind: u8, form: u8, body: &[u8]) -> Result<(), NoMemory>
    requires { length body.now + 4 < 2 ^ 16 }
    ensures { IfOk result (λ _. out.new.items ≡ out.old.items ++ spelling (entry kind form body.now)) }
{
    write_head(out, kind, form, body.len())?;
    out.extend_from_slice(body)?;
    Ok(())
}

/// A record without data.
pub fn write_bare(out: &mut Vec<u8>, kind: u8) -> Result<(), NoMemory>
    ensures { IfOk result (λ _. out.new.items ≡ out.old.items ++ spelling (bare kind)) }
{
    write_head(out, kind, NO_DATA, 0)
}

/// A date that says nothing: twelve numbers that are 0.
pub fn write_date(out: &mut Vec<u8>, kind: u8) -> Result<(), NoMemory>
    ensures { IfOk result (λ _. out.new.items ≡ out.old.items ++ spelling (date_entry kind)) }
{
    write_record(out, kind, TWO_BYTE_NUMBERS, &[0; 24])
}

/// A text, with one zero byte behind it where its length is odd.
pub fn write_text(out: &mut Vec<u8>, kind: u8, text: &[u8]) -> Result<(), NoMemory>
    requires { length text.now ≤ 65530 }
    ensures { IfOk result (λ _. out.new.items ≡ out.old.items ++ spelling (text_entry kind text.now)) }
{
    let filled = text.len() % 2;
    write_head(out, kind, TEXT, text.len() + filled)?;
    out.extend_from_slice(text)?;
    if filled == 1 {
        out.push(0)?;
    }
    Ok(())
}

/// A number without sign.
pub fn write_unsigned(out: &mut Vec<u8>, kind: u8, number: u16) -> Result<(), NoMemory>
    ensures { IfOk result (λ _. out.new.items ≡ out.old.items ++ spelling (unsigned_entry kind number)) }
{
    let mut body = [0; 2];
    BigEndian::write_u16(&mut body, number);
    write_record(out, kind, TWO_BYTE_NUMBERS, &body)
}

/// A short number, unless it is 0.
pub fn write_short_unless_zero(out: &mut Vec<u8>, kind: u8, number: i16) -> Result<(), NoMemory>
    ensures { IfOk result (λ _. out.new.items ≡ out.old.items ++ spellings (entry_if (is_not_zero number) (short_entry kind number))) }
{
    if number == 0 {
        return Ok(());
    }
    let mut body = [0; 2];
    BigEndian::write_i16(&mut body, number);
    write_record(out, kind, TWO_BYTE_NUMBERS, &body)
}

/// A length, unless it is 0.
pub fn write_length_unless_zero(out: &mut Vec<u8>, kind: u8, length: i32) -> Result<(), NoMemory>
    ensures { IfOk result (λ _. out.new.items ≡ out.old.items ++ spellings (entry_if (is_not_zero length) (long_entry kind length))) }
{
    if length == 0 {
        return Ok(());
    }
    let mut body = [0; 4];
    BigEndian::write_i32(&mut body, length);
    write_record(out, kind, FOUR_BYTE_NUMBERS, &body)
}

/// Two coordinates.
fn write_point(out: &mut Vec<u8>, point: Point) -> Result<(), NoMemory>
    ensures { IfOk result (λ _. out.new.items ≡ out.old.items ++ point_bytes point) }
{
    let mut bytes = [0; 8];
    BigEndian::write_i32(&mut bytes, point.x);
    BigEndian::write_i32(&mut bytes[4..], point.y);
    out.extend_from_slice(&bytes)?;
    Ok(())
}

/// XY.
pub fn write_points(out: &mut Vec<u8>, points: &[Point]) -> Result<(), NoMemory>
    requires { length points.now ≤ 8191 }
    ensures { IfOk result (λ _. out.new.items ≡ out.old.items ++ spelling (points_entry points.now)) }
{
    write_head(out, XY, FOUR_BYTE_NUMBERS, 8 * points.len())?;
    for point in points {
        write_point(out, *point)?;
    }
    Ok(())
}

/// COLROW.
pub fn write_counts(out: &mut Vec<u8>, columns: u16, rows: u16) -> Result<(), NoMemory>
    ensures { IfOk result (λ _. out.new.items ≡ out.old.items ++ spelling (counts_entry columns rows)) }
{
    let mut body = [0; 4];
    BigEndian::write_u16(&mut body, columns);
    BigEndian::write_u16(&mut body[2..], rows);
    write_record(out, COLROW, TWO_BYTE_NUMBERS, &body)
}
