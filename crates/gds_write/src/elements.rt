//! Elements: shapes and references.

ghost use Rattle.std.specs.Prelude.{◌≡◌, ◌++◌, ◌≤◌, ◌<◌, ◌^◌, ◌+ℤ◌, ◌*ℤ◌, FitsSigned, IfOk, IfSome, nat_abs, pos};
ghost use Rattle.std.specs.Int.{w32};
ghost use Rattle.gds_records.specs.RecordSpelling.{spellings};
ghost use Rattle.library_model.specs.Ranges.{ArePoints, IsKind, IsPoint, IsStep};
ghost use Rattle.gds_write.specs.WellFormed.{IsWritableElement, IsWritableReference, IsWritableShape};
ghost use Rattle.gds_write.specs.Written as written;
ghost use Rattle.gds_write.specs.Written.{
  angle_bits,
  array_points,
  own_of_reference,
  own_of_shape,
  path_records,
  placing_records,
  turn_records,
  written_element,
};

use super::bodies::{
    write_bare, write_counts, write_length_unless_zero, write_points, write_record,
    write_short_unless_zero, write_text, write_unsigned,
};
use byteorder::{BigEndian, ByteOrder};
use gds_records::forms::{BITS, EIGHT_BYTE_REALS};
use gds_records::kinds;
use geo_core::{Point, Turn};
use library_model::{Element, Lattice, Reference, Shape, ShapeKind};
use lists::NoMemory;

/// STRANS of a turn that mirrors.
const MIRRORED: u16 = 0x8000;

/// STRANS of a turn that does not.
const NOT_MIRRORED: u16 = 0;

/// 90 degrees as an eight-byte real.
const QUARTER: u64 = 0x425A000000000000;

/// 180 degrees.
const HALF: u64 = 0x42B4000000000000;

/// 270 degrees.
const THREE_QUARTERS: u64 = 0x4310E00000000000;

/// An element.
pub fn write_element(out: &mut Vec<u8>, element: &Element) -> Result<(), NoMemory>
    requires { IsWritableElement element.now }
    ensures { IfOk result (λ _. out.new.items ≡ out.old.items ++ spellings (written_element element.now)) }
{
    match element {
        Element::Shape(shape) => {
            write_bare(out, opening_of_shape(shape.kind))?;
            write_shape(out, shape)?;
        }
        Element::Reference(reference) => {
            write_bare(out, opening_of_reference(&reference.lattice))?;
            write_reference(out, reference)?;
        }
    }
    write_bare(out, kinds::ENDEL)
}

/// The kind of the record that opens a shape.
fn opening_of_shape(kind: ShapeKind) -> u8
    ensures { result ≡ written.opening_of_shape kind }
{
    match kind {
        ShapeKind::Boundary => kinds::BOUNDARY,
        ShapeKind::BoxElement => kinds::BOX,
        ShapeKind::Path { .. } => kinds::PATH,
    }
}

/// The kind of the record that has a shape's datatype.
fn datatype_kind(kind: ShapeKind) -> u8
    ensures { result ≡ written.datatype_kind kind }
{
    match kind {
        ShapeKind::Boundary | ShapeKind::Path { .. } => kinds::DATATYPE,
        ShapeKind::BoxElement => kinds::BOXTYPE,
    }
}

/// A shape's own records.
fn write_shape(out: &mut Vec<u8>, shape: &Shape) -> Result<(), NoMemory>
    requires { IsWritableShape shape.now }
    ensures { IfOk result (λ _. out.new.items ≡ out.old.items ++ spellings (own_of_shape shape.now)) }
{
    write_unsigned(out, kinds::LAYER, shape.layer)?;
    write_unsigned(out, datatype_kind(shape.kind), shape.datatype)?;
    write_path(out, shape.kind)?;
    write_points(out, shape.points.as_slice())
}

/// What only a path has, each where it is not 0.
fn write_path(out: &mut Vec<u8>, kind: ShapeKind) -> Result<(), NoMemory>
    requires { IsKind kind }
    ensures { IfOk result (λ _. out.new.items ≡ out.old.items ++ spellings (path_records kind)) }
{
    match kind {
        ShapeKind::Boundary | ShapeKind::BoxElement => Ok(()),
        ShapeKind::Path {
            pathtype,
            width,
            begin,
            end,
        } => {
            write_short_unless_zero(out, kinds::PATHTYPE, pathtype)?;
            write_length_unless_zero(out, kinds::WIDTH, width)?;
            write_length_unless_zero(out, kinds::BGNEXTN, begin)?;
            write_length_unless_zero(out, kinds::ENDEXTN, end)?;
            Ok(())
        }
    }
}

/// The kind of the record that opens a reference.
fn opening_of_reference(lattice: &Option<Lattice>) -> u8
    ensures { result ≡ written.opening_of_reference lattice.now }
{
    match lattice {
        None => kinds::SREF,
        Some(_) => kinds::AREF,
    }
}

/// A reference's own records.
fn write_reference(out: &mut Vec<u8>, reference: &Reference) -> Result<(), NoMemory>
    requires { IsWritableReference reference.now }
    ensures { IfOk result (λ _. out.new.items ≡ out.old.items ++ spellings (own_of_reference reference.now)) }
{
    write_text(out, kinds::SNAME, reference.target.as_slice())?;
    write_turn(out, reference.turn)?;
    write_placing(out, reference.origin, &reference.lattice)
}

/// The turn: nothing where it changes nothing, and no ANGLE where it only mirrors.
fn write_turn(out: &mut Vec<u8>, turn: Turn) -> Result<(), NoMemory>
    ensures { IfOk result (λ _. out.new.items ≡ out.old.items ++ spellings (turn_records turn)) }
{
    if turn.reflect || turn.quarters != 0 {
        let mut body = [0; 2];
        BigEndian::write_u16(
            &mut body,
            if turn.reflect { MIRRORED } else { NOT_MIRRORED },
        );
        write_record(out, kinds::STRANS, BITS, &body)?;
    }
    if turn.quarters != 0 {
        let mut body = [0; 8];
        BigEndian::write_u64(&mut body, angle_of(turn.quarters));
        write_record(out, kinds::ANGLE, EIGHT_BYTE_REALS, &body)?;
    }
    Ok(())
}

/// 90, 180 or 270 degrees, by quarters of a circle.
fn angle_of(quarters: u8) -> u64
    ensures { result ≡ angle_bits quarters }
{
    match quarters {
        1 => QUARTER,
        2 => HALF,
        _ => THREE_QUARTERS,
    }
}

/// How a reference is repeated, and where.
fn write_placing(
    out: &mut Vec<u8>,
    origin: Point,
    lattice: &Option<Lattice>,
) -> Result<(), NoMemory>
    requires { IfSome lattice.now (λ lattice. ArePoints (array_points origin lattice)) }
    ensures { IfOk result (λ _. out.new.items ≡ out.old.items ++ spellings (placing_records origin lattice.now)) }
{
    match lattice {
        None => write_points(out, &[origin]),
        Some(lattice) => {
            write_counts(out, lattice.columns, lattice.rows)?;
            let by_columns = moved_by(origin, lattice.columns, lattice.column_step);
            let by_rows = moved_by(origin, lattice.rows, lattice.row_step);
            write_points(out, &[origin, by_columns, by_rows])
        }
    }
}

/// The point, moved by so many equal steps.
fn moved_by(point: Point, count: u16, step: (i64, i64)) -> Point
    requires few { count < 2 ^ 15 }
    requires short { IsStep step }
    requires fits { IsPoint (written.moved_by count step point) }
    ensures { result ≡ written.moved_by count step point }
{
    Point {
        x: moved_along(point.x, count, step.0),
        y: moved_along(point.y, count, step.1),
    }
}

/// The coordinate, moved by so many equal steps.
fn moved_along(at: i32, count: u16, step: i64) -> i32
    requires few { count < 2 ^ 15 }
    requires short { nat_abs step ≤ 2 ^ 32 }
    requires fits { FitsSigned w32 (at +ℤ (pos count *ℤ step)) }
    ensures { result ≡ at +ℤ (pos count *ℤ step) }
{
    (i64::from(at) + i64::from(count) * step) as i32
}
