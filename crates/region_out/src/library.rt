//! The library, its one structure, and the boundaries in it.

ghost use Rattle.std.specs.Prelude.{◌≡◌, IfOk, codes, map};
ghost use Rattle.lists.specs.ByteLists.{AreBytes};
ghost use Rattle.geo_core.specs.Circuits.{circuit};
ghost use Rattle.outlines.specs.Rectangles.{rectangle_corners};
ghost use Rattle.gds_write.specs.WellFormed.{IsWellFormed};
ghost use Rattle.region_out.specs.RegionLibraries as regions;
ghost use Rattle.region_out.specs.RegionLibraries.{AreUnits, region_library_of};

use geo_core::{Point, Rect};
use library_model::{Element, Elements, Library, Shape, ShapeKind, Structure};
use lists::{Items, Name, NoMemory};
use std::alloc::Global;

/// The layer of each boundary.
const LAYER: u16 = 1;

/// The datatype of each boundary.
const DATATYPE: u16 = 0;

/// Where each part begins in a stream: nowhere, since there is none.
const NO_OFFSET: u32 = 0;

/// A library of the rectangles. The library is `CRIT`, and so is its one structure, which has one boundary for each rectangle, in
/// their order: on layer 1 with datatype 0, of five points in database units, counterclockwise from the lower left corner and back
/// to it.
///
/// `units` is the body of UNITS, sixteen bytes of any value: with those of a library that was read, a database unit is what it was
/// there. Nothing is asked of the rectangles, of which there may be none. Each offset is 0.
///
/// The library is well formed, so that `write_library` takes it. By the laws its bytes are 106, and 64 more for each rectangle, and
/// come to the same library with its offsets in them. `read_library` reads those of at most 4,194,302 rectangles. What places the
/// shapes of a library places at most 1,000,000, none of which may reach farther than 1,000,000,000 from 0.
///
/// The only error is that no memory is left.
pub fn region_library(alloc: Global, rects: &[Rect], units: [u8; 16]) -> Result<Library, NoMemory>
    ensures exact { IfOk result (λ library. (fit : AreUnits units) × (library ≡ region_library_of rects.now units fit)) }

    // What `write_library` asks for. This follows from the definition.
    ensures well_formed { IfOk result IsWellFormed }
{
    tell_bytes(&units);
    let structures = vec![in alloc; region_structure(alloc, rects)?]?;
    Ok(Library {
        name: region_name(alloc)?,
        units,
        structures: Items::from_vec(structures),
    })
}

/// Tells of items that they are bytes: contracts see a `u8` as a number without a bound.
fn tell_bytes(bytes: &[u8])
    ensures { AreBytes bytes.now }
{
    let _bytes = bytes;
}

/// The name of the library, and of its structure.
fn region_name(alloc: Global) -> Result<Name, NoMemory>
    ensures { IfOk result (λ name. name ≡ codes "CRIT") }
{
    Ok(Name::from_vec(Vec::from_slice(alloc, b"CRIT")?))
}

/// The structure: the boundaries of the rectangles.
fn region_structure(alloc: Global, rects: &[Rect]) -> Result<Structure, NoMemory>
    ensures { IfOk result (λ structure. structure ≡ regions.region_structure rects.now) }
{
    Ok(Structure {
        at: NO_OFFSET,
        name: region_name(alloc)?,
        elements: boundaries(alloc, rects)?,
    })
}

/// The boundaries of the rectangles, in their order.
fn boundaries(alloc: Global, rects: &[Rect]) -> Result<Elements, NoMemory>
    ensures { IfOk result (λ elements. elements ≡ map regions.region_element rects.now) }
{
    let mut elements = Vec::with_capacity(alloc, rects.len())?;
    for rect in rects {
        elements.push(Element::Shape(boundary(alloc, *rect)?))?;
    }
    Ok(Items::from_vec(elements))
}

/// The boundary of the rectangle.
fn boundary(alloc: Global, rect: Rect) -> Result<Shape, NoMemory>
    ensures { IfOk result (λ shape. shape ≡ regions.region_boundary rect) }
{
    let points = Vec::from_slice(alloc, &outline_of(rect))?;
    Ok(Shape {
        at: NO_OFFSET,
        kind: ShapeKind::Boundary,
        layer: LAYER,
        datatype: DATATYPE,
        points: Items::from_vec(points),
    })
}

/// The corners of the rectangle, counterclockwise from the lower left, and the first again.
fn outline_of(rect: Rect) -> [Point; 5]
    ensures { result ≡ circuit (rectangle_corners rect) }
{
    [
        corner(rect.x0, rect.y0),
        corner(rect.x1, rect.y0),
        corner(rect.x1, rect.y1),
        corner(rect.x0, rect.y1),
        corner(rect.x0, rect.y0),
    ]
}

/// The point with these coordinates.
fn corner(x: i32, y: i32) -> Point
    ensures { result ≡ record { x = x; y = y } }
{
    Point { x, y }
}
