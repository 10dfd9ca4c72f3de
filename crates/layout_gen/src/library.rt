//! The library that is generated: a cell, and a structure that has an array of it.

ghost use Rattle.std.specs.Prelude.{◌≡◌, ◌≤◌, ◌∷◌, [], IfOk, IsTrue};
ghost use Rattle.layout_gen.specs.Generated as generated;
ghost use Rattle.layout_gen.specs.SmallOutlines as outlines;
ghost use Rattle.layout_gen.specs.SmallOutlines.{are_small};

use geo_core::{Point, Turn};
use library_model::{Element, Lattice, Library, Reference, Shape, ShapeKind, Structure};
use lists::{Items, Name, NoMemory};
use std::alloc::Global;

/// The most columns that a generated layout may have, and the most rows.
pub const MOST_COLUMNS: u32 = 500;

/// How far each column is from the one before, and each row, in database units.
const PITCH: i64 = 20;

/// The layer of the lower metal.
const LOWER: u16 = 1;

/// The layer of the cut between the metals.
const CUT: u16 = 2;

/// The layer of the upper metal.
const UPPER: u16 = 3;

/// The database unit in user units, and the same in metres: each is 1 as an eight-byte real.
const UNITS: [u8; 16] = [0x41, 0x10, 0, 0, 0, 0, 0, 0, 0x41, 0x10, 0, 0, 0, 0, 0, 0];

/// The library with so many columns and rows.
pub fn library_of(alloc: Global, columns: u16) -> Result<Library, NoMemory>
    requires some { 1 ≤ columns }
    requires few { columns ≤ MOST_COLUMNS }
    ensures { IfOk result (λ library. library ≡ generated.generated_library columns) }
{
    let structures = vec![in alloc; cell(alloc)?, top(alloc, columns)?]?;
    Ok(Library {
        name: name(alloc, b"GEN")?,
        units: UNITS,
        structures: Items::from_vec(structures),
    })
}

/// The name with these bytes.
fn name(alloc: Global, bytes: &[u8]) -> Result<Name, NoMemory>
    ensures { IfOk result (λ name. name ≡ bytes.now) }
{
    Ok(Name::from_vec(Vec::from_slice(alloc, bytes)?))
}

/// The structure with this name and these elements.
fn structure(alloc: Global, bytes: &[u8], elements: Vec<Element>) -> Result<Structure, NoMemory>
    ensures at { IfOk result (λ structure. structure.at ≡ 0) }
    ensures name { IfOk result (λ structure. structure.name ≡ bytes.now) }
    ensures elements { IfOk result (λ structure. structure.elements ≡ elements.items) }
{
    Ok(Structure {
        at: 0,
        name: name(alloc, bytes)?,
        elements: Items::from_vec(elements),
    })
}

/// The cell: two wires of the lower metal, a cut, and a wire of the upper metal.
fn cell(alloc: Global) -> Result<Structure, NoMemory>
    ensures { IfOk result (λ structure. structure ≡ generated.cell) }
{
    let elements = vec![in alloc;
        Element::Shape(boundary(alloc, LOWER, 12, 0, 4)?),
        Element::Shape(boundary(alloc, LOWER, 12, 8, 12)?),
        Element::Shape(boundary(alloc, CUT, 2, 0, 2)?),
        Element::Shape(boundary(alloc, UPPER, 4, 0, 12)?),
    ]?;
    structure(alloc, b"CELL", elements)
}

/// The boundary of `[0,right)x[bottom,top)` on this layer, counterclockwise from its lower left corner.
fn boundary(alloc: Global, layer: u16, right: u16, bottom: u16, top: u16) -> Result<Shape, NoMemory>
    ensures { (small : IsTrue (are_small (layer ∷ right ∷ bottom ∷ top ∷ []))) →
        IfOk result (λ shape. shape ≡ generated.boundary layer right bottom top small) }
{
    let points = vec![in alloc;
        corner(0, bottom),
        corner(right, bottom),
        corner(right, top),
        corner(0, top),
        corner(0, bottom),
    ]?;
    Ok(Shape {
        at: 0,
        kind: ShapeKind::Boundary,
        layer,
        datatype: 0,
        points: Items::from_vec(points),
    })
}

/// The point so far to the right of the origin, and so far above it.
fn corner(x: u16, y: u16) -> Point
    ensures { result ≡ outlines.corner x y }
{
    Point {
        x: i32::from(x),
        y: i32::from(y),
    }
}

/// The structure that has the array, and nothing else.
fn top(alloc: Global, columns: u16) -> Result<Structure, NoMemory>
    requires some { 1 ≤ columns }
    requires few { columns ≤ MOST_COLUMNS }
    ensures { IfOk result (λ structure. structure ≡ generated.top columns) }
{
    let elements = vec![in alloc; Element::Reference(cell_array(alloc, columns)?)]?;
    structure(alloc, b"TOP", elements)
}

/// The array of the cell, which begins at the origin.
fn cell_array(alloc: Global, columns: u16) -> Result<Reference, NoMemory>
    requires some { 1 ≤ columns }
    requires few { columns ≤ MOST_COLUMNS }
    ensures { IfOk result (λ reference. reference ≡ generated.cell_array columns) }
{
    Ok(Reference {
        at: 0,
        target: name(alloc, b"CELL")?,
        turn: Turn {
            reflect: false,
            quarters: 0,
        },
        origin: corner(0, 0),
        lattice: Some(lattice(columns)),
    })
}

/// So many columns, to the right, and as many rows, upwards.
fn lattice(columns: u16) -> Lattice
    requires some { 1 ≤ columns }
    requires few { columns ≤ MOST_COLUMNS }
    ensures { result ≡ generated.lattice columns }
{
    Lattice {
        columns,
        rows: columns,
        column_step: (PITCH, 0),
        row_step: (0, PITCH),
    }
}
