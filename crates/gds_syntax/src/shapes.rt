ghost use Rattle.std.specs.Prelude.{◌≡◌, ◌≢◌, IfErr, IfOk, OnOk};
ghost use Rattle.library_grammar.specs.Elements.{IsShape, path_kind};
ghost use Rattle.library_grammar.specs.OwnRecords.{points_of};
ghost use Rattle.geo_core.specs.Circuits.{IsClosed};
ghost use Rattle.library_model.specs.Ranges.{IsKind};
ghost use Rattle.library_grammar.specs.Sizes.{BodiesHave};

use super::own_records::OwnRecords;
use super::points::points_of;
use gds_records::kinds;
use library_model::element::{Shape, ShapeKind};
use lists::NoMemory;
use std::alloc::Global;

/// The kind of a path: its ends, its width and its extensions.
#[tactic(auto, using(library_grammar::proofs::laws::Sizes::sizes))]
pub fn path_kind_of(own: &OwnRecords<'_>) -> ShapeKind
    ensures kind { result ≡ path_kind own.now }
    ensures range { IsKind result }
{
    ShapeKind::Path {
        pathtype: own.i16_in(kinds::PATHTYPE),
        width: own.i32_in(kinds::WIDTH),
        begin: own.i32_in(kinds::BGNEXTN),
        end: own.i32_in(kinds::ENDEXTN),
    }
}

/// The shape of this kind that begins at `at`. Its datatype is in the record of kind `datatype`.
#[tactic(auto, using(library_grammar::proofs::laws::Sizes::sizes))]
pub fn shape_of(
    alloc: Global,
    at: u32,
    kind: ShapeKind,
    datatype: u8,
    own: &OwnRecords<'_>,
) -> Result<Shape, NoMemory>
    requires range { IsKind kind }
    requires two_bytes { BodiesHave 2 datatype }
    ensures { IfOk result (IsShape at kind datatype own.now) }
{
    Ok(Shape {
        at,
        kind,
        layer: own.u16_in(kinds::LAYER),
        datatype: own.u16_in(datatype),
        points: points_of(alloc, own)?,
    })
}
