ghost use Rattle.std.specs.Prelude.{◌≡◌, ◌<◌, length};
ghost use Rattle.gds_records.specs.declared.kinds.TheConstants as kind;
ghost use Rattle.library_grammar.specs.ElementChecks.{Judges, checks_of_sort, element_checks};
ghost use Rattle.library_grammar.specs.ElementForms.{IsCount, array, outline, reference};
ghost use Rattle.gds_syntax.specs.ElementKinds.{form_for};
ghost use Rattle.library_grammar.specs.Elements.{IsKept, IsShape};
ghost use Rattle.library_grammar.specs.OwnRecords.{points_of};
ghost use Rattle.library_model.specs.Ranges.{IsKind};
ghost use Rattle.library_grammar.specs.Sizes.{BodiesHave};

use super::arrays::lattice_of;
use super::checks::{check_required, is_closed};
use super::element_kind::ElementKind;
use super::own_records::OwnRecords;
use super::points::point_count;
use super::references::{reference_of, turn_of};
use super::shapes::{path_kind_of, shape_of};
use gds_records::kinds;
use library_grammar::fault::SyntaxFault;
use library_model::element::{Element, Reference, Shape, ShapeKind};
use std::alloc::Global;

/// The shape of this kind that begins at `at`, if it is closed. Its datatype is in the record of kind `datatype`.
fn outline_of(
    alloc: Global,
    at: u32,
    kind: ShapeKind,
    datatype: u8,
    own: &OwnRecords<'_>,
) -> Result<Shape, SyntaxFault>
    requires range { IsKind kind }
    requires two_bytes { BodiesHave 2 datatype }
    ensures { Judges at own.now (checks_of_sort outline) (IsShape at kind datatype own.now) result }
{
    let shape = shape_of(alloc, at, kind, datatype, own)?;
    if !is_closed(shape.points.as_slice()) {
        return Err(SyntaxFault::NotClosed { at });
    }
    Ok(shape)
}

/// The reference that begins at `at` and is not repeated, if its checks hold.
fn single_of(alloc: Global, at: u32, own: &OwnRecords<'_>) -> Result<Reference, SyntaxFault>
    requires { 0 < length (points_of own.now) }
    ensures { Judges at own.now (checks_of_sort reference)
        (λ single. IsKept at own.now kind.SREF (Some (Element.Reference single))) result }
{
    let turn = turn_of(at, own)?;
    Ok(reference_of(alloc, at, own, turn, None)?)
}

/// The reference that begins at `at` and is repeated, if its checks hold.
fn array_of(alloc: Global, at: u32, own: &OwnRecords<'_>) -> Result<Reference, SyntaxFault>
    requires { length (points_of own.now) ≡ 3 }
    ensures { Judges at own.now (checks_of_sort array)
        (λ repeated. IsKept at own.now kind.AREF (Some (Element.Reference repeated))) result }
{
    let turn = turn_of(at, own)?;
    let lattice = lattice_of(at, own)?;
    Ok(reference_of(alloc, at, own, turn, Some(lattice))?)
}

/// What is kept of an element that has enough points, once the checks of its sort hold.
fn kept_by_sort(
    alloc: Global,
    at: u32,
    kind: ElementKind,
    own: &OwnRecords<'_>,
) -> Result<Option<Element>, SyntaxFault>
    requires { IsCount (form_for kind).points (length (points_of own.now)) }
    ensures { Judges at own.now (checks_of_sort (form_for kind).sort) (IsKept at own.now (form_for kind).opening) result }
{
    match kind {
        ElementKind::Boundary => {
            let boundary = outline_of(alloc, at, ShapeKind::Boundary, kinds::DATATYPE, own)?;
            Ok(Some(Element::Shape(boundary)))
        }
        ElementKind::BoxElement => {
            let outline = outline_of(alloc, at, ShapeKind::BoxElement, kinds::BOXTYPE, own)?;
            Ok(Some(Element::Shape(outline)))
        }
        ElementKind::Path => {
            let path = shape_of(alloc, at, path_kind_of(own), kinds::DATATYPE, own)?;
            Ok(Some(Element::Shape(path)))
        }
        ElementKind::Sref => Ok(Some(Element::Reference(single_of(alloc, at, own)?))),
        ElementKind::Aref => Ok(Some(Element::Reference(array_of(alloc, at, own)?))),
        ElementKind::Text | ElementKind::Node => Ok(None),
    }
}

/// What is kept of an element that begins at `at`, once its own records are read: `None` for annotations and nodes. The
/// error is that of the first of the element's checks that fails, or that no memory is left.
pub fn kept_of(
    alloc: Global,
    at: u32,
    kind: ElementKind,
    own: &OwnRecords<'_>,
) -> Result<Option<Element>, SyntaxFault>
    ensures { Judges at own.now (element_checks (form_for kind)) (IsKept at own.now (form_for kind).opening) result }
{
    check_required(at, kind, own)?;
    if !kind.takes_points(point_count(own)) {
        return Err(SyntaxFault::PointCount { at });
    }
    kept_by_sort(alloc, at, kind, own)
}
