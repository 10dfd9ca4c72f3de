ghost use Rattle.std.specs.Prelude.{◌≡◌, ◌↔◌, All, IfErr, IsTrue, OnOk, map};
ghost use Rattle.first_refusal.specs.Checks.{IsRefusalOfFirst};
ghost use Rattle.library_grammar.specs.ElementChecks.{ElementHolds, element_fault, has};
ghost use Rattle.gds_syntax.specs.ElementKinds.{form_for};
ghost use Rattle.geo_core.specs.Circuits.{IsClosed};

use super::element_kind::ElementKind;
use super::own_records::OwnRecords;
use geo_core::Point;
use library_grammar::fault::SyntaxFault;

/// That the records that the element needs are there, or the least of them that is missing.
pub fn check_required(at: u32, kind: ElementKind, own: &OwnRecords<'_>) -> Result<(), SyntaxFault>
    ensures passed { OnOk result (All (ElementHolds own.now) (map has (form_for kind).required)) }
    ensures failed { IfErr result
        (IsRefusalOfFirst (ElementHolds own.now) (map has (form_for kind).required) (element_fault at)) }
{
    for needed in kind.required() {
        if !own.has(*needed) {
            return Err(SyntaxFault::Missing { at, kind: *needed });
        }
    }
    Ok(())
}

/// Whether the last of the points is the first again.
pub fn is_closed(points: &[Point]) -> bool
    ensures { IsTrue result ↔ IsClosed points.now }
{
    match points {
        [first, .., last] => *first == *last,
        _ => false,
    }
}
