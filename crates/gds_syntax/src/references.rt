ghost use Rattle.std.specs.Prelude.{◌≡◌, ◌↔◌, ◌<◌, ℤ, pos, All, IsTrue, IfErr, IfNone, IfOk, IfSome, OnOk, length};
ghost use Rattle.gds_records.specs.Fields.{IsText};
ghost use Rattle.gds_records.specs.declared.kinds.TheConstants as kind;
ghost use Rattle.gds_records.specs.Reals.{HasValue};
ghost use Rattle.lists.specs.ByteLists.{AreBytes};
ghost use Rattle.library_grammar.specs.ElementChecks.{ElementHolds, IsFaultOfFirst, reference_checks};
ghost use Rattle.library_grammar.specs.Elements.{IsReference, IsTurn};
ghost use Rattle.library_grammar.specs.OwnRecords.{body_of, field, points_of};
ghost use Rattle.gds_syntax.specs.inside.Quarters.{AreQuarters, ComesTo, IsAngle};

use super::own_records::OwnRecords;
use super::points::point_of;
use gds_records::{kinds, real_whole};
use geo_core::Turn;
use library_grammar::fault::SyntaxFault;
use library_model::element::{Lattice, Reference};
use lists::{Name, NoMemory};
use std::alloc::Global;

/// The bit of STRANS that mirrors a reference.
const MIRRORED: u16 = 0x8000;

/// The bit of STRANS that makes its angle absolute.
const ABSOLUTE_ANGLE: u16 = 0x0002;

/// Whether a reference is as large as its structure: its MAG is 1, or there is none.
fn is_as_large(own: &OwnRecords<'_>) -> bool
    ensures { IsTrue result ↔ IfSome (field kind.MAG own.now) (λ body. HasValue body (pos 1)) }
{
    match own.find(kinds::MAG) {
        Some(mag) => real_whole(&mag, 0) == Some(1),
        None => true,
    }
}

/// The quarters of a circle in an angle, if it is a whole number of them and no more than a circle either way.
fn quarters_in(degrees: i64) -> Option<u8>
    ensures whole { IfSome result (ComesTo degrees) }
    ensures not_whole { IfNone result ((quarters : ℤ) → AreQuarters degrees quarters → ⊥) }
{
    match degrees {
        -360 | 0 | 360 => Some(0),
        -270 | 90 => Some(1),
        -180 | 180 => Some(2),
        -90 | 270 => Some(3),
        _ => None,
    }
}

/// The quarters of a circle by which a reference is turned, if its ANGLE is a whole number of them and no more than a
/// circle either way.
fn quarters_of(own: &OwnRecords<'_>) -> Option<u8>
    ensures whole { IfSome result (λ quarters. (degrees : ℤ) × IsAngle own.now degrees × ComesTo degrees quarters) }
    ensures not_whole { IfNone result ((degrees quarters : ℤ) → IsAngle own.now degrees → AreQuarters degrees quarters → ⊥) }
{
    match own.find(kinds::ANGLE) {
        Some(angle) => quarters_in(real_whole(&angle, 0)?),
        None => Some(0),
    }
}

/// The turn of a reference, if it is as large as its structure, and turned by quarters of a circle and not absolutely.
#[tactic(auto, using(library_grammar::proofs::laws::Sizes::sizes))]
pub fn turn_of(at: u32, own: &OwnRecords<'_>) -> Result<Turn, SyntaxFault>
    ensures passed { OnOk result (All (ElementHolds own.now) reference_checks) }
    ensures turn { IfOk result (IsTurn own.now) }
    ensures failed { IfErr result (IsFaultOfFirst at own.now reference_checks) }
{
    if !is_as_large(own) {
        return Err(SyntaxFault::Magnified { at });
    }
    let strans = own.u16_in(kinds::STRANS);
    if strans & ABSOLUTE_ANGLE != 0 {
        return Err(SyntaxFault::AbsoluteAngle { at });
    }
    let Some(quarters) = quarters_of(own) else {
        return Err(SyntaxFault::BadAngle { at });
    };
    Ok(Turn {
        reflect: strans & MIRRORED != 0,
        quarters,
    })
}

/// The name of the structure that a reference places.
fn target_of(alloc: Global, own: &OwnRecords<'_>) -> Result<Name, NoMemory>
    ensures text { IfOk result (IsText (body_of kind.SNAME own.now)) }
    ensures bytes { IfOk result AreBytes }
{
    Ok(Name::from_vec(Vec::from_slice(alloc, own.text_in(kinds::SNAME))?))
}

/// The reference that begins at `at`, which is turned and repeated so.
pub fn reference_of(
    alloc: Global,
    at: u32,
    own: &OwnRecords<'_>,
    turn: Turn,
    lattice: Option<Lattice>,
) -> Result<Reference, NoMemory>
    requires turned { IsTurn own.now turn }
    requires somewhere { 0 < length (points_of own.now) }
    ensures reference { IfOk result (IsReference at own.now) }
    ensures repeated { IfOk result (λ reference. reference.lattice ≡ lattice) }
{
    Ok(Reference {
        at,
        target: target_of(alloc, own)?,
        turn,
        origin: point_of(own, 0),
        lattice,
    })
}
