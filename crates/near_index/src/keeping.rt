//! The nearest two of the pieces that a search has looked at or passed over so far.

ghost use Rattle.std.specs.Prelude.{ℕ, List, [], ◌∷◌, Some, IsTrue, ◌↔◌, ◌≡◌};
ghost use Rattle.geo_core.specs.declared.plane.Cell.{Cell as PlaneCell};
ghost use Rattle.geo_core.specs.declared.plane.Labelled.{Labelled as Piece};
ghost use Rattle.near_index.specs.Nearest.{IsDistance, IsNoLater};
ghost use Rattle.near_index.specs.inside.Hulls.{IsLabelOf};
ghost use Rattle.near_index.specs.inside.TwoLeast.{AddsNearest, AreBeyond, IsFirstOf};

use super::nearest::{Near, Nearest};

/// The nearest two of no piece.
pub fn nothing() -> Nearest
    ensures first { result.first ≡ None }
    ensures second { result.second ≡ None }
{
    Nearest {
        first: None,
        second: None,
    }
}

/// The nearest two where there is a piece, too, that is this far away and has this label.
pub fn with(nearest: Nearest, near: Near) -> Nearest
    ensures { (piece : Piece) (cell : PlaneCell) → piece.label ≡ near.label → IsDistance cell piece.rect near.distance →
        AddsNearest cell (piece ∷ []) nearest result }
{
    let Some(first) = nearest.first else {
        return Nearest {
            first: Some(near),
            second: None,
        };
    };
    if near.label == first.label {
        return Nearest {
            first: Some(first_of(first, near)),
            second: nearest.second,
        };
    }
    if !is_no_later(first, near) {
        return Nearest {
            first: Some(near),
            second: Some(first),
        };
    }
    let Some(second) = nearest.second else {
        return Nearest {
            first: Some(first),
            second: Some(near),
        };
    };
    Nearest {
        first: Some(first),
        second: Some(first_of(second, near)),
    }
}

/// Whether pieces that are at least this far away, all with this label if there is one, change nothing. Pieces as far away as the
/// second may have a lesser label.
pub fn is_settled(nearest: Nearest, distance: u32, label: Option<usize>) -> bool
    ensures { IsTrue result → (pieces : List Piece) (cell : PlaneCell) → AreBeyond pieces cell distance →
        IsLabelOf (λ piece. Some piece.label) label pieces → AddsNearest cell pieces nearest nearest }
{
    let Some(first) = nearest.first else {
        return false;
    };
    if label == Some(first.label) {
        return distance >= first.distance;
    }
    let Some(second) = nearest.second else {
        return false;
    };
    distance > second.distance
}

/// The one of the two that comes first.
fn first_of(one: Near, other: Near) -> Near
    ensures { IsFirstOf one other result }
{
    if is_no_later(one, other) {
        return one;
    }
    other
}

/// Whether the one is nearer than the other, or as near and its label is no greater.
fn is_no_later(one: Near, other: Near) -> bool
    ensures { IsTrue result ↔ IsNoLater one other.distance other.label }
{
    if one.distance < other.distance {
        return true;
    }
    if other.distance < one.distance {
        return false;
    }
    one.label <= other.label
}
