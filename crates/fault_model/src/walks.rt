//! Laws of walks and islands.

ghost use Rattle.std.specs.Prelude.{ℕ, List, ◌≡◌, ◌⊎◌, ◌↔◌};
ghost use Rattle.geo_core.specs.Cells.{ShareEdge};
ghost use Rattle.geo_core.specs.declared.plane.Cell.{Cell};
ghost use Rattle.geo_core.specs.declared.plane.Half.{Half};
ghost use Rattle.geo_core.specs.declared.plane.Rect.{Rect};
ghost use Rattle.fault_model.specs.Halves.{LiesIn, IsOn, MeetAtCorner};
ghost use Rattle.fault_model.specs.Walks.{Walk, IsSameIsland};
ghost use Rattle.fault_model.specs.RectChains.{IsAt, AreChained};
ghost use Rattle.geo_core.specs.Unions.{IsInUnion};
ghost use Rattle.fault_model.specs.FaultConsequences.{IsEquivalenceOn, IsListWalk};

use super::sets::{HalfSet, Property};

/// Walks turn round.
#[tactic(auto, using(crate::proofs::LineLaws::turned_walks))]
pub fn walks_turn_round<S: HalfSet>()
    ensures { (p q : Half) → Walk S.has p q → Walk S.has q p }
{}

/// A walk goes on from where another ends.
#[tactic(auto, using(paths::proofs::PathLaws::append))]
pub fn walks_join<S: HalfSet>()
    ensures { (p q r : Half) → Walk S.has p q → Walk S.has q r → Walk S.has p r }
{}

/// A walk is a list of half squares of the set, each sharing an edge with the next.
#[tactic(auto, using(crate::proofs::ListWalkLaws::to_list, crate::proofs::ListWalkLaws::from_list))]
pub fn walks_are_lists<S: HalfSet>()
    ensures { (p q : Half) → Walk S.has p q ↔ IsListWalk S.has p q }
{}

/// The covered half squares fall into islands.
#[tactic(auto, using(crate::proofs::WalkLaws::islands_are_classes))]
pub fn islands_are_classes<P: Property>()
    ensures { IsEquivalenceOn (IsOn P.holds) (IsSameIsland P.holds) }
{}

/// A half square lies in exactly one cell, and is covered exactly where that cell is.
#[tactic(auto, using(crate::proofs::HalfLaws::some_cell, crate::proofs::HalfLaws::one_cell, crate::proofs::HalfLaws::cell_on))]
pub fn half_squares_have_one_cell<P: Property>()
    ensures some { (h : Half) → (c : Cell) × LiesIn h c }
    ensures alone { (h : Half) (c d : Cell) → LiesIn h c → LiesIn h d → c ≡ d }
    ensures on { (h : Half) (c : Cell) → LiesIn h c → IsOn P.holds h ↔ P.holds c }
{}

/// Two cells that meet at a corner alone are two islands.
#[tactic(auto, using(crate::proofs::CornerLaws::apart))]
pub fn corners_do_not_join()
    ensures { (c d : Cell) (p q : Half) →
        MeetAtCorner c d → LiesIn p c → LiesIn q d → IsSameIsland (λ x. (x ≡ c) ⊎ (x ≡ d)) p q → ⊥ }
{}

/// Two cells that share an edge are one island.
#[tactic(auto, using(crate::proofs::CornerLaws::together))]
pub fn edges_join()
    ensures { (c d : Cell) (p q : Half) →
        ShareEdge c d → LiesIn p c → LiesIn q d → IsSameIsland (λ x. (x ≡ c) ⊎ (x ≡ d)) p q }
{}

/// A walk within the rectangles of a list joins two half squares exactly where rectangles that hold them are chained.
pub fn walks_are_chains()
    ensures { (rects : List Rect) (i k : ℕ) (p q : Half) →
        IsAt rects i p → IsAt rects k q → Walk (IsOn (IsInUnion rects)) p q ↔ AreChained rects i k }
{}
