//! Laws of the ring round a hole: some try its definition, one says what it tells of an island.

ghost use Rattle.std.specs.Prelude.{ℤ, pos, ℕ, List, ◌≡◌, ◌≤◌, ◌+ℤ◌, ◌-ℤ◌, ◌+◌, ◌*◌, ◌↔◌, length};
ghost use Rattle.geo_core.specs.declared.plane.Cell.{Cell};
ghost use Rattle.geo_core.specs.declared.plane.Half.{Half};
ghost use Rattle.fault_model.specs.Halves.{IsInFootprint, Neighbours};
ghost use Rattle.fault_model.specs.IslandLists.{IslandLists, IsAnchoredIsland};
ghost use Rattle.half_boxes.specs.HalfBoxes.{HasHalf, IsInBoxes};
ghost use Rattle.half_boxes.specs.declared.boxes.HalfBox.{HalfBox};
ghost use Rattle.ring_test.specs.IslandHoles.{IsOnIsland, LosesAnchor, ReachesInto};
ghost use Rattle.ring_test.specs.RingAnswers.{IsRingAnswer};
ghost use Rattle.ring_test.specs.declared.answers.RingAnswer.TheVariants.{Many};
ghost use Rattle.severing.specs.Severing.{IsSevered};
ghost use Rattle.ring_test.specs.Rings.{HasOneArc, HasSome, Hole, IsInHole, IsRingNumber, IsRound, hole_at, hole_of};
ghost use Rattle.ring_test.specs.Rings.{ring_length, ring_of};

/// The numbers name just the half squares outside the hole that share an edge or a corner with one inside, each once.
/// Those with numbers that follow one another share an edge, and so do the last and the first. The number 0 is at the
/// lower left corner, and the next corner is the lower right one.
pub fn rings_go_round()
    ensures round { (hole : Hole) (h : Half) → HasSome hole →
        IsRound hole h ↔ ((k : ℤ) × IsRingNumber hole k × (ring_of hole k ≡ h)) }
    ensures once { (hole : Hole) (k l : ℤ) → HasSome hole → IsRingNumber hole k → IsRingNumber hole l →
        ring_of hole k ≡ ring_of hole l → k ≡ l }
    ensures neighbours { (hole : Hole) (k : ℤ) → HasSome hole → IsRingNumber hole k → IsRingNumber hole (k +ℤ pos 1) →
        Neighbours (ring_of hole k) (ring_of hole (k +ℤ pos 1)) }
    ensures closed { (hole : Hole) → HasSome hole →
        Neighbours (ring_of hole (ring_length hole -ℤ pos 1)) (ring_of hole (pos 0)) }
    ensures lower_left { (hole : Hole) → HasSome hole →
        ring_of hole (pos 0) ≡ record { u = hole.left -ℤ pos 1; v = hole.bottom -ℤ pos 1 } }
    ensures lower_right { (hole : Hole) → HasSome hole →
        ring_of hole (hole.right -ℤ hole.left +ℤ pos 1) ≡ record { u = hole.right; v = hole.bottom -ℤ pos 1 } }
{}

/// A box of half squares is the hole with its half squares, and so is a defect. The ring round a defect of side `s` has
/// 8s + 4 half squares.
pub fn defects_have_rings()
    ensures boxes { (one : HalfBox) (h : Half) → IsInHole (hole_of one) h ↔ HasHalf one h }
    ensures defects { (c : Cell) (s : ℕ) (h : Half) → IsInHole (hole_at c s) h ↔ IsInFootprint c s h }
    ensures lengths { (c : Cell) (s : ℕ) → ring_length (hole_at c s) ≡ pos (8 * s + 4) }
{}

/// Where an island has nothing in the hole, the removal of the hole parts no two anchors. Where what it has of the ring
/// is one arc, the removal parts two of two or more anchors exactly where the spot of one lies wholly in the hole. So where
/// it parts two, and no spot lies wholly in the hole, the island has something in the hole and more than one arc of the
/// ring.
pub fn one_arc_parts_no_more()
    ensures untouched { (island : IslandLists) (hole : Hole) → IsAnchoredIsland island →
        (ReachesInto island hole → ⊥) → IsSevered island (IsInHole hole) → ⊥ }
    ensures one_arc { (island : IslandLists) (hole : Hole) → IsAnchoredIsland island → HasSome hole →
        2 ≤ length island.anchors → HasOneArc hole (IsOnIsland island) →
        IsSevered island (IsInHole hole) ↔ LosesAnchor island hole }
    ensures many { (island : IslandLists) (hole : Hole) → IsAnchoredIsland island → HasSome hole →
        (LosesAnchor island hole → ⊥) → IsSevered island (IsInHole hole) → IsRingAnswer island hole Many }
{}

/// Where boxes have of the ring round another box what an island has of it, which is one arc, and no anchor's spot lies
/// wholly in that box, then no defect whose half squares lie in it parts two anchors.
pub fn one_arc_spares()
    ensures { (island : IslandLists) (near : List HalfBox) (reach : HalfBox) (s : ℕ) (c : Cell) → IsAnchoredIsland island →
        ((h : Half) → IsRound (hole_of reach) h → IsInBoxes near h ↔ IsOnIsland island h) →
        HasOneArc (hole_of reach) (IsInBoxes near) → (LosesAnchor island (hole_of reach) → ⊥) →
        ((h : Half) → IsInFootprint c s h → HasHalf reach h) → IsSevered island (IsInFootprint c s) → ⊥ }
{}
