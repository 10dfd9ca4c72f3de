//! Laws of shorts, opens and via blocks.

ghost use Rattle.std.specs.Prelude.{ℕ, List, ◌+◌, ◌/◌, ◌≤◌, ◌↔◌};
ghost use Rattle.geo_core.specs.declared.plane.Cell.{Cell};
ghost use Rattle.geo_core.specs.declared.plane.Half.{Half};
ghost use Rattle.fault_model.specs.Halves.{IsInFootprint};
ghost use Rattle.fault_model.specs.Walks.{IsSameIsland};
ghost use Rattle.fault_model.specs.Nets.{Cut, IsContact};
ghost use Rattle.fault_model.specs.Faults.{IsShort, IsCellsOpen, IsViaBlock};
ghost use Rattle.fault_model.specs.Vias.{IsInClusterOf, IsViasOpen};
ghost use Rattle.fault_model.specs.FaultConsequences.{IsEquivalenceOn, IsNearTwoNets, IsNearCluster};

use super::sets::{Layout, Property};

/// A defect of radius `r` makes a short exactly where two cells at most `r` away are of two nets: the second
/// nearest net is no further away.
pub fn shorts_are_near_two_nets<L: Layout>()
    ensures { (cuts : List Cut) (m r : ℕ) (c : Cell) → 1 ≤ r →
        IsShort L.covers cuts m (r + r) c ↔ IsNearTwoNets L.covers cuts m r c }
{}

/// The contacts of a cut fall into via clusters: contacts are of one cluster exactly where they are of one island of the
/// lower metal and of one of the upper metal. A defect blocks a via exactly where it has all contacts of some cluster.
pub fn clusters_are_classes<L: Layout>()
    ensures classes { (cut : Cut) → IsEquivalenceOn (IsContact L.covers cut) (IsInClusterOf L.covers cut) }
    ensures islands { (cut : Cut) (p q : Half) → IsContact L.covers cut p → IsContact L.covers cut q →
        IsInClusterOf L.covers cut p q ↔ (IsSameIsland (L.covers cut.lower) p q × IsSameIsland (L.covers cut.upper) p q) }
    ensures blocks { (cut : Cut) (s : ℕ) (c : Cell) → IsViaBlock L.covers cut s c ↔
        ((p : Half) × IsContact L.covers cut p × ((q : Half) → IsInClusterOf L.covers cut p q → IsInFootprint c s q)) }
{}

/// A defect of radius `r` blocks a cluster exactly where all cells of its contacts are at most `r - 1` away.
pub fn blocks_are_near_whole_clusters<L: Layout>()
    ensures { (cut : Cut) (r : ℕ) (c : Cell) → 1 ≤ r →
        IsViaBlock L.covers cut (r + r) c ↔ IsNearCluster L.covers cut r c }
{}

/// A larger defect at the same cell makes each fault that a smaller one does.
pub fn larger_sides_keep_faults<L: Layout, T: Property>()
    ensures shorts { (cuts : List Cut) (m s t : ℕ) (c : Cell) → s ≤ t →
        IsShort L.covers cuts m s c → IsShort L.covers cuts m t c }
    ensures opens { (m s t : ℕ) (c : Cell) → s ≤ t →
        IsCellsOpen (L.covers m) T.holds s c → IsCellsOpen (L.covers m) T.holds t c }
    ensures opens_of_vias { (cuts : List Cut) (m s t : ℕ) (c : Cell) → s ≤ t →
        IsViasOpen L.covers cuts T.holds m s c → IsViasOpen L.covers cuts T.holds m t c }
    ensures blocks { (cut : Cut) (s t : ℕ) (c : Cell) → s ≤ t →
        IsViaBlock L.covers cut s c → IsViaBlock L.covers cut t c }
{}

/// From side 2 on, a side makes the shorts of the radius `s / 2`, and side 1 makes none. From side 1 on, it makes
/// the via blocks of the radius `(s + 1) / 2`. Both are whole parts.
pub fn sides_as_halves<L: Layout>()
    ensures shorts { (cuts : List Cut) (m s : ℕ) (c : Cell) → 2 ≤ s →
        IsShort L.covers cuts m s c ↔ IsShort L.covers cuts m (s / 2 + s / 2) c }
    ensures no_short { (cuts : List Cut) (m : ℕ) (c : Cell) → IsShort L.covers cuts m 1 c → ⊥ }
    ensures blocks { (cut : Cut) (s : ℕ) (c : Cell) → 1 ≤ s →
        IsViaBlock L.covers cut s c ↔ IsViaBlock L.covers cut ((s + 1) / 2 + (s + 1) / 2) c }
{}
