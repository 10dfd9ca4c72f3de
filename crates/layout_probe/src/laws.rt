//! Facts about the definitions, each the contract of a function that does nothing else.

ghost use Rattle.std.specs.Prelude.{ℕ, List, Some, ◌+◌, ◌≤◌, ◌≡◌, ◌↔◌};
ghost use Rattle.fault_model.specs.Faults.{IsShort};
ghost use Rattle.fault_model.specs.Nets.{Cut};
ghost use Rattle.first_refusal.specs.Laws.{IsUnique};
ghost use Rattle.geo_core.specs.declared.plane.Cell.{Cell};
ghost use Rattle.map_model.specs.LayerMap.{LayerMap};
ghost use Rattle.layout_probe.specs.NearestNets.{AreNearestNets};
ghost use Rattle.layout_probe.specs.Probe.{IsProbe};
ghost use Rattle.layout_probe.specs.declared.metal_near.MetalNear.{MetalNear};
ghost use Rattle.near_index.specs.declared.nearest.Near.{Near};
ghost use Rattle.near_index.specs.declared.nearest.Nearest.{Nearest};

use fault_model::Layout;

/// A cell has one probe at most, whatever the metals and cuts of a layer map cover.
pub fn probes_agree<L: Layout>()
    ensures { (layer_map : LayerMap) (c : Cell) → IsUnique (IsProbe layer_map L.covers c) }
{}

/// What is covered alike has the same probe of each cell.
pub fn probes_follow<L: Layout, O: Layout>()
    ensures { ((number : ℕ) (d : Cell) → L.covers number d ↔ O.covers number d) → (layer_map : LayerMap) (c : Cell) (told : List MetalNear) →
        IsProbe layer_map L.covers c told → IsProbe layer_map O.covers c told }
{}

/// The distance to the second net is the least radius that makes a short: a defect of side `r + r` at the cell makes one of the metal
/// exactly where there is a second net and it is at most `r` away. At 0 there is neither, since no cell is of two nets.
pub fn second_within<L: Layout>()
    ensures { (cuts : List Cut) (metal r : ℕ) (c : Cell) (nearest : Nearest) → AreNearestNets L.covers cuts metal c nearest →
        IsShort L.covers cuts metal (r + r) c ↔ ((near : Near) × (nearest.second ≡ Some near) × (near.distance ≤ r)) }
{}
