//! Laws of nets.

ghost use Rattle.std.specs.Prelude.{ℕ, List, [], Contains, ◌<◌, ◌↔◌};
ghost use Rattle.geo_core.specs.declared.plane.Half.{Half};
ghost use Rattle.fault_model.specs.Halves.{IsOn};
ghost use Rattle.fault_model.specs.Walks.{IsSameIsland};
ghost use Rattle.fault_model.specs.Nets.{Cut, Place, IsContact, JoinMetals, IsOnMetal, IsSameNet, IsSameNetOn};
ghost use Rattle.fault_model.specs.FaultConsequences.{IsEquivalenceOn};

use super::sets::Layout;

/// The places on all metals fall into nets, and so do the half squares of one metal.
#[tactic(auto, using(crate::proofs::NetLaws::places_are_classes, crate::proofs::NetLaws::nets_of_metal))]
pub fn nets_are_classes<L: Layout>()
    ensures places { (cuts : List Cut) → IsEquivalenceOn (IsOnMetal L.covers) (IsSameNet L.covers cuts) }
    ensures one_metal { (cuts : List Cut) (m : ℕ) → IsEquivalenceOn (IsOn (L.covers m)) (IsSameNetOn L.covers cuts m) }
{}

/// An island lies in one net.
#[tactic(auto, using(crate::proofs::NetLaws::on_metal))]
pub fn islands_lie_in_nets<L: Layout>()
    ensures { (cuts : List Cut) (m : ℕ) (p q : Half) → IsSameIsland (L.covers m) p q → IsSameNetOn L.covers cuts m p q }
{}

/// Where there are no cuts, a net is an island.
#[tactic(auto, using(crate::proofs::NetLaws::net_is_island))]
pub fn nets_without_cuts_are_islands<L: Layout>()
    ensures { (m : ℕ) (p q : Half) → IsSameNetOn L.covers [] m p q ↔ IsSameIsland (L.covers m) p q }
{}

/// Cuts without a contact join nothing: there, too, a net is an island.
#[tactic(auto, using(crate::proofs::NetLaws::net_without_contacts))]
pub fn cuts_without_contacts_join_nothing<L: Layout>()
    ensures { (cuts : List Cut) (m : ℕ) (p q : Half) →
        ((cut : Cut) (h : Half) → Contains cuts cut → IsContact L.covers cut h → ⊥) →
        IsSameNetOn L.covers cuts m p q ↔ IsSameIsland (L.covers m) p q }
{}

/// A contact's half squares on the two metals are of one net.
#[tactic(auto, using(crate::proofs::NetLaws::at_contact))]
pub fn contacts_join<L: Layout>()
    ensures { (cuts : List Cut) (cut : Cut) (h : Half) →
        Contains cuts cut → IsContact L.covers cut h →
        IsSameNet L.covers cuts (record { metal = cut.lower; half = h }) (record { metal = cut.upper; half = h }) }
{}

/// A net walk from a metal leads to a metal, so it takes no cut for one.
pub fn nets_keep_to_metals<L: Layout>()
    ensures { (cuts : List Cut) (metals : ℕ) (p q : Place) →
        JoinMetals metals cuts → IsSameNet L.covers cuts p q → p.metal < metals → q.metal < metals }
{}
