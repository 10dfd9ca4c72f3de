//! Facts about the definitions, each the contract of a function that does nothing else.

ghost use Rattle.std.specs.Prelude.{ℕ, List, ◌≡◌, ◌↔◌};
ghost use Rattle.fault_model.specs.Nets.{Cut, IsSameNetOn};
ghost use Rattle.geo_core.specs.declared.plane.Cell.{Cell};
ghost use Rattle.geo_core.specs.declared.plane.Half.{Half};
ghost use Rattle.layout_nets.specs.NetNumbers.{AreNetStarts, IsOfNet};

use fault_model::Layout;

/// Two half squares of a metal have one number exactly if they are of one net.
pub fn numbers_tell_nets<L: Layout>()
    ensures { (cuts : List Cut) (metal : ℕ) (starts : List Cell) (one other : ℕ) (p q : Half) →
        AreNetStarts L.covers cuts metal starts → IsOfNet L.covers cuts metal starts one p →
        IsOfNet L.covers cuts metal starts other q → (one ≡ other) ↔ IsSameNetOn L.covers cuts metal p q }
{}
