//! Laws of tallies.
#![tactic(auto, using(crate::proofs::OrderLaws::tally_laws))]

ghost use Rattle.std.specs.Prelude.{ℕ, Bool, IsTrue, List, Contains, count_by, length, ◌++◌, ◌+◌, ◌≤◌, ◌≡◌, ◌↔◌};
ghost use Rattle.geo_core.specs.declared.plane.Cell.{Cell};
ghost use Rattle.fault_model.specs.Areas.{Tally};

use super::sets::Property;

/// A property has at most one tally over a list of cells.
pub fn tallies_agree<P: Property>()
    ensures { (cells : List Cell) (m n : ℕ) →
        Tally P.holds cells m → Tally P.holds cells n → m ≡ n }
{}

/// Each test has a tally over each list of cells: how many of them pass.
pub fn tests_have_tallies()
    ensures { (test : Cell → Bool) (cells : List Cell) →
        Tally (λ c. IsTrue (test c)) cells (count_by test cells) }
{}

/// The tally over two lists, one after the other, is the sum.
pub fn tallies_add<P: Property>()
    ensures { (cs ds : List Cell) (m n : ℕ) →
        Tally P.holds cs m → Tally P.holds ds n → Tally P.holds (cs ++ ds) (m + n) }
{}

/// The order of a list does not matter: two lists that have each cell equally often have the same tally.
pub fn tallies_ignore_order<P: Property>()
    ensures { (cs ds : List Cell) (n : ℕ) →
        ((c : Cell) (k : ℕ) → Tally (λ d. d ≡ c) cs k → Tally (λ d. d ≡ c) ds k) →
        Tally P.holds cs n → Tally P.holds ds n }
{}

/// Two properties that hold of the same cells of a list have the same tally over it.
pub fn tallies_follow_truth<P: Property, Q: Property>()
    ensures { (cells : List Cell) (n : ℕ) →
        ((c : Cell) → Contains cells c → P.holds c ↔ Q.holds c) →
        Tally P.holds cells n → Tally Q.holds cells n }
{}

/// A property that holds of no cell of a list has the tally 0 over it.
pub fn tallies_of_nothing<P: Property>()
    ensures { (cells : List Cell) →
        ((c : Cell) → Contains cells c → P.holds c → ⊥) → Tally P.holds cells 0 }
{}

/// A property that holds wherever another does has no smaller tally.
pub fn tallies_grow<P: Property, Q: Property>()
    ensures { (cells : List Cell) (m n : ℕ) →
        ((c : Cell) → Contains cells c → P.holds c → Q.holds c) →
        Tally P.holds cells m → Tally Q.holds cells n → m ≤ n }
{}

/// A tally is at most the number of cells in the list.
pub fn tallies_are_bounded<P: Property>()
    ensures { (cells : List Cell) (n : ℕ) → Tally P.holds cells n → n ≤ length cells }
{}
