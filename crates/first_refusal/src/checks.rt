//! Laws of checks.

ghost use Rattle.std.specs.Prelude.{List, All, ◌⊎◌};
ghost use Rattle.first_refusal.specs.Checks.{Checks, IsFirstFailing, IsRefusalOfFirst};
ghost use Rattle.first_refusal.specs.Laws.{IsUnique, CannotLack};

use super::stages::Readable;

/// Any checks, each by its name.
pub trait CheckList<N> {
    /// Whether the check holds.
    ghost holds: { N → Type 0 };
}

/// At most one check of a list is the first that fails.
pub fn first_failures_agree<N, C: CheckList<N>>()
    ensures { (checks : List N) → IsUnique (IsFirstFailing C.holds checks) }
{}

/// None is the first that fails exactly where all hold: where all do there is none, and where there is none it cannot
/// be that not all do.
pub fn nothing_fails_where_all_hold<N, C: CheckList<N>>()
    ensures none { (checks : List N) → All C.holds checks →
        (check : N) → IsFirstFailing C.holds checks check → ⊥ }
    ensures all { (checks : List N) → ((check : N) → IsFirstFailing C.holds checks check → ⊥) →
        (All C.holds checks → ⊥) → ⊥ }
{}

/// Where each check holds or not, all of a list hold, or one of them is the first that fails.
pub fn all_hold_or_one_fails<N, C: CheckList<N>>()
    ensures { ((check : N) → C.holds check ⊎ (C.holds check → ⊥)) → (checks : List N) →
        All C.holds checks ⊎ ((check : N) × IsFirstFailing C.holds checks check) }
{}

/// At most one refusal is that of the first check that fails.
pub fn first_refusals_agree<N, R, C: CheckList<N>>()
    ensures { (checks : List N) (refusal_of : N → R) → IsUnique (IsRefusalOfFirst C.holds checks refusal_of) }
{}

/// Checks have at most one outcome where at most one value can be read.
#[tactic(auto, using(crate::proofs::CheckLaws::checks_agree))]
pub fn checks_agree<N, V, R, C: CheckList<N>, T: Readable<V>>()
    ensures { (checks : List N) (refusal_of : N → R) → IsUnique T.reads_as →
        IsUnique (Checks C.holds checks refusal_of T.reads_as) }
{}

/// Checks cannot lack an outcome where, if all of them hold, a value cannot be lacking.
#[tactic(auto, using(crate::proofs::CheckLaws::checks_cannot_lack))]
pub fn checks_cannot_lack_an_outcome<N, V, R, C: CheckList<N>, T: Readable<V>>()
    ensures { (checks : List N) (refusal_of : N → R) → (All C.holds checks → CannotLack T.reads_as) →
        CannotLack (Checks C.holds checks refusal_of T.reads_as) }
{}
