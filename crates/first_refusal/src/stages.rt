//! Laws of stages.

ghost use Rattle.first_refusal.specs.Outcomes.{Outcome, value, Reads, Retold, Then};
ghost use Rattle.first_refusal.specs.Laws.{IsUnique, CannotLack};

/// Anything that may be there to be read.
pub trait Readable<V> {
    /// Whether it reads as this value.
    ghost reads_as: { V → Type 0 };
}

/// Any stage.
pub trait Stage<V, F> {
    /// Its outcomes.
    ghost outcomes: { Outcome V F → Type 0 };
}

/// Any two stages, of which the second reads on with the first's value.
pub trait Stages<V, W, R> {
    /// The outcomes of the first.
    ghost first: { Outcome V R → Type 0 };

    /// The outcomes of the second.
    ghost second: { V → Outcome W R → Type 0 };
}

/// Where at most one value can be read, reading has at most one outcome.
#[tactic(auto, using(crate::proofs::StageLaws::readings_agree))]
pub fn readings_agree<V, R, T: Readable<V>>()
    ensures { (refusal : R) → IsUnique T.reads_as → IsUnique (Reads T.reads_as refusal) }
{}

/// Reading has an outcome: it cannot be that it has none.
#[tactic(auto, using(crate::proofs::StageLaws::reading_cannot_lack))]
pub fn readings_cannot_lack_an_outcome<V, R, T: Readable<V>>()
    ensures { (refusal : R) → CannotLack (Reads T.reads_as refusal) }
{}

/// A stage whose refusals are said in other words has at most one outcome where the stage has.
#[tactic(auto, using(crate::proofs::StageLaws::retold_agree))]
pub fn retold_stages_agree<V, F, R, S: Stage<V, F>>()
    ensures { (refusal_of : F → R) → IsUnique S.outcomes → IsUnique (Retold refusal_of S.outcomes) }
{}

/// A stage whose refusals are said in other words cannot lack an outcome where the stage cannot.
#[tactic(auto, using(crate::proofs::StageLaws::retold_cannot_lack))]
pub fn retold_stages_cannot_lack_an_outcome<V, F, R, S: Stage<V, F>>()
    ensures { (refusal_of : F → R) → CannotLack S.outcomes → CannotLack (Retold refusal_of S.outcomes) }
{}

/// Two stages as one have at most one outcome where each of them has.
#[tactic(auto, using(crate::proofs::StageLaws::stages_agree))]
pub fn stages_agree<V, W, R, S: Stages<V, W, R>>()
    ensures { IsUnique S.first → ((v : V) → IsUnique (S.second v)) → IsUnique (Then S.first S.second) }
{}

/// Two stages as one cannot lack an outcome where neither of them can.
#[tactic(auto, using(crate::proofs::StageLaws::stages_cannot_lack))]
pub fn stages_cannot_lack_an_outcome<V, W, R, S: Stages<V, W, R>>()
    ensures { CannotLack S.first → ((v : V) → S.first (value v) → CannotLack (S.second v)) →
        CannotLack (Then S.first S.second) }
{}
