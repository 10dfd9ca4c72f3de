//! Paths from one thing to another, step by step: definitions and laws.
//!
//! Walks, nets, chains and classes are such paths, each with steps of its own. The definitions stand in `specs/`. The
//! crate has no code but laws: each is a function with an empty body, and its contract says what holds of the
//! definitions.
#![tactic(auto)]

ghost use Rattle.std.specs.Prelude.{◌↔◌};
ghost use Rattle.paths.specs.Parts.{AreLinkedParts};
ghost use Rattle.paths.specs.Paths.{Path};

/// Any things, of which some may be stood on, with any steps from one to another.
pub trait Steps<A> {
    /// Whether a path may go over the thing.
    ghost allows: { A → Type 0 };

    /// Whether a step leads from the one thing to the other.
    ghost leads: { A → A → Type 0 };
}

/// Things with steps, and parts that hold them, with links from part to part.
pub trait Parts<A, I>: Steps<A> {
    /// Whether this is a part.
    ghost is_part: { I → Type 0 };

    /// Whether a link leads from the one part to the other.
    ghost links: { I → I → Type 0 };

    /// Whether the part holds the thing.
    ghost holds: { I → A → Type 0 };
}

/// A path goes on from where another ends.
#[tactic(auto, using(crate::proofs::PathLaws::append))]
pub fn paths_join<A, S: Steps<A>>()
    ensures { (a b c : A) → Path S.allows S.leads a b → Path S.allows S.leads b c → Path S.allows S.leads a c }
{}

/// A path leads back where each of its steps does.
#[tactic(auto, using(crate::proofs::PathLaws::reverse))]
pub fn paths_turn_round<A, S: Steps<A>>()
    ensures { ((a b : A) → S.leads a b → S.leads b a) →
        (a b : A) → Path S.allows S.leads a b → Path S.allows S.leads b a }
{}

/// Within the union of whole parts, a path joins two things exactly where links chain the parts that hold them.
#[tactic(auto, using(crate::proofs::PartLaws::joined_as_chained))]
pub fn parts_are_chained<A, I, P: Parts<A, I>>()
    ensures { AreLinkedParts P.allows P.leads P.is_part P.links P.holds →
        (i k : I) (p q : A) → P.holds i p → P.holds k q →
        Path P.allows P.leads p q ↔ Path P.is_part P.links i k }
{}
