//! The cases of a ring's answers.

ghost use Rattle.first_refusal.specs.Laws.{IsUnique, CannotLack};
ghost use Rattle.fault_model.specs.IslandLists.{IslandLists};
ghost use Rattle.ring_test.specs.RingAnswers.{IsRingAnswer};
ghost use Rattle.ring_test.specs.Rings.{Hole};

/// Of an island and a hole one answer is right at most, and it cannot be that none is: the cases of the answers leave nothing
/// out, and no two of them meet.
pub fn ring_answers_are_cases()
    ensures one { (island : IslandLists) (hole : Hole) → IsUnique (IsRingAnswer island hole) }
    ensures some { (island : IslandLists) (hole : Hole) → CannotLack (IsRingAnswer island hole) }
{}
