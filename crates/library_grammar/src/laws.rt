//! Laws of the grammar. Each is a function with an empty body, and its contract says what holds of the definitions.

ghost use Rattle.std.specs.Prelude.{◌≡◌, ◌↔◌, ℕ, List, Some, IsSome};
ghost use Rattle.first_refusal.specs.Laws.{IsUnique, CannotLack};
ghost use Rattle.lists.specs.ByteLists.{AreBytes};
ghost use Rattle.lists.specs.Differing.{AreDifferent};
ghost use Rattle.first_refusal.specs.Outcomes.{value};
ghost use Rattle.gds_records.specs.RecordSpelling.{Entry};
ghost use Rattle.library_grammar.specs.FirstFault.{BytesComeTo};
ghost use Rattle.library_model.specs.Names.{names_of};
ghost use Rattle.library_model.specs.Points.{AreWellPointed};
ghost use Rattle.library_model.specs.declared.library.Library.{Library};
ghost use Rattle.library_grammar.specs.Grammar.{MayStand, kinds_of};
ghost use Rattle.library_grammar.specs.Places.{Place, before_header, next_place, place_behind};

/// Behind records that lead to a place, a record may stand exactly where the place has a next one for its kind.
/// So a reader that keeps its place alone refuses each record with which no library could go on, and no other.
pub fn places_say_what_may_stand()
    ensures { (before : List Entry) (e : Entry) (p : Place) → place_behind before_header (kinds_of before) ≡ Some p →
        MayStand before e ↔ IsSome (next_place p e.kind) }
{}

/// Bytes come to one thing at most: to one library, or to one first fault, and never to both.
#[tactic(auto, using(crate::proofs::laws::Libraries::libraries_agree))]
pub fn libraries_agree()
    ensures { (bytes : List ℕ) → IsUnique (BytesComeTo bytes) }
{}

/// Bytes come to a library or to a first fault: it cannot be that they come to neither.
#[tactic(auto, using(crate::proofs::laws::Libraries::bytes_come_to_something))]
pub fn bytes_come_to_something()
    ensures { (bytes : List ℕ) → AreBytes bytes → CannotLack (BytesComeTo bytes) }
{}

/// No two structures of a library that bytes come to have one name.
#[tactic(auto, using(crate::proofs::laws::Libraries::library_names_differ))]
pub fn names_differ()
    ensures { (bytes : List ℕ) (library : Library) → BytesComeTo bytes (value library) → AreDifferent (names_of library.structures) }
{}

/// Each shape of a library that bytes come to has its points.
#[tactic(auto, using(crate::proofs::laws::Libraries::library_is_pointed))]
pub fn shapes_are_well_pointed()
    ensures { (bytes : List ℕ) (library : Library) → BytesComeTo bytes (value library) → AreWellPointed library.structures }
{}
