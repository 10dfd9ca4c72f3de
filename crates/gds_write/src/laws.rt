//! Laws of what is written. Each is a function with an empty body, and its contract says what holds of the definitions.

ghost use Rattle.std.specs.Prelude.{ℕ, List};
ghost use Rattle.first_refusal.specs.Outcomes.{value};
ghost use Rattle.gds_records.specs.RecordSpelling.{spellings};
ghost use Rattle.library_grammar.specs.FirstFault.{BytesComeTo};
ghost use Rattle.library_model.specs.declared.library.Library.{Library};
ghost use Rattle.gds_write.specs.SameLibrary.{IsSameButOffsets};
ghost use Rattle.gds_write.specs.WellFormed.{IsWellFormed};
ghost use Rattle.gds_write.specs.Written.{written};

/// What is written of a well-formed library reads as the same library, but for offsets.
pub fn written_reads()
    ensures { (library : Library) → IsWellFormed library →
        (read : Library) × IsSameButOffsets library read × BytesComeTo (spellings (written library)) (value read) }
{}

/// A library that bytes come to is well formed, so that it can be written.
#[tactic(auto, using(crate::proofs::ReadWellFormed::come_to_well_formed))]
pub fn read_is_well_formed()
    ensures { (bytes : List ℕ) (library : Library) → BytesComeTo bytes (value library) → IsWellFormed library }
{}
