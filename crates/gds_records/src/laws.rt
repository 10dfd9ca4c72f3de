//! Laws of the table of records, of the split of bytes into records, of texts, and of reals. Each is a function with an
//! empty body, and its contract says what holds of the definitions.

ghost use Rattle.std.specs.Prelude.{◌≡◌, ◌≢◌, ℕ, List, [], ◌++◌, Contains};
ghost use Rattle.gds_records.specs.RecordSpelling.{Entry, spellings};
ghost use Rattle.lists.specs.ByteLists.{AreBytes};
ghost use Rattle.gds_records.specs.declared.table.Rule.{Rule};
ghost use Rattle.gds_records.specs.Table.{table};
ghost use Rattle.gds_records.specs.Split.{End, HasSplit, Splits, SplitsAgree, whole};
ghost use Rattle.gds_records.specs.Fields.{TextsAgree};
ghost use Rattle.gds_records.specs.Reals.{HasValue};
ghost use Rattle.first_refusal.specs.Laws.{IsUnique};

/// A kind has one rule at most in the table.
pub fn rules_agree()
    ensures { (kind : ℕ) → IsUnique (λ (rule : Rule). Contains table (kind, rule)) }
{}

/// A string of bytes splits in at most one way.
pub fn splits_agree()
    ensures { (offset : ℕ) (bytes : List ℕ) → SplitsAgree offset bytes }
{}

/// Every string of bytes splits.
pub fn all_bytes_split()
    ensures { (offset : ℕ) (bytes : List ℕ) → AreBytes bytes → HasSplit offset bytes }
{}

/// Bytes behind ENDLIB, as tapes have them, change nothing.
pub fn padding_is_ignored()
    ensures { (offset : ℕ) (bytes padding : List ℕ) (entries : List Entry) →
        Splits offset bytes entries whole → Splits offset (bytes ++ padding) entries whole }
{}

/// The records of a whole stream without its last bytes are no whole stream.
pub fn cut_streams_are_not_whole()
    ensures { (offset : ℕ) (front lost : List ℕ) (entries others : List Entry) → lost ≢ [] →
        front ++ lost ≡ spellings entries → Splits offset (front ++ lost) entries whole →
        Splits offset front others whole → ⊥ }
{}

/// A body has one text.
pub fn texts_agree()
    ensures { (body : List ℕ) → TextsAgree body }
{}

/// A real has one whole value at most.
pub fn values_agree()
    ensures { (bytes : List ℕ) → IsUnique (HasValue bytes) }
{}
