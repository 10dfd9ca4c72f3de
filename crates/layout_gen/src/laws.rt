//! Laws of what is generated. Each is a function with an empty body, and its contract says what holds of the definitions.

ghost use Rattle.std.specs.Prelude.{ℕ};
ghost use Rattle.first_refusal.specs.Outcomes.{value};
ghost use Rattle.library_grammar.specs.FirstFault.{BytesComeTo};
ghost use Rattle.library_model.specs.declared.library.Library.{Library};
ghost use Rattle.gds_write.specs.SameLibrary.{IsSameButOffsets};
ghost use Rattle.layout_gen.specs.Generated.{generated_layout, generated_library};

/// The bytes of a generated layout read as the library that was generated, but for offsets.
pub fn generated_layouts_read()
    ensures { (columns : ℕ) → (read : Library) × IsSameButOffsets (generated_library columns) read ×
        BytesComeTo (generated_layout columns) (value read) }
{}
