//! A law of region files, as whoever reads them has them.

ghost use Rattle.std.specs.Prelude.{ℕ, List, Option, Contains, Some, length, slice_get, ◌≤◌, ◌≡◌, ◌↔◌};
ghost use Rattle.critarea_core.specs.Outputs.{AreRowsOn, Due, IsRegionDue};
ghost use Rattle.critarea_core.specs.Layout.{Subject};
ghost use Rattle.fault_model.specs.Areas.{Tally, cells_of_window};
ghost use Rattle.first_refusal.specs.Outcomes.{value};
ghost use Rattle.geo_core.specs.declared.plane.Cell.{Cell};
ghost use Rattle.geo_core.specs.declared.plane.Rect.{Rect};
ghost use Rattle.library_grammar.specs.FirstFault.{BytesComeTo};
ghost use Rattle.library_model.specs.declared.library.Library.{Library};
ghost use Rattle.questions.specs.Questions.{questions};
ghost use Rattle.questions.specs.declared.kind.Kind.{Kind};
ghost use Rattle.questions.specs.declared.question.Question.{Question};
ghost use Rattle.questions.specs.declared.row.Row.{Row};
ghost use Rattle.region_out.specs.RegionCells.{IsCoveredByTop};
ghost use Rattle.run_laws.specs.SubjectFaults.{IsFaultOn, IsWindowOn};

/// A region file has the cells of its row for whoever reads it. It reads as a library, whose top covers on layer 1 with datatype 0
/// exactly the cells of the window at which a defect of the size makes the fault. They are as many as the row of a report says that
/// stands where the question stands among those of the map. The file is no longer than the room of which the output has to be sure.
pub fn region_files_have_their_cells()
    ensures reads { (subject : Subject) (kind : Kind) (number size : ℕ) (due : Due) →
        IsRegionDue subject kind number size due → (read : Library) × BytesComeTo due.text (value read) }
    ensures covers { (subject : Subject) (kind : Kind) (number size : ℕ) (due : Due) (read : Library) (window : Option Rect) (c : Cell) →
        IsRegionDue subject kind number size due → BytesComeTo due.text (value read) → IsWindowOn subject window →
        IsCoveredByTop read.structures 1 0 c
        ↔ (Contains (cells_of_window window) c × IsFaultOn subject kind number size c) }
    ensures count { (subject : Subject) (rows : List Row) (k : ℕ) (question : Question) (row : Row) (due : Due) (read : Library)
        (window : Option Rect) →
        AreRowsOn subject rows → slice_get (questions subject.layer_map) k ≡ Some question → slice_get rows k ≡ Some row →
        IsRegionDue subject question.kind question.number question.size due → BytesComeTo due.text (value read) →
        IsWindowOn subject window → Tally (IsCoveredByTop read.structures 1 0) (cells_of_window window) row.area }
    ensures fits { (subject : Subject) (kind : Kind) (number size : ℕ) (due : Due) →
        IsRegionDue subject kind number size due → length due.text ≤ due.room }
{}
