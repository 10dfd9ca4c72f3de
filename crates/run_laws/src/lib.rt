//! Laws of runs.
//!
//! What they come to is no matter of choice, but for the rectangles of a region file; tiles and workers change none of it; gauges are
//! told what is asked alone; and region files have the cells of their rows for whoever reads them. They are laws of the definitions of
//! `critarea_core`, each the contract of a function that does nothing else.
#![tactic(auto)]

mod region_files;

ghost use Rattle.std.specs.Prelude.{ℕ, ◌≡◌, ◌≢◌, ◌↔◌, false, List, Option, Vec};
ghost use Rattle.first_refusal.specs.Laws.{IsUnique, CannotLack};
ghost use Rattle.first_refusal.specs.Outcomes.{Outcome, refused, value};
ghost use Rattle.critarea_core.specs.Analysis.{AnalysisComesTo};
ghost use Rattle.critarea_core.specs.Contents.{Contents, file, layout_source};
ghost use Rattle.critarea_core.specs.Outputs.{AreRowsOn, Due, IsDue, whole_report};
ghost use Rattle.critarea_core.specs.Inquiries.{Inquiry, QueryComesTo};
ghost use Rattle.command_line.specs.Requests.{Ask};
ghost use Rattle.command_line.specs.declared.request.Request.{Request};
ghost use Rattle.command_line.specs.declared.task.Task.{Task};
ghost use Rattle.command_line.specs.declared.task.Task.TheVariants.{Pairs, Regions};
ghost use Rattle.gauges.specs.GaugeViews.{GaugeView};
ghost use Rattle.gauges.specs.declared.pair_row.PairRow.{PairRow};
ghost use Rattle.lists.specs.ByteLists.{AreBytes};
ghost use Rattle.lists.specs.Words.{Global};
ghost use Rattle.critarea_core.specs.Layout.{Subject};
ghost use Rattle.critarea_core.specs.Refusals.{no_such_layer, no_such_size};
ghost use Rattle.critarea_core.specs.Run.{Change, EndsWith, Gauges, Output};
ghost use Rattle.critarea_core.specs.Verdict.{IsVerdict, LayoutComesTo, MapComesTo};
ghost use Rattle.run_inputs.specs.declared.layout_fault.LayoutFault.{LayoutFault};
ghost use Rattle.run_inputs.specs.declared.query.Query.{Query};
ghost use Rattle.run_inputs.specs.declared.refusal.Refusal.{Refusal};
ghost use Rattle.map_model.specs.LayerMap.{LayerMap};
ghost use Rattle.map_model.specs.declared.measure.Measure.TheVariants.{Radius};
ghost use Rattle.questions.specs.declared.kind.Kind.{Kind};
ghost use Rattle.questions.specs.declared.row.Row.{Row};
ghost use Rattle.fault_model.specs.Areas.{Tally};
ghost use Rattle.geo_core.specs.declared.plane.Cell.{Cell};
ghost use Rattle.run_laws.specs.AlikeDues.{AreAlikeDue, IsForRegions};
ghost use Rattle.run_laws.specs.ListedSizes.{LacksLayer, ListsFewer};
ghost use Rattle.run_laws.specs.NamedFiles.{HoldTheSame};
ghost use Rattle.run_laws.specs.RefusalStages.{IsOfStage};
ghost use Rattle.run_laws.specs.TaskRows.{GivesPairs, GivesRegion, GivesReport, NamesSize};

use edge_io::Files;
use fault_model::Property;
pub use region_files::region_files_have_their_cells;

/// A layer map, a top that is wanted or not, and the bytes of a layout come to one subject, or to one refusal, at most.
#[tactic(auto, using(run_inputs::proofs::laws::VerdictLaws::layout_outcomes_agree))]
pub fn layouts_agree()
    ensures { (layer_map : LayerMap) (wanted : Option (List ℕ)) (bytes : List ℕ) → IsUnique (LayoutComesTo layer_map wanted bytes) }
{}

/// Words have one verdict at most, where files contain this.
#[tactic(auto, using(run_inputs::proofs::laws::VerdictLaws::verdicts_agree))]
pub fn verdicts_agree()
    ensures { (words : List (List ℕ)) (contents : Contents) → IsUnique (IsVerdict words contents) }
{}

/// Words have a verdict where the file of the layout that they name, if they name one, contains bytes and it is looked at, as it
/// is where the map is good and has what is asked of it: it cannot be that they have none.
#[tactic(auto, using(crate::proofs::ExistLaws::verdict_cannot_lack))]
pub fn contents_have_verdicts()
    ensures { (words : List (List ℕ)) (contents : Contents) →
        ((request : Request) (layer_map : LayerMap) (query : Query) (name : List ℕ) → Ask words request →
        MapComesTo request.task contents.map (value layer_map) → QueryComesTo request.task layer_map (value query) →
        layout_source request.task ≡ file name → AreBytes (contents.layout name)) →
        CannotLack (IsVerdict words contents) }
{}

/// A refusal of a verdict tells its stage. Of the words it has the status 2 and the number 2; of the map the status 3 and a number
/// from 39 to 47, or, where the map is good, 48 where it lacks the size that is asked of it, and 49 where it lacks the layer; of the
/// layout the status 4 and a number from 9 to 36, or 50 where a terminal is not on its metal.
#[tactic(auto, using(crate::proofs::StageLaws::refusals_tell_stages))]
pub fn refusals_tell_stages()
    ensures { (words : List (List ℕ)) (contents : Contents) (refusal : Refusal) →
        IsVerdict words contents (refused refusal) → IsOfStage refusal }
{}

/// Where words ask for pairs of nets or for the critical cells of a row, the verdict is 48 at a number of sizes exactly where the map's
/// file holds a good map that lists so many and fewer than the task names, whatever the layout's file holds. No other task is
/// refused with 48.
pub fn lacking_sizes_are_refused()
    ensures pairs { (words : List (List ℕ)) (request : Request) (layout map : List ℕ) (top : Option (List ℕ)) (number sizes : ℕ)
        (contents : Contents) → Ask words request → request.task ≡ Pairs layout map top number →
        IsVerdict words contents (refused (no_such_size sizes)) ↔ ListsFewer (contents.map map) number sizes }
    ensures regions { (words : List (List ℕ)) (request : Request) (layout map : List ℕ) (top : Option (List ℕ)) (kind : Kind)
        (layer : List ℕ) (number sizes : ℕ) (contents : Contents) → Ask words request →
        request.task ≡ Regions layout map top kind layer number →
        IsVerdict words contents (refused (no_such_size sizes)) ↔ ListsFewer (contents.map map) number sizes }
    ensures others { (words : List (List ℕ)) (request : Request) (contents : Contents) (refusal : Refusal) → Ask words request →
        (NamesSize request.task → ⊥) → IsVerdict words contents (refused refusal) → refusal.number ≢ 48 }
{}

/// Where words ask for the critical cells of a row, the verdict is 49 exactly where the map's file holds a good map that lists as many
/// sizes as the task's number or more, and has no layer of the kind with the name, whatever the layout's file holds. No other task
/// is refused with 49.
pub fn lacking_layers_are_refused()
    ensures regions { (words : List (List ℕ)) (request : Request) (layout map : List ℕ) (top : Option (List ℕ)) (kind : Kind)
        (layer : List ℕ) (number : ℕ) (contents : Contents) → Ask words request →
        request.task ≡ Regions layout map top kind layer number →
        IsVerdict words contents (refused no_such_layer) ↔ LacksLayer (contents.map map) kind layer number }
    ensures others { (words : List (List ℕ)) (request : Request) (contents : Contents) (refusal : Refusal) → Ask words request →
        (GivesRegion request.task → ⊥) → IsVerdict words contents (refused refusal) → refusal.number ≢ 49 }
{}

/// Words that ask for the same task have the same verdict, whatever they say of tiles and workers.
pub fn tiles_and_workers_change_no_verdict()
    ensures { (words other : List (List ℕ)) (one same : Request) → Ask words one → Ask other same → one.task ≡ same.task →
        (contents : Contents) (outcome : Outcome Inquiry Refusal) → IsVerdict words contents outcome → IsVerdict other contents outcome }
{}

/// A verdict looks at the named files alone: where the file that the words name as the map holds the same as a map, and the one
/// that they name as the layout the same as a layout, the verdict is the same, whatever other files hold.
pub fn verdicts_look_at_named_files()
    ensures { (words : List (List ℕ)) (request : Request) → Ask words request →
        (contents other : Contents) → HoldTheSame request.task contents other →
        (outcome : Outcome Inquiry Refusal) → IsVerdict words contents outcome → IsVerdict words other outcome }
{}

/// Words that ask for the same task are due the same where the named files hold the same and the same gauges are told of it: what is
/// due of the layout to which the ones come is what is due of that to which the others come, its text byte for byte and the rows
/// that gauges are told. Of the critical cells of a row, beside which words can give neither tiles nor workers, the two texts are
/// files of the same cells.
pub fn tiles_and_workers_change_no_byte()
    ensures bytes { (words other : List (List ℕ)) (one same : Request) → Ask words one → Ask other same → one.task ≡ same.task →
        (GivesRegion one.task → ⊥) → (contents found : Contents) → HoldTheSame one.task contents found → (inquiry also : Inquiry)
        (due too : Due) (gauges : List (GaugeView Row)) (pair_gauges : List (GaugeView PairRow)) →
        IsVerdict words contents (value inquiry) → IsDue inquiry gauges pair_gauges due →
        IsVerdict other found (value also) → IsDue also gauges pair_gauges too → due ≡ too }
    ensures alike { (words other : List (List ℕ)) (one same : Request) → Ask words one → Ask other same → one.task ≡ same.task →
        (contents found : Contents) → HoldTheSame one.task contents found → (inquiry also : Inquiry) (due too : Due)
        (gauges : List (GaugeView Row)) (pair_gauges : List (GaugeView PairRow)) →
        IsVerdict words contents (value inquiry) → IsDue inquiry gauges pair_gauges due →
        IsVerdict other found (value also) → IsDue also gauges pair_gauges too → AreAlikeDue inquiry due too }
{}

/// A layer map, a top that is wanted or not, and the bytes of a layout come to one list of rows, or to one fault, and never to
/// both.
pub fn analyses_agree()
    ensures rows { (layer_map : LayerMap) (wanted : Option (List ℕ)) (bytes : List ℕ) (rows others : Vec Row Global) →
        AnalysisComesTo layer_map wanted bytes (value rows) → AnalysisComesTo layer_map wanted bytes (value others) →
        rows.items ≡ others.items }
    ensures fault { (layer_map : LayerMap) (wanted : Option (List ℕ)) (bytes : List ℕ) (fault other : LayoutFault) →
        AnalysisComesTo layer_map wanted bytes (refused fault) → AnalysisComesTo layer_map wanted bytes (refused other) →
        fault ≡ other }
    ensures apart { (layer_map : LayerMap) (wanted : Option (List ℕ)) (bytes : List ℕ) (rows : Vec Row Global) (fault : LayoutFault) →
        AnalysisComesTo layer_map wanted bytes (value rows) → AnalysisComesTo layer_map wanted bytes (refused fault) → ⊥ }
{}

/// The rows on a subject are one list at most.
pub fn rows_agree()
    ensures { (subject : Subject) → IsUnique (AreRowsOn subject) }
{}

/// A subject has one report at most with gauges of which this is known.
pub fn reports_agree()
    ensures { (subject : Subject) (rows others : List Row) (gauges : List (GaugeView Row)) →
        AreRowsOn subject rows → AreRowsOn subject others → whole_report rows gauges ≡ whole_report others gauges }
{}

/// One thing at most is due of a layout and what is asked of it, with gauges of which this is known: one text, one list of rows and
/// one of rows of pairs. Where the critical cells of a row are asked for, any file of them is due: their rectangles may differ, and
/// the cells, the rows and the room do not.
pub fn dues_agree()
    ensures bytes { (inquiry : Inquiry) (gauges : List (GaugeView Row)) (pair_gauges : List (GaugeView PairRow)) →
        (IsForRegions inquiry.query → ⊥) → IsUnique (IsDue inquiry gauges pair_gauges) }
    ensures alike { (inquiry : Inquiry) (gauges : List (GaugeView Row)) (pair_gauges : List (GaugeView PairRow)) (due other : Due) →
        IsDue inquiry gauges pair_gauges due → IsDue inquiry gauges pair_gauges other → AreAlikeDue inquiry due other }
{}

/// Gauges are told what is asked alone, however a run ends: one of a task that gives no report leaves the gauges of its rows as they
/// were, and one of a task that gives no pairs of nets the gauges of those. Of the files `sure` alone is read, the names of
/// which they are sure.
pub fn gauges_are_told_what_is_asked<F: Files>()
    ensures rows { (words : List (List ℕ)) (request : Request) → Ask words request → (GivesReport request.task → ⊥) →
        (files : F) (holds : Change (List ℕ → Option (List ℕ))) (starts : Change (Option (List (List ℕ)))) (failures : Change ℕ)
        (out err : Output) (gauges : Gauges) (status : ℕ) →
        EndsWith words (record {
          files = record { holds = holds; sure = F.sure files; starts = starts; failures = failures };
          out = out;
          err = err;
          gauges = gauges;
        }) status →
        gauges.of_rows.after ≡ gauges.of_rows.before }
    ensures pairs { (words : List (List ℕ)) (request : Request) → Ask words request → (GivesPairs request.task → ⊥) →
        (files : F) (holds : Change (List ℕ → Option (List ℕ))) (starts : Change (Option (List (List ℕ)))) (failures : Change ℕ)
        (out err : Output) (gauges : Gauges) (status : ℕ) →
        EndsWith words (record {
          files = record { holds = holds; sure = F.sure files; starts = starts; failures = failures };
          out = out;
          err = err;
          gauges = gauges;
        }) status →
        gauges.of_pairs.after ≡ gauges.of_pairs.before }
{}

/// Where the sizes of a task's map are radii, as they are in maps of version 1, in that of one metal and in that of a generated
/// layout, via clusters are no terminals. So what its rows count as opens are those of `area_parts::laws::opens_are_of_cells`:
/// a defect parts two cells that the map names as terminals.
#[tactic(auto, using(crate::proofs::MapLaws::maps_by_radii_name_terminals))]
pub fn maps_by_radii_name_terminals()
    ensures { (task : Task) (bytes : List ℕ → List ℕ) (layer_map : LayerMap) →
        MapComesTo task bytes (value layer_map) → layer_map.measure ≡ Radius → layer_map.contacts ≡ false }
{}

/// A property has a tally over each list of cells: it cannot be that it has none.
pub fn tallies_cannot_be_lacking<P: Property>()
    ensures { (cells : List Cell) → CannotLack (Tally P.holds cells) }
{}
