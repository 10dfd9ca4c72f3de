//! Facts about the definitions, each the contract of a function that does nothing else.

ghost use Rattle.std.specs.Prelude.{ℕ, ◌≡◌, false, List};
ghost use Rattle.first_refusal.specs.Outcomes.{value};
ghost use Rattle.first_refusal.specs.Laws.{IsUnique, CannotLack};
ghost use Rattle.toml.specs.Data.{Members};
ghost use Rattle.layer_map.specs.Documents.{GivesMap, MapComesTo};
ghost use Rattle.layer_map.specs.Sample.{sample_map, sample_text};
ghost use Rattle.map_model.specs.LayerMap.{LayerMap};
ghost use Rattle.map_model.specs.declared.measure.Measure.TheVariants.{Radius};

/// A document gives one layer map at most.
pub fn documents_give_one_map()
    ensures { (document : Members) → IsUnique (GivesMap document) }
{}

/// Bytes come to one layer map or one fault at most.
#[tactic(auto, using(crate::proofs::laws::Maps::maps_agree))]
pub fn maps_agree()
    ensures { (bytes : List ℕ) → IsUnique (MapComesTo bytes) }
{}

/// Bytes come to a layer map or a fault: it cannot be that they come to none.
#[tactic(auto, using(crate::proofs::laws::Maps::maps_cannot_lack))]
pub fn bytes_come_to_something()
    ensures { (bytes : List ℕ) → CannotLack (MapComesTo bytes) }
{}

/// Only beside sides may a map say that via clusters are terminals: where its sizes are radii they are not.
#[tactic(auto, using(crate::proofs::laws::Maps::radii_go_without_contacts))]
pub fn radii_go_without_contacts()
    ensures { (bytes : List ℕ) (layer_map : LayerMap) →
        MapComesTo bytes (value layer_map) → layer_map.measure ≡ Radius → layer_map.contacts ≡ false }
{}

/// The text of the sample comes to the sample's layer map.
#[tactic(auto, using(crate::proofs::SampleLaws::sample_comes_to_its_map))]
pub fn the_sample_comes_to_its_map()
    ensures { MapComesTo sample_text (value sample_map) }
{}
