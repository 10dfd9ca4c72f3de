ghost use Rattle.first_refusal.specs.Checks.{Checks};
ghost use Rattle.first_refusal.specs.Outcomes.{Reads};
ghost use Rattle.toml.specs.View.{table_view};
ghost use Rattle.layer_map.specs.Documents.{GivesMap, IsDocument, MapComesTo, value_as};
ghost use Rattle.layer_map.specs.MapChecks.{Holds, checks_of, fault_of};
ghost use Rattle.map_model.specs.MapView.{layer_map_of};
ghost use Rattle.first_refusal.specs.Answers.{Answers};

use super::cuts::read_cuts;
use super::fault::MapFault;
use super::metals::read_metals;
use super::seen::Seen;
use super::sizes::{check_head, measure_of, read_sizes, read_weights};
use super::terminals::{read_contacts, read_terminals};
use map_model::map::Map;
use std::alloc::Global;
use toml::Table;

/// The layer map that the bytes say, or why they say none: `Syntax` for bytes that are no TOML document, and else the
/// first fault in this order: the document's keys, version, sizes, weights, metals, cuts, terminals, and of these one
/// item after the other; and last whether via clusters are terminals.
pub fn read_map(alloc: Global, bytes: &[u8]) -> Result<Map, MapFault>
    ensures answers { Answers MapFault.Memory (λ outcome. MapComesTo bytes.now (value_as layer_map_of outcome)) result }
{
    let document = read_document(alloc, bytes)?;
    map_of(alloc, &document)
}

/// The document that the bytes are.
fn read_document(alloc: Global, bytes: &[u8]) -> Result<Table, MapFault>
    ensures { Answers MapFault.Memory (λ outcome.
        Reads (IsDocument bytes.now) MapFault.Syntax (value_as table_view outcome)) result }
{
    match toml::table_from_slice(alloc, bytes) {
        Ok(document) => Ok(document),
        Err(error) => {
            if error.is_memory() {
                return Err(MapFault::Memory);
            }
            Err(MapFault::Syntax)
        }
    }
}

/// The map that the document gives.
fn map_of(alloc: Global, document: &Table) -> Result<Map, MapFault>
    ensures { Answers MapFault.Memory (Checks
        (Holds (table_view document.now)) (checks_of (table_view document.now)) fault_of
        (λ made. GivesMap (table_view document.now) (layer_map_of made))) result }
{
    check_head(document)?;
    let sizes = read_sizes(alloc, document)?;
    let weights = read_weights(alloc, document, sizes.as_slice().len())?;
    let mut seen = Seen::new(alloc);
    let metals = read_metals(alloc, document, &mut seen)?;
    let cuts = read_cuts(alloc, document, metals.as_slice(), &mut seen)?;
    let terminals = read_terminals(alloc, document, metals.as_slice())?;
    let contacts = read_contacts(document)?;
    Ok(Map {
        metals,
        cuts,
        terminals,
        contacts,
        measure: measure_of(document),
        sizes,
        weights,
    })
}
