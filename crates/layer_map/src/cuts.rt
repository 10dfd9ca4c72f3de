//! The cuts.

ghost use Rattle.std.specs.Prelude.{◌≡◌, ◌≢◌, ◌≤◌, ◌^◌, ◌<◌, List, length, map, IsSome, IfOk};
ghost use Rattle.first_refusal.specs.Checks.{Checks};
ghost use Rattle.toml.specs.Data.{Data, as_table};
ghost use Rattle.toml.specs.View.{table_view, view};
ghost use Rattle.layer_map.specs.CutChecks.{CutHolds, cut_checks, cut_fault, end_checks};
ghost use Rattle.lists.specs.Differing.{AreDifferent};
ghost use Rattle.layer_map.specs.MapChecks.{Holds, checks_of_cuts, fault_of};
ghost use Rattle.first_refusal.specs.Answers.{Answers};
ghost use Rattle.layer_map.specs.inside.ReadLayers.{AreSeen};
ghost use Rattle.layer_map.specs.inside.ReadMetals.{HaveNamesOf, TakesMetals};
ghost use Rattle.layer_map.specs.inside.ReadCuts.{TakesCut, TakesCuts, TakesEnds};
ghost use Rattle.map_model.specs.declared.limits.TheConstants.{MOST_METALS};

use super::fault::MapFault;
use super::items::metal_at;
use super::layer_items::read_layer;
use super::paths;
use super::seen::Seen;
use super::values::array_or_none_at;
use map_model::layers::{Cut, Cuts, Metal};
use map_model::limits::MOST_CUTS;
use std::alloc::Global;
use toml::{Table, Value};

/// The keys of a cut.
pub const CUT_KEYS: [&str; 4] = ["name", "pairs", "lower", "upper"];

/// The cuts, at most 16, which are seen behind these metals.
pub fn read_cuts(
    alloc: Global,
    document: &Table,
    metals: &[Metal],
    seen: &mut Seen,
) -> Result<Cuts, MapFault>
    requires { length metals.now ≤ MOST_METALS }
    ensures { TakesMetals (table_view document.now) seen.old metals.now →
        Answers MapFault.Memory (Checks
        (Holds (table_view document.now)) (checks_of_cuts (table_view document.now)) fault_of
        (TakesCuts (table_view document.now) metals.now)) result }
{
    let items = array_or_none_at(document, "cut", paths::CUTS)?;
    if items.len() > MOST_CUTS {
        return Err(MapFault::LimitPassed { path: paths::CUTS });
    }
    let mut cuts = Vec::new(alloc);
    for (number, item) in items.iter().enumerate() {
        let cut = read_cut(alloc, item, metals, paths::cut(number), seen)?;
        cuts.push(cut)?;
    }
    Ok(Cuts::from_vec(cuts))
}

/// What the item says of a cut, whose name and pairs are added to those so far.
fn read_cut(
    alloc: Global,
    item: &Value,
    metals: &[Metal],
    path: u32,
    seen: &mut Seen,
) -> Result<Cut, MapFault>
    requires few { length metals.now ≤ MOST_METALS }
    requires small { path < 2 ^ 31 }
    ensures { (items earlier : List Data) → HaveNamesOf items metals.now →
        AreDifferent (map (λ metal. metal.name) metals.now) → AreSeen earlier seen.old →
        Answers MapFault.Memory (Checks (CutHolds items earlier (view item.now)) cut_checks (cut_fault path)
        (TakesCut metals.now earlier (view item.now) seen.old seen.new)) result }
{
    let layer = read_layer(alloc, item, &CUT_KEYS, path, seen)?;
    let (lower, upper) = read_ends(item, metals, path)?;
    Ok(Cut {
        name: layer.name,
        pairs: layer.pairs,
        lower,
        upper,
    })
}

/// The numbers of the two metals that the cut joins, by its table.
fn read_ends(item: &Value, metals: &[Metal], path: u32) -> Result<(u32, u32), MapFault>
    requires few { length metals.now ≤ MOST_METALS }
    requires small { path < 2 ^ 31 }
    ensures judged { (items earlier : List Data) → HaveNamesOf items metals.now →
        AreDifferent (map (λ metal. metal.name) metals.now) → IsSome (as_table (view item.now)) →
        Answers MapFault.Memory (Checks (CutHolds items earlier (view item.now)) end_checks (cut_fault path)
        (TakesEnds metals.now (view item.now))) result }
    ensures differ { IfOk result (λ ends. ends.0 ≢ ends.1) }
{
    match item.as_table() {
        Some(table) => {
            let lower = metal_at(table, "lower", metals, path + paths::LOWER)?;
            let upper = metal_at(table, "upper", metals, path + paths::UPPER)?;
            if lower == upper {
                return Err(MapFault::BadValue {
                    path: path + paths::UPPER,
                });
            }
            Ok((lower, upper))
        }
        None => Err(MapFault::BadValue { path }),
    }
}
