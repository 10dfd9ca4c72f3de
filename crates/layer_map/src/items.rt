//! What the items of several arrays have in common.

ghost use Rattle.std.specs.Prelude.{◌≡◌, ◌≤◌, List, Some, map, length, slice_get};
ghost use Rattle.first_refusal.specs.Checks.{Checks};
ghost use Rattle.toml.specs.Data.{Data, table as table_value, get_member};
ghost use Rattle.toml.specs.View.{table_view, view};
ghost use Rattle.layer_map.specs.Documents.{NamesMetal};
ghost use Rattle.layer_map.specs.ItemChecks.{
  TableHolds,
  table_checks,
  table_fault,
  ReferenceHolds,
  reference_checks,
  reference_fault,
};
ghost use Rattle.map_model.specs.Layers.{metal_layer};
ghost use Rattle.first_refusal.specs.Answers.{Answers};
ghost use Rattle.layer_map.specs.inside.ReadValues.{Finds, texts_of};
ghost use Rattle.layer_map.specs.inside.ReadMetals.{HaveNamesOf};
ghost use Rattle.map_model.specs.declared.limits.TheConstants.{MOST_METALS};

use super::fault::MapFault;
use super::values::{has_only, text_at};
use map_model::layers::Metal;
use toml::{Table, Value};

/// The table that the item is, if it has no key but these.
pub fn table_of<'a>(item: &'a Value, known: &[&str], path: u32) -> Result<&'a Table, MapFault>
    ensures { Answers MapFault.Memory (Checks
        (TableHolds (texts_of known.now) (view item.now)) table_checks (table_fault path)
        (λ table. view item.now ≡ table_value (table_view table.now))) result }
{
    match item.as_table() {
        Some(table) => {
            if !has_only(table, known) {
                return Err(MapFault::BadKey { path });
            }
            Ok(table)
        }
        None => Err(MapFault::BadValue { path }),
    }
}

/// The number of the metal whose name stands at the key.
pub fn metal_at(table: &Table, key: &str, metals: &[Metal], path: u32) -> Result<u32, MapFault>
    requires { length metals.now ≤ MOST_METALS }
    ensures { (items : List Data) → HaveNamesOf items metals.now → Answers MapFault.Memory (Checks
        (ReferenceHolds items (get_member key.now (table_view table.now))) reference_checks (reference_fault path)
        (NamesMetal (map metal_layer metals.now) (get_member key.now (table_view table.now)))) result }
{
    match text_at(table, key) {
        Some(name) => match metal_named(metals, name.as_bytes()) {
            Some(number) => Ok(number),
            None => Err(MapFault::UnknownMetal { path }),
        },
        None => Err(MapFault::BadValue { path }),
    }
}

/// The number of the metal with this name.
fn metal_named(metals: &[Metal], name: &[u8]) -> Option<u32>
    requires { length metals.now ≤ MOST_METALS }
    ensures { Finds (λ number. slice_get (map (λ metal. metal.name) metals.now) number ≡ Some name.now) result }
{
    for (number, metal) in metals.iter().enumerate() {
        if metal.name.as_slice() == name {
            return Some(number as u32);
        }
    }
    None
}
