//! The metals.

ghost use Rattle.std.specs.Prelude.{[]};
ghost use Rattle.first_refusal.specs.Checks.{Checks};
ghost use Rattle.toml.specs.View.{table_view};
ghost use Rattle.layer_map.specs.MapChecks.{Holds, checks_of_metals, fault_of};
ghost use Rattle.first_refusal.specs.Answers.{Answers};
ghost use Rattle.layer_map.specs.inside.ReadLayers.{AreSeen};
ghost use Rattle.layer_map.specs.inside.ReadMetals.{TakesMetals};

use super::fault::MapFault;
use super::layer_items::read_layer;
use super::paths;
use super::seen::Seen;
use super::values::array_at;
use map_model::layers::{Metal, Metals};
use map_model::limits::MOST_METALS;
use std::alloc::Global;
use toml::Table;

/// The keys of a metal.
pub const METAL_KEYS: [&str; 2] = ["name", "pairs"];

/// The metals, 1 to 16, which are the first layers that are seen.
pub fn read_metals(alloc: Global, document: &Table, seen: &mut Seen) -> Result<Metals, MapFault>
    requires { AreSeen [] seen.old }
    ensures { Answers MapFault.Memory (Checks
        (Holds (table_view document.now)) (checks_of_metals (table_view document.now)) fault_of
        (TakesMetals (table_view document.now) seen.new)) result }
{
    let items = array_at(document, "metal", paths::METALS)?;
    if items.is_empty() {
        return Err(MapFault::BadValue {
            path: paths::METALS,
        });
    }
    if items.len() > MOST_METALS {
        return Err(MapFault::LimitPassed {
            path: paths::METALS,
        });
    }
    let mut metals = Vec::new(alloc);
    for (number, item) in items.iter().enumerate() {
        let layer = read_layer(alloc, item, &METAL_KEYS, paths::metal(number), seen)?;
        metals.push(Metal {
            name: layer.name,
            pairs: layer.pairs,
        })?;
    }
    Ok(Metals::from_vec(metals))
}
