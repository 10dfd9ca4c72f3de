ghost use Rattle.std.specs.Prelude.{◌≡◌, IfOk, map};
ghost use Rattle.geo_core.specs.Bounds.{IsRadius};
ghost use Rattle.map_model.specs.LayerMap.{one_metal_map};
ghost use Rattle.map_model.specs.Layers.{metal_layer};
ghost use Rattle.map_model.specs.MapView.{layer_map_of};

use super::layers::{Cuts, Metal, Metals, Pairs, Sizes, Terminals, Weights};
use super::map::Map;
use super::measure::Measure;
use super::name::LayerName;
use lists::NoMemory;
use std::alloc::Global;

/// The metal `m` of this layer and datatype, alone.
fn metal_of(alloc: Global, layer: u16, datatype: u16) -> Result<Metals, NoMemory>
    ensures { IfOk result (λ metals. map metal_layer metals ≡ (one_metal_map layer datatype 1).metals) }
{
    let metal = Metal {
        name: LayerName::m(),
        pairs: Pairs::from_vec(vec![in alloc; (layer, datatype)]?),
    };
    Ok(Metals::from_vec(vec![in alloc; metal]?))
}

/// The map of one metal, named `m`, of this layer and datatype, for one radius of 1 to 1,000,000 with the weight 1.
pub fn one_metal(alloc: Global, layer: u16, datatype: u16, radius: u32) -> Result<Map, NoMemory>
    requires { IsRadius radius }
    ensures { IfOk result (λ made. layer_map_of made ≡ one_metal_map layer datatype radius) }
{
    Ok(Map {
        metals: metal_of(alloc, layer, datatype)?,
        cuts: Cuts::from_vec(Vec::new(alloc)),
        terminals: Terminals::from_vec(Vec::new(alloc)),
        contacts: false,
        measure: Measure::Radius,
        sizes: Sizes::from_vec(vec![in alloc; radius]?),
        weights: Weights::from_vec(vec![in alloc; 1]?),
    })
}
