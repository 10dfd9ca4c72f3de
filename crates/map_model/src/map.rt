ghost use Rattle.std.specs.Prelude.{ℕ, ◌≡◌, ◌↔◌, ◌≤◌, ◌<◌, Some, length, All};
ghost use Rattle.map_model.specs.LayerMap.{IsMappedTo};
ghost use Rattle.map_model.specs.Layers.{JoinsMetals, mapped_layers, names_of, pairs_of};
ghost use Rattle.map_model.specs.Limits.{AreSizes, AreWeights};
ghost use Rattle.lists.specs.Differing.{AreDifferent};
ghost use Rattle.map_model.specs.declared.limits.TheConstants.{MOST_METALS, MOST_CUTS, MOST_TERMINALS};

use super::layers::{Cuts, Metals, Sizes, Terminals, Weights, has_pair};
use super::measure::Measure;

/// A layer map. A cut's number as a layer follows those of all metals.
#[derive(Drop)]
pub struct Map {
    /// 1 to 16.
    pub metals: Metals,
    /// At most 16.
    pub cuts: Cuts,
    /// At most 10,000.
    pub terminals: Terminals,
    /// Whether the via clusters of cuts are terminals as well, each on both metals that its cut joins.
    pub contacts: bool,
    /// Whether sizes are radii or sides.
    pub measure: Measure,
    /// 1 to 32, each greater than the one before: radii of 1 to 1,000,000, or sides of 1 to 2,000,000.
    pub sizes: Sizes,
    /// One for each size, 0 to 1,000,000,000.
    pub weights: Weights,
    pub ghost some_metals: { 1 ≤ length metals },
    pub ghost few_metals: { length metals ≤ MOST_METALS },
    pub ghost few_cuts: { length cuts ≤ MOST_CUTS },
    pub ghost few_terminals: { length terminals ≤ MOST_TERMINALS },
    pub ghost are_sizes: { AreSizes measure sizes },
    pub ghost are_weights: { AreWeights (length sizes) weights },
    pub ghost names_differ: { AreDifferent (names_of (mapped_layers metals cuts)) },
    pub ghost pairs_differ: { AreDifferent (pairs_of (mapped_layers metals cuts)) },
    pub ghost terminals_differ: { AreDifferent terminals },
    pub ghost cuts_join: { All (JoinsMetals (length metals)) cuts },
    pub ghost on_metals: { All (λ terminal. terminal.metal < length metals) terminals },
}

impl Map {
    ghost use Rattle.std.specs.Prelude.{slice_index};
    ghost use Rattle.geo_core.specs.Bounds.{IsSide};
    ghost use Rattle.map_model.specs.MapView.{layer_map_of};
    ghost use Rattle.map_model.specs.Measures.{side_by};

    /// The side of the defects of the size with this number, counted from 0: twice a radius, or the side that is listed.
    pub fn side(&self, k: u32) -> u32
        requires below { k < length self.now.sizes }
        ensures side { result ≡ side_by self.now.measure (slice_index self.now.sizes k) }
        ensures within { IsSide result }
    {
        self.measure.side(self.sizes.as_slice()[k as usize])
    }

    /// The number of the layer that has this pair of a layer and a datatype of GDSII; `None` says that no layer has it.
    pub fn layer_of(&self, layer: u16, datatype: u16) -> Option<u32>
        ensures { (number : ℕ) → (result ≡ Some number) ↔ IsMappedTo (layer_map_of self.now) (layer, datatype) number }
    {
        let pair = (layer, datatype);
        'metals: for (number, metal) in self.metals.as_slice().iter().enumerate() {
            if has_pair(metal.pairs.as_slice(), pair) {
                return Some(number as u32);
            }
        }
        let metals = self.metals.as_slice().len();
        'cuts: for (number, cut) in self.cuts.as_slice().iter().enumerate() {
            if has_pair(cut.pairs.as_slice(), pair) {
                return Some((metals + number) as u32);
            }
        }
        None
    }
}
