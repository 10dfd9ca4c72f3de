ghost use Rattle.std.specs.Prelude.{◌≡◌, ◌≤◌, ◌<◌, ◌^◌, ◌++◌, IfOk, OnOk, All, length};
ghost use Rattle.map_model.specs.MapView.{layer_map_of};
ghost use Rattle.geo_core.specs.declared.bounds.TheConstants.{GREATEST_SIDE};
ghost use Rattle.map_model.specs.declared.limits.TheConstants.{GREATEST_WEIGHT};
ghost use Rattle.questions.specs.Questions.{IsAskable, IsRowFor, cut_layers, metal_layers, of_kind, of_sizes, questions, side_of};
ghost use Rattle.questions.specs.declared.kind.Kind.TheVariants.{Via};
ghost use Rattle.questions.specs.declared.row.TheConstants.{MOST_ROWS};

use super::kind::Kind;
use super::row::Row;
use lists::NoMemory;
use map_model::{LayerName, Map, Measure};
use std::alloc::Global;

/// For how many cells one kind of fault happens, on one metal or at one cut, by defects of one size.
#[derive(Clone, Copy)]
pub struct Question {
    /// The kind of fault.
    pub kind: Kind,
    /// The number of the metal or cut.
    pub number: u32,
    /// Its name.
    pub layer: LayerName,
    /// Whether the size is a radius or a side.
    pub measure: Measure,
    /// The size of the defects.
    pub size: u32,
    /// By what the area counts in the totals.
    pub weight: u64,
}

impl Question {
    /// The side of the defects, in database units.
    pub fn side(&self) -> u32
        requires small { side_of self.now ≤ GREATEST_SIDE }
        ensures { result ≡ side_of self.now }
    {
        self.measure.side(self.size)
    }

    /// The row that answers the question by this area.
    pub fn row(&self, area: u64) -> Row
        requires small_area { area < 2 ^ 63 }
        requires small_weight { self.now.weight ≤ GREATEST_WEIGHT }
        ensures is_for { IsRowFor self.now result }
        ensures area { result.area ≡ area }
    {
        Row {
            kind: self.kind,
            layer: self.layer,
            measure: self.measure,
            size: self.size,
            area,
            weight: self.weight,
        }
    }
}

/// The questions of a map in the order of its report: shorts of each metal, opens of each metal and blocks of each cut,
/// and there one for each size. The only error is that no memory is left.
pub fn questions_of(alloc: Global, map: &Map) -> Result<Vec<Question>, NoMemory>
    ensures questions { IfOk result (λ asked. asked.items ≡ questions (layer_map_of map.now)) }
    ensures askable { IfOk result (λ asked. All (IsAskable (length map.now.metals) (length map.now.cuts)) asked.items) }
    ensures few { IfOk result (λ asked. length asked.items ≤ MOST_ROWS) }
{
    let mut asked = Vec::new(alloc);
    ask_of_metals(map, Kind::Short, &mut asked)?;
    ask_of_metals(map, Kind::Open, &mut asked)?;
    ask_of_cuts(map, &mut asked)?;
    Ok(asked)
}

/// Adds the questions of this kind of each metal.
fn ask_of_metals(map: &Map, kind: Kind, asked: &mut Vec<Question>) -> Result<(), NoMemory>
    ensures { let layer_map = layer_map_of map.now in
        OnOk result (asked.new.items ≡ asked.old.items ++ of_kind kind (metal_layers layer_map) layer_map.measure layer_map.sizes) }
{
    for (number, metal) in map.metals.as_slice().iter().enumerate() {
        ask(map, kind, number as u32, metal.name, asked)?;
    }
    Ok(())
}

/// Adds the questions of each cut. The numbers of cuts go on behind those of the metals.
fn ask_of_cuts(map: &Map, asked: &mut Vec<Question>) -> Result<(), NoMemory>
    ensures { let layer_map = layer_map_of map.now in
        OnOk result (asked.new.items ≡ asked.old.items ++ of_kind Via (cut_layers layer_map) layer_map.measure layer_map.sizes) }
{
    let metals = map.metals.as_slice().len();
    for (number, cut) in map.cuts.as_slice().iter().enumerate() {
        ask(map, Kind::Via, (metals + number) as u32, cut.name, asked)?;
    }
    Ok(())
}

/// Adds the questions of this kind on one metal or cut, one for each size.
fn ask(
    map: &Map,
    kind: Kind,
    number: u32,
    layer: LayerName,
    asked: &mut Vec<Question>,
) -> Result<(), NoMemory>
    ensures { let layer_map = layer_map_of map.now in
        OnOk result (asked.new.items ≡ asked.old.items ++ of_sizes kind number layer layer_map.measure layer_map.sizes) }
{
    for (k, size) in map.sizes.as_slice().iter().enumerate() {
        asked.push(Question {
            kind,
            number,
            layer,
            measure: map.measure,
            size: *size,
            weight: map.weights.as_slice()[k],
        })?;
    }
    Ok(())
}
