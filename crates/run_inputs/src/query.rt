ghost use Rattle.std.specs.Prelude.{◌≡◌, ◌+◌, ◌<◌, ◌≤◌, IfErr, IfOk, length};
ghost use Rattle.first_refusal.specs.Outcomes.{refused, value};
ghost use Rattle.map_model.specs.MapView.{layer_map_of};
ghost use Rattle.run_inputs.specs.Inquiries.{IsListedIn, IsQueryOf, QueryComesTo, RegionComesTo};
ghost use Rattle.run_inputs.specs.Refusals.{no_such_size};

use super::named_layers::number_of;
use super::refusal::{NO_SUCH_LAYER, Refusal};
use command_line::{Request, Task};
use geo_core::Cell;
use map_model::Map;
use questions::Kind;

/// A size of defects that a map lists.
#[derive(Clone, Copy)]
pub struct ListedSize {
    /// Its place in the map, counted from 0.
    pub place: u32,
    /// The size there.
    pub size: u32,
}

/// What is asked of a layout, in terms of its map.
#[derive(Clone, Copy)]
pub enum Query {
    /// The rows of a report.
    Report,
    /// The pairs of nets.
    Pairs {
        /// The size of the defects.
        size: ListedSize,
    },
    /// The nets that are nearest to a cell.
    Probe {
        /// The cell.
        cell: Cell,
    },
    /// The critical cells of one row of a report.
    Region {
        /// What a defect does there.
        kind: Kind,
        /// The number of the metal, or of the cut, as questions have it.
        number: u32,
        /// The size of the defects.
        size: ListedSize,
    },
}

/// The size with this number, counted from 1, where the map lists so many. Else the refusal is 48 with the number of the map's sizes.
fn size_of(map: &Map, number: u32) -> Result<ListedSize, Refusal>
    requires { 1 ≤ number }
    ensures there { IfOk result (λ listed. (number ≡ listed.place + 1) × IsListedIn map.now.sizes listed) }
    ensures lacking { IfErr result (λ refusal.
        (refusal ≡ no_such_size (length map.now.sizes)) × (length map.now.sizes < number)) }
{
    let sizes = map.sizes.as_slice();
    if number as usize > sizes.len() {
        return Err(Refusal::no_such_size(sizes.len()));
    }
    let place = number - 1;
    Ok(ListedSize {
        place,
        size: sizes[place as usize],
    })
}

/// The critical cells of this kind, on the layer with this name, for the size with this number.
fn region_of(map: &Map, kind: Kind, layer: &[u8], number: u32) -> Result<Query, Refusal>
    requires { 1 ≤ number }
    ensures query { IfOk result (λ query. RegionComesTo (layer_map_of map.now) kind layer.now number (value query)) }
    ensures there { IfOk result (IsQueryOf map.now) }
    ensures lacking { IfErr result (λ refusal. RegionComesTo (layer_map_of map.now) kind layer.now number (refused refusal)) }
{
    let size = size_of(map, number)?;
    let Some(number) = number_of(map, kind, layer) else {
        return Err(NO_SUCH_LAYER);
    };
    Ok(Query::Region { kind, number, size })
}

/// What the request asks of a layout with this map, or its refusal: 48 with the number of the map's sizes, where it names
/// one behind them, and else 49, where it names a layer that the map has not.
pub fn query_of(request: &Request, map: &Map) -> Result<Query, Refusal>
    ensures query { IfOk result (λ query. QueryComesTo request.now.task (layer_map_of map.now) (value query)) }
    ensures there { IfOk result (IsQueryOf map.now) }
    ensures lacking { IfErr result (λ refusal. QueryComesTo request.now.task (layer_map_of map.now) (refused refusal)) }
{
    match &request.task {
        Task::OneMetal { .. } | Task::Mapped { .. } | Task::Generated { .. } => Ok(Query::Report),
        Task::Pairs { size, .. } => Ok(Query::Pairs {
            size: size_of(map, *size)?,
        }),
        Task::Probe { cell, .. } => Ok(Query::Probe { cell: *cell }),
        Task::Regions {
            kind,
            layer,
            size,
            ..
        } => region_of(map, *kind, layer.as_slice(), *size),
    }
}
