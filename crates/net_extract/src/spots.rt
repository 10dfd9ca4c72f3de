ghost use Rattle.std.specs.Prelude.{◌≡◌, ◌↔◌, All, IfOk, map};
ghost use Rattle.std.specs.List.{AllZip};
ghost use Rattle.geo_core.specs.Cells.{Has};
ghost use Rattle.geo_core.specs.declared.plane.Cell.{Cell as Square};
ghost use Rattle.net_extract.specs.AnchoredIslands.{IsSpotOf, IsSpotOfTerminal};
ghost use Rattle.net_extract.specs.inside.Anchoring.{IsThere, MayBeCovered};

use super::metal_terminals::{MetalTerminal, Standing};
use super::pieces::GroupList;
use fault_model::Spot;
use geo_core::{Cell, Rect, RectList};
use lists::NoMemory;
use std::alloc::Global;

/// For each of the terminals the spot that has its cells.
pub fn spots_of(
    alloc: Global,
    terminals: &[Standing],
    groups: &[GroupList],
) -> Result<Vec<Spot>, NoMemory>
    requires { All (λ standing. IsThere groups.now standing.terminal) terminals.now }
    ensures { IfOk result (λ spots.
        AllZip (IsSpotOfTerminal groups.now) (map (λ standing. standing.terminal) terminals.now) spots.items) }
{
    let mut spots = Vec::with_capacity(alloc, terminals.len())?;
    for standing in terminals {
        spots.push(spot_of(alloc, standing.terminal, groups)?)?;
    }
    Ok(spots)
}

/// The spot that has the terminal's cells.
fn spot_of(alloc: Global, terminal: MetalTerminal, groups: &[GroupList]) -> Result<Spot, NoMemory>
    requires { IsThere groups.now terminal }
    ensures { IfOk result (IsSpotOfTerminal groups.now terminal) }
{
    match terminal {
        MetalTerminal::Named(cell) => spot_at(alloc, cell),
        MetalTerminal::Group { cut, number } => {
            let group = &groups[cut].as_slice()[number];
            let rects = Vec::from_slice(alloc, group.rects.as_slice())?;
            Ok(Spot {
                rects: RectList::from_vec(rects),
            })
        }
    }
}

/// The spot that has this cell alone.
fn spot_at(alloc: Global, cell: Cell) -> Result<Spot, NoMemory>
    requires { MayBeCovered cell }
    ensures { IfOk result (IsSpotOf cell) }
{
    let mut rects = Vec::new(alloc);
    rects.push(unit_at(cell))?;
    Ok(Spot {
        rects: RectList::from_vec(rects),
    })
}

/// The rectangle that has this cell alone.
fn unit_at(cell: Cell) -> Rect
    requires { MayBeCovered cell }
    ensures { (c : Square) → Has result c ↔ (c ≡ cell) }
{
    Rect::new(cell.i, cell.j, cell.i + 1, cell.j + 1)
}
