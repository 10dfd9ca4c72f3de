ghost use Rattle.std.specs.Prelude.{IfOk, OnOk};
ghost use Rattle.geo_core.specs.Bounds.{IsRadius};
ghost use Rattle.short_area.specs.Zones.{AreAlikeIn};
ghost use Rattle.net_pairs.specs.Pairs.{ArePairAreas};
ghost use Rattle.net_pairs.specs.inside.PairGains.{GainsCells, IsInBoth};

use super::beside::add_few;
use super::crossings::add_runs;
use super::part_case::PartCase;
use super::sums::PairSums;
use super::ways::{NONE_TRIED, next_step};
use super::whole::zones_of_part;
use geo_core::{Labelled, Rect};
use lists::NoMemory;
use short_area::{two_label_area, zones_of};
use std::alloc::Global;
use union_area::parts_at;

/// For each two labels of which pieces are near one another, how many cells of the window are the centre of a defect that touches
/// pieces of both. The defect is the square of side `2r` round the cell's centre, in database units.
///
/// Each item has the lesser label, the greater one and the number of cells. A pair stands in the list exactly where there is
/// such a cell, once, and the pairs rise by the first label and then by the second: so no other list is an answer (`laws`).
/// A cell near three labels counts for each two of them. Pieces of one label may overlap, and labels are any numbers.
///
/// The one error is that no memory is left.
pub fn pair_areas(
    alloc: Global,
    pieces: &[Labelled],
    window: Rect,
    r: u32,
) -> Result<Vec<(usize, usize, u64)>, NoMemory>
    requires { IsRadius r }
    ensures { IfOk result (λ areas. ArePairAreas pieces.now r window areas.items) }
{
    let zones = zones_of(alloc, pieces, window, r)?;
    let mut sums = PairSums::new(alloc);
    add_areas(alloc, zones, window, NONE_TRIED, &mut sums)?;
    sums.finish(alloc)
}

/// Adds for each two labels the cells of the window in zones of both. Of more than an eighth of `hopeless` zones no runs are
/// tried, since so many had too many of them.
fn add_areas(
    alloc: Global,
    zones: Vec<Labelled>,
    window: Rect,
    hopeless: usize,
    sums: &mut PairSums,
) -> Result<(), NoMemory>
    ensures { OnOk result (GainsCells (IsInBoth zones.items) window sums.old.items.items sums.new.items.items) }
{
    match next_step(alloc, zones.as_slice(), window, hopeless)? {
        PartCase::Nothing => Ok(()),
        PartCase::Few => add_few(alloc, zones.as_slice(), window, sums),
        PartCase::Two(one, other) => {
            let cells = two_label_area(alloc, zones, window)?;
            sums.add(one, other, cells)
        }
        PartCase::Meet(runs) => add_runs(alloc, runs.as_slice(), window, sums),
        PartCase::Halve(axis, place, hopeless) => {
            let (first, second) = parts_at(window, axis, place);
            let (before, behind) = halves(alloc, zones, first, second)?;
            add_areas(alloc, before, first, hopeless, sums)?;
            add_areas(alloc, behind, second, hopeless, sums)
        }
    }
}

/// What the zones have in the one part and in the other, where a label that has all of the part has one zone. The zones themselves are
/// kept no longer.
fn halves(
    alloc: Global,
    zones: Vec<Labelled>,
    first: Rect,
    second: Rect,
) -> Result<(Vec<Labelled>, Vec<Labelled>), NoMemory>
    ensures first { IfOk result (λ both. AreAlikeIn first zones.items both.0.items) }
    ensures second { IfOk result (λ both. AreAlikeIn second zones.items both.1.items) }
{
    let before = zones_of_part(alloc, zones.as_slice(), first)?;
    let behind = zones_of_part(alloc, zones.as_slice(), second)?;
    Ok((before, behind))
}
