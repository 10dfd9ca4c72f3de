ghost use Rattle.std.specs.Prelude.{◌↔◌, IfOk};
ghost use Rattle.geo_core.specs.Bounds.{IsRadius};
ghost use Rattle.geo_core.specs.Cells.{Has};
ghost use Rattle.geo_core.specs.Unions.{IsInUnion};
ghost use Rattle.geo_core.specs.declared.plane.Cell.{Cell};
ghost use Rattle.skyline_runs.specs.Runs.{AreApart, IsInTwo};
ghost use Rattle.union_area.specs.PartRects.{GainsPart};
ghost use Rattle.short_area.specs.Labels.{TouchesTwoLabels};
ghost use Rattle.short_area.specs.Zones.{IsInTwoLabels};
ghost use Rattle.short_area.specs.inside.ZonesNearCells.{HaveNoThird};

use super::halves::halves;
use super::labels::split;
use super::part_case::{NONE_TRIED, PartCase, left_of};
use super::twice::with_twice;
use super::zones::zones_of;
use geo_core::{Labelled, Rect};
use joined_rects::Gathered;
use lists::NoMemory;
use std::alloc::Global;
use union_area::{parts_at, union_rects};

/// The cells of the window that are the centre of a defect that touches pieces of two labels, as rectangles without common
/// cells. The defect is the square of side `2r` round the cell's centre, in database units, where `r` is 1 to 1,000,000. Pieces of
/// one label count as one piece. The order and the number of the rectangles are left open.
///
/// The one error is that no memory is left.
pub fn short_rects(
    alloc: Global,
    pieces: &[Labelled],
    window: Rect,
    r: u32,
) -> Result<Vec<Rect>, NoMemory>
    requires { IsRadius r }
    ensures cells { IfOk result (λ found. (c : Cell) →
        IsInUnion found.items c ↔ (TouchesTwoLabels pieces.now r c × Has window c)) }
    ensures apart { IfOk result (λ found. AreApart found.items) }
{
    let zones = zones_of(alloc, pieces, window, r)?;
    let found = with_shorts(alloc, Gathered::new(alloc), zones, window, NONE_TRIED)?;
    found.finish(alloc)
}

/// What was gathered so far, with the cells of the part that lie in zones of two labels. Of more than an eighth of `hopeless`
/// zones no runs are tried, since so many had too many of them.
fn with_shorts(
    alloc: Global,
    found: Gathered,
    zones: Vec<Labelled>,
    part: Rect,
    hopeless: usize,
) -> Result<Gathered, NoMemory>
    ensures { IfOk result (λ more. GainsPart (IsInTwoLabels zones.items) part found more) }
{
    match left_of(alloc, zones.as_slice(), part, hopeless)? {
        PartCase::Nothing => Ok(found),
        PartCase::All => found.with(alloc, &[part]),
        PartCase::InOne(rects) => {
            let union = union_rects(alloc, rects.as_slice(), part)?;
            found.with(alloc, union.as_slice())
        }
        PartCase::InTwo(runs) => with_twice(alloc, found, runs, part),
        PartCase::InBoth(one, other) => {
            let runs = runs_of_both(alloc, zones.as_slice(), part, one, other)?;
            with_twice(alloc, found, runs, part)
        }
        PartCase::InHalves(axis, place, hopeless) => {
            let (first, second) = parts_at(part, axis, place);
            let (before, behind) = halves(alloc, zones, first, second)?;
            let found = with_shorts(alloc, found, before, first, hopeless)?;
            with_shorts(alloc, found, behind, second, hopeless)
        }
    }
}

/// Runs of these two labels, of which there is no third: rectangles of which a cell of the part lies in two exactly where it lies
/// in zones of both.
fn runs_of_both(
    alloc: Global,
    zones: &[Labelled],
    part: Rect,
    one: usize,
    other: usize,
) -> Result<Vec<Rect>, NoMemory>
    requires { HaveNoThird zones.now one other }
    ensures { IfOk result (λ runs. (c : Cell) → Has part c → IsInTwo runs.items c ↔ IsInTwoLabels zones.now c) }
{
    let (own, others) = split(alloc, zones, one)?;
    let mut runs = union_rects(alloc, own.as_slice(), part)?;
    let other_runs = union_rects(alloc, others.as_slice(), part)?;
    runs.extend_from_slice(other_runs.as_slice())?;
    Ok(runs)
}
