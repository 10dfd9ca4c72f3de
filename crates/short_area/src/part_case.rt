ghost use Rattle.std.specs.Prelude.{◌↔◌, IfOk, IfSome};
ghost use Rattle.geo_core.specs.declared.plane.Cell.{Cell};
ghost use Rattle.skyline_runs.specs.Runs.{IsInTwo};
ghost use Rattle.short_area.specs.Zones.{IsInTwoLabels};
ghost use Rattle.short_area.specs.inside.WhatIsLeft.{IsLeftOf};

use super::labels::{have_no_third, is_other_whole, split, two_labels, whole_label};
use super::leads::lead_of;
use super::meeting::beside_others;
use super::places::{Spread, place_to_halve, spread_of};
use super::runs::{label_runs, label_runs_within};
use geo_core::{Axis, Labelled, Rect};
use lists::NoMemory;
use std::alloc::Global;

/// So many looks for each zone are few.
pub const LOOKS_EACH: usize = 4;

/// Runs are tried again of so many times fewer zones.
const LESS: usize = 8;

/// How many zones are hopeless before runs were tried of any.
pub const NONE_TRIED: usize = usize::MAX;

/// Which cells of a part of a window lie in zones of two labels.
#[derive(Drop)]
pub enum PartCase {
    /// None of them.
    Nothing,
    /// All of them.
    All,
    /// Those that lie in one of these rectangles or more.
    InOne(Vec<Rect>),
    /// Those that lie in two of these rectangles or more: they are runs of each label.
    InTwo(Vec<Rect>),
    /// Those that lie in zones of both of these labels, since there is no third. Their runs take too many looks.
    InBoth(usize, usize),
    /// It is better halved, along the axis at the place. Of more than an eighth of so many zones no runs are tried.
    InHalves(Axis, i32, usize),
}

/// What is left of a part of a window with these zones. Of more than an eighth of `hopeless` zones no runs are tried,
/// since so many had too many of them.
pub fn left_of(
    alloc: Global,
    zones: &[Labelled],
    part: Rect,
    hopeless: usize,
) -> Result<PartCase, NoMemory>
    ensures { IfOk result (IsLeftOf zones.now part) }
{
    match soon_left(alloc, zones, part, hopeless)? {
        Some(left) => Ok(left),
        None => left_of_many(alloc, zones, part, hopeless),
    }
}

/// What is left, but where many zones lie across one another.
pub fn soon_left(
    alloc: Global,
    zones: &[Labelled],
    part: Rect,
    hopeless: usize,
) -> Result<Option<PartCase>, NoMemory>
    ensures { IfOk result (λ found. IfSome found (IsLeftOf zones.now part)) }
{
    if let Some(left) = left_at_once(alloc, zones, part)? {
        return Ok(Some(left));
    }
    let spread = spread_of(zones, part);
    if spread.is_deep() {
        return Ok(Some(halved(alloc, zones, part, spread, hopeless)?));
    }
    if spread.is_few() {
        return Ok(Some(PartCase::InTwo(runs_of_few(alloc, zones)?)));
    }
    if spread.is_parted() {
        return Ok(Some(halved(alloc, zones, part, spread, hopeless)?));
    }
    Ok(None)
}

/// What is left where many zones lie across one another: by runs where these are found with few looks. Runs are tried of no
/// more than an eighth of the zones of which they took too many.
pub fn left_of_many(
    alloc: Global,
    zones: &[Labelled],
    part: Rect,
    hopeless: usize,
) -> Result<PartCase, NoMemory>
    ensures { IfOk result (IsLeftOf zones.now part) }
{
    if has_hopeless_leader(zones, hopeless) {
        return halved(alloc, zones, part, spread_of(zones, part), hopeless);
    }
    if hopeless / LESS < zones.len() {
        return left_without_runs(alloc, zones, part, hopeless);
    }
    let most = zones.len().saturating_mul(LOOKS_EACH);
    match label_runs_within(alloc, zones, most)? {
        Some(runs) => Ok(PartCase::InTwo(runs)),
        None => left_without_runs(alloc, zones, part, zones.len()),
    }
}

/// What is left where it needs no halving and no runs: fewer than two labels, or a label that has all cells of the part.
fn left_at_once(alloc: Global, zones: &[Labelled], part: Rect) -> Result<Option<PartCase>, NoMemory>
    ensures { IfOk result (λ found. IfSome found (IsLeftOf zones.now part)) }
{
    let Some(_) = two_labels(zones) else {
        return Ok(Some(PartCase::Nothing));
    };
    let Some(label) = whole_label(zones, part) else {
        return Ok(None);
    };
    if is_other_whole(zones, part, label) {
        return Ok(Some(PartCase::All));
    }
    let (_, others) = split(alloc, zones, label)?;
    Ok(Some(PartCase::InOne(others)))
}

/// Runs of each label of few zones. Zones that meet no other label are left out: each pair of zones is looked at for it.
fn runs_of_few(alloc: Global, zones: &[Labelled]) -> Result<Vec<Rect>, NoMemory>
    ensures { IfOk result (λ runs. (c : Cell) → IsInTwo runs.items c ↔ IsInTwoLabels zones.now c) }
{
    let kept = beside_others(alloc, zones)?;
    label_runs(alloc, kept.as_slice())
}

/// Whether one label leads so far that its runs are not tried. Those of a mesh are mostly as many as its holes, and where its
/// zones close the holes they are few. So they are tried once, unless other labels have hardly any zone.
fn has_hopeless_leader(zones: &[Labelled], hopeless: usize) -> bool {
    let others = if hopeless == NONE_TRIED {
        zones.len() / 16
    } else {
        zones.len() / 2
    };
    zones.len() - others <= lead_of(zones).zones
}

/// The place at which to halve the part. Where there is none, runs of each label.
fn halved(
    alloc: Global,
    zones: &[Labelled],
    part: Rect,
    spread: Spread,
    hopeless: usize,
) -> Result<PartCase, NoMemory>
    ensures { IfOk result (IsLeftOf zones.now part) }
{
    match place_to_halve(zones, part, spread) {
        Some((axis, place)) => Ok(PartCase::InHalves(axis, place, hopeless)),
        None => Ok(PartCase::InTwo(label_runs(alloc, zones)?)),
    }
}

/// What is left where runs take too many looks: both labels, if there are two. Else the part is halved.
fn left_without_runs(
    alloc: Global,
    zones: &[Labelled],
    part: Rect,
    hopeless: usize,
) -> Result<PartCase, NoMemory>
    ensures { IfOk result (IsLeftOf zones.now part) }
{
    if let Some((one, other)) = two_labels(zones) {
        if have_no_third(zones, one, other) {
            return Ok(PartCase::InBoth(one, other));
        }
    }
    halved(alloc, zones, part, spread_of(zones, part), hopeless)
}
