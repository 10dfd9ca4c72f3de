ghost use Rattle.std.specs.Prelude.{◌≡◌, ◌≤◌, ◌↔◌, IfOk, Some, length, slice_get};
ghost use Rattle.std.specs.List.Sorted.{IsPermutation};
ghost use Rattle.std.specs.Option.{ForSome};
ghost use Rattle.fault_model.specs.Areas.{Tally, cells_of};
ghost use Rattle.geo_core.specs.Bounds.{IsRadius};
ghost use Rattle.geo_core.specs.Cells.{Has};
ghost use Rattle.geo_core.specs.Unions.{IsInUnion};
ghost use Rattle.geo_core.specs.declared.plane.Cell.{Cell};
ghost use Rattle.geo_core.specs.Bounds.{IsSide};
ghost use Rattle.questions.specs.Questions.{IsAskable};
ghost use Rattle.severing.specs.Severing.{IsSomeOpen};
ghost use Rattle.short_area.specs.Labels.{TouchesTwoLabels};
ghost use Rattle.via_clusters.specs.Blocks.{CoversSomeBox};
ghost use Rattle.critical_areas.specs.inside.IslandsApart.{AreApart, IsOneOpen};

use super::apart::{Apart, all_apart, cells_of_islands, numbers_of};
use super::indexes::{indexes_of, metals_of, opens_of};
use super::tile_size::greatest_reach;
use area_parts::{Asked, covering_radius, reach_of_side};
use fault_model::Island;
use geo_core::{Labelled, Rect};
use lists::NoMemory;
use open_grid::open_area;
use questions::{Kind, Question};
use short_area::short_area;
use std::alloc::Global;
use std::marker::Model;
use tile_plan::{NearIndex, TilePlan};
use tile_work::TileJob;
use union_area::union_area;
use via_clusters::via_area;

/// The tiles of a plan as work to share: each is a ticket, and each question has a slot. Contracts see the parts, the questions
/// and the plan.
///
/// Where there are several tiles, what they are counted from is put into indexes, once, so that a tile costs what is near it and
/// not the layout; large islands are looked at once a size, and small ones in each tile that they come near. Where one tile is all
/// of the window there is no index: all pieces and boxes count as near, as they stand in the parts, and opens are looked for when
/// their question comes.
#[derive(Drop)]
pub struct Tiles<'a> {
    asked: Asked<'a>,
    plan: TilePlan,
    /// The islands of each metal, small ones apart from large ones.
    islands: Vec<Apart>,
    /// For each question the cells of the window at which there is an open of a large island, where it asks for opens.
    opens: Vec<NearIndex<Rect>>,
    /// The pieces of each metal, where a question asks what is near them.
    metals: Vec<NearIndex<Labelled>>,
    /// The boxes of each cut.
    cuts: Vec<NearIndex<Rect>>,
}

impl<'a> Model for Tiles<'a> {
    ghost use Rattle.critical_areas.specs.inside.Indexes.{AreIndexesOf};
    ghost use Rattle.critical_areas.specs.inside.Work.{Work};

    ghost Value = { Work };

    ghost view = { λ tiles. record {
      parts = tiles.asked.parts.now;
      questions = tiles.asked.questions.now;
      plan = tiles.plan;
    } };

    ghost invariant = { λ tiles. AreIndexesOf tiles.asked.parts.now tiles.asked.questions.now tiles.plan.window
        tiles.islands.items tiles.opens.items tiles.metals.items tiles.cuts.items };
}

impl<'a> Tiles<'a> {
    ghost use Rattle.area_parts.specs.AskedCounts.{IsCounted};

    /// The tiles of the plan, with what they are counted from, for so many workers. The only error is that no memory is left.
    pub fn new(
        alloc: Global,
        asked: Asked<'a>,
        plan: TilePlan,
        workers: u32,
    ) -> Result<Tiles<'a>, NoMemory>
        ensures { IfOk result (λ tiles. tiles ≡
            record { parts = asked.entry.parts.now; questions = asked.entry.questions.now; plan = plan }) }
    {
        if plan.count() == 1 {
            return Ok(Tiles {
                asked,
                plan,
                islands: Vec::new(alloc),
                opens: Vec::new(alloc),
                metals: Vec::new(alloc),
                cuts: Vec::new(alloc),
            });
        }
        let reach = greatest_reach(asked);
        let islands = all_apart(
            alloc,
            asked.parts.islands.as_slice(),
            reach,
            plan.edge,
            workers,
        )?;
        let opens = opens_of(alloc, asked, &islands, plan.window)?;
        let metals = metals_of(alloc, asked)?;
        let cuts = indexes_of(alloc, asked.parts.cuts.as_slice())?;
        Ok(Tiles {
            asked,
            plan,
            islands,
            opens,
            metals,
            cuts,
        })
    }

    /// How many cells of the tile are counted for the question of this slot.
    fn amount(
        &self,
        alloc: Global,
        slot: usize,
        question: &Question,
        tile: Rect,
    ) -> Result<u64, NoMemory>
        requires asked { slice_get self.now.questions slot ≡ Some question.now }
        requires askable { IsAskable (length self.now.parts.metals) (length self.now.parts.cuts) question.now }
        requires within { (c : Cell) → Has tile c → Has self.now.plan.window c }
        ensures { IfOk result (Tally (IsCounted self.now.parts question.now) (cells_of tile)) }
    {
        let parts = self.asked.parts;
        let number = question.number as usize;
        let side = question.side();
        match question.kind {
            Kind::Short => {
                let reach = reach_of_side(side);
                let pieces = parts.metals.as_slice()[number].as_slice();
                shorts_of_tile(alloc, pieces, self.metals.get(number), tile, reach)
            }
            Kind::Open => {
                let islands = parts.islands.as_slice()[number].as_slice();
                let apart = self.islands.get(number);
                opens_of_tile(alloc, islands, apart, self.opens.get(slot), tile, side)
            }
            Kind::Via => {
                let radius = covering_radius(side);
                let cut = number - parts.metals.as_slice().len();
                let boxes = parts.cuts.as_slice()[cut].as_slice();
                blocks_of_tile(alloc, boxes, self.cuts.get(cut), tile, radius)
            }
        }
    }
}

impl TileJob for Tiles<'_> {
    ghost use Rattle.std.specs.Prelude.{length};
    ghost use Rattle.tile_plan.specs.Tiles.{tile_count};
    ghost use Rattle.critical_areas.specs.inside.Work.{IsAmountOfTile};

    ghost tickets = { λ work. tile_count work.plan };

    ghost slots = { λ work. length work.questions };

    ghost is_amount = { λ work ticket slot n. IsAmountOfTile work ticket slot n };

    fn amounts(&self, alloc: Global, ticket: u64, into: &mut Vec<u64>) -> Result<(), NoMemory> {
        into.clear();
        let tile = self.plan.tile(ticket);
        let questions = self.asked.questions;
        for (slot, question) in questions.iter().enumerate() {
            into.push(self.amount(alloc, slot, question, tile)?)?;
        }
        Ok(())
    }
}

/// At how many cells of the tile a defect that reaches so far touches pieces of two labels. One that reaches no other cell than
/// its own touches no two. Where there is an index of the pieces it tells which are near.
fn shorts_of_tile(
    alloc: Global,
    pieces: &[Labelled],
    index: Option<&NearIndex<Labelled>>,
    tile: Rect,
    reach: u32,
) -> Result<u64, NoMemory>
    requires within { reach ≤ 1000000 }
    requires index { ForSome index (λ same. IsPermutation pieces.now same.now) }
    ensures { IfOk result (Tally (TouchesTwoLabels pieces.now reach) (cells_of tile)) }
{
    if reach == 0 {
        return Ok(0);
    }
    let Some(pieces) = index else {
        return short_area(alloc, pieces, tile, reach);
    };
    let near = pieces.near(alloc, tile, reach)?;
    short_area(alloc, &near, tile, reach)
}

/// At how many cells of the tile a defect of this side parts two anchors of an island. Where the islands are apart, the cells for
/// the large ones are known, and the small ones that come near are looked at.
fn opens_of_tile(
    alloc: Global,
    islands: &[Island],
    apart: Option<&Apart>,
    opens: Option<&NearIndex<Rect>>,
    tile: Rect,
    side: u32,
) -> Result<u64, NoMemory>
    requires is_side { IsSide side }
    requires apart { ForSome apart (λ both. AreApart islands.now both.now) }
    requires opens { ForSome apart (λ both. ForSome opens (λ cells. (c : Cell) → Has tile c →
        IsInUnion cells.now c ↔ IsOneOpen islands.now both.now.large side c)) }
    ensures { IfOk result (Tally (IsSomeOpen islands.now side) (cells_of tile)) }
{
    let Some(apart) = apart else {
        return open_area(alloc, islands, tile, side);
    };
    let Some(opens) = opens else {
        return open_area(alloc, islands, tile, side);
    };
    let mut cells = opens.near(alloc, tile, 0)?;
    let near = apart.small.near(alloc, tile, reach_of_side(side))?;
    let numbers = numbers_of(alloc, &near)?;
    let found = cells_of_islands(alloc, islands, &numbers, tile, side)?;
    cells.extend_from_slice(&found)?;
    union_area(alloc, &cells, tile)
}

/// At how many cells of the tile a defect of this radius covers a box. Where there is an index of the boxes it tells which
/// are near.
fn blocks_of_tile(
    alloc: Global,
    boxes: &[Rect],
    index: Option<&NearIndex<Rect>>,
    tile: Rect,
    radius: u32,
) -> Result<u64, NoMemory>
    requires radius { IsRadius radius }
    requires index { ForSome index (λ same. IsPermutation boxes.now same.now) }
    ensures { IfOk result (Tally (CoversSomeBox boxes.now radius) (cells_of tile)) }
{
    let Some(boxes) = index else {
        return via_area(alloc, boxes, tile, radius);
    };
    let near = boxes.near(alloc, tile, radius)?;
    via_area(alloc, &near, tile, radius)
}
