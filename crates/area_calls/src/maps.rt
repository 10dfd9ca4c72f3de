//! Pairs of nets, probes and regions of rectangles on the layers of a map.

ghost use Rattle.std.specs.Prelude.{◌≡◌, ◌+◌, All, length, true};
ghost use Rattle.geo_core.specs.Cells.{IsInLayout};
ghost use Rattle.layout_regions.specs.Regions.{IsNumberFor};

use crate::cells::{count_all, expect_cells};
use layout_pairs::pair_tables;
use layout_probe::{MetalNear, probe, write_probe};
use layout_regions::regions;
use map_model::{Layers, Map};
use net_extract::NetFault;
use pair_report::MetalPairs;
use questions::Kind;
use row_tables::Case;

/// Compares the terminal for which something is refused.
fn expect_refused(case: &mut Case<'_>, fault: NetFault) {
    match fault {
        NetFault::TerminalOffMetal { index } => case.expect("refused_for", index),
        NetFault::Memory => case.no_memory(),
    }
}

/// Compares the names of the metals and the pairs: the place of the metal, the lesser number of a net, the greater one and the number
/// of cells.
fn expect_tables(case: &mut Case<'_>, metals: &[MetalPairs]) {
    let mut names = Vec::new(case.alloc);
    let mut lists = Vec::new(case.alloc);
    for (place, metal) in metals.iter().enumerate() {
        case.push(&mut names, metal.layer.as_str());
        for (one, other, cells) in metal.pairs.as_slice() {
            case.push(
                &mut lists,
                [place as u64, *one as u64, *other as u64, *cells],
            );
        }
    }
    case.expect_list("metals", names.as_slice());
    case.expect_list("pairs", lists.as_slice());
}

/// For each metal, at how many cells a defect touches two nets. The size has the row's number, counted from 0.
pub fn pairs(case: &mut Case<'_>, map: &Map, layers: &Layers)
    requires one_each { length layers.now.lists.items ≡ length map.now.metals + length map.now.cuts }
    requires within { All (All IsInLayout) layers.now.lists.items }
{
    let number: u32 = case.number("number");
    if number as usize >= map.sizes.as_slice().len() {
        return case.note("number", "not that of a size");
    }
    match pair_tables(case.alloc, map, layers, number) {
        Ok(tables) => {
            case.expect("size", tables.size);
            expect_tables(case, tables.metals.as_slice());
        }
        Err(fault) => expect_refused(case, fault),
    }
}

/// What stands in the bytes before the lines of a probe.
const BEFORE: &[u8] = b"before\n";

/// Compares the lines of a probe, after what stands there before.
fn expect_lines(case: &mut Case<'_>, told: &[MetalNear]) {
    let mut text = case.list(Vec::from_slice(case.alloc, BEFORE));
    case.kept(write_probe(told, &mut text));
    match text.as_slice().strip_prefix(BEFORE) {
        Some(lines) => case.expect_text("lines", std::str::from_utf8(lines).unwrap_or("")),
        None => case.note("lines", "what stood before is gone"),
    }
}

/// The nets that are nearest to a cell, as the lines that tell of them.
pub fn near(case: &mut Case<'_>, map: &Map, layers: &Layers)
    requires one_each { length layers.now.lists.items ≡ length map.now.metals + length map.now.cuts }
    requires within { All (All IsInLayout) layers.now.lists.items }
{
    let cell = case.cell("cell");
    match probe(case.alloc, map, layers, cell) {
        Ok(told) => expect_lines(case, told.as_slice()),
        Err(fault) => expect_refused(case, fault),
    }
}

/// The kind of fault with this name.
fn kind_of(name: &str) -> Option<Kind> {
    match name {
        "short" => Some(Kind::Short),
        "open" => Some(Kind::Open),
        "via" => Some(Kind::Via),
        _ => None,
    }
}

/// Whether questions of this kind may name the number, of so many metals and cuts.
fn is_number_for(kind: Kind, metals: usize, cuts: usize, number: usize) -> bool
    ensures { result ≡ true → IsNumberFor kind metals cuts number }
{
    match kind {
        Kind::Short | Kind::Open => number < metals,
        Kind::Via => metals <= number && number - metals < cuts,
    }
}

/// The cells at which a fault comes about, as rectangles without common cells: those of a kind of fault, for the layer with the row's
/// number and the size at its place. The rectangles have no cell in common if they have as many cells as those that are wanted, which
/// have none in common.
pub fn region(case: &mut Case<'_>, map: &Map, layers: &Layers)
    requires one_each { length layers.now.lists.items ≡ length map.now.metals + length map.now.cuts }
    requires within { All (All IsInLayout) layers.now.lists.items }
{
    let number: u32 = case.number("number");
    let place: u32 = case.number("place");
    let Some(kind) = kind_of(case.text("fault")) else {
        return case.note("fault", "not a kind of fault");
    };
    let metals = map.metals.as_slice().len();
    if !is_number_for(kind, metals, map.cuts.as_slice().len(), number as usize) {
        return case.note("number", "not that of a layer");
    }
    if place as usize >= map.sizes.as_slice().len() {
        return case.note("place", "not that of a size");
    }
    match regions(case.alloc, map, layers, kind, number, place) {
        Ok(rects) => {
            expect_cells(case, "cells", rects.as_slice());
            case.expect("count", count_all(rects.as_slice()));
        }
        Err(fault) => expect_refused(case, fault),
    }
}
