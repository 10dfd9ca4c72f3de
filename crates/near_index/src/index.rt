ghost use Rattle.std.specs.Prelude.{◌≡◌, ◌<◌, ◌≤◌, IfOk, length};
ghost use Rattle.std.specs.List.{flat_map};
ghost use Rattle.std.specs.List.Sorted.{IsPermutation};
ghost use Rattle.near_index.specs.inside.Hulls.{IsHullOf, IsLabelOf};

mod search;

use super::nearby::{add_near, is_near};
use super::rectangular::Rectangular;
use geo_core::{Rect, join};
use lists::NoMemory;
use std::alloc::Global;
use std::marker::Model;

/// So many pieces make a leaf.
const LEAF: usize = 16;

/// A few pieces, with a rectangle round them, and their label if they have one in common. Contracts see it as the list of its
/// pieces.
#[derive(Drop)]
struct Leaf<T: Rectangular> {
    hull: Rect,
    label: Option<usize>,
    pieces: Vec<T>,
}

impl<T: Rectangular> Model for Leaf<T> {
    ghost use Rattle.std.specs.Prelude.{List};
    ghost use Rattle.near_index.specs.inside.Hulls.{IsRoundAll};

    ghost Value = { List T };

    ghost view = { λ leaf. leaf.pieces.items };

    ghost invariant = { λ leaf. IsRoundAll T.rect_of T.label_of leaf.hull leaf.label leaf.pieces.items };
}

impl<T: Rectangular> Leaf<T> {
    ghost use Rattle.std.specs.Prelude.{OnOk};
    ghost use Rattle.near_index.specs.inside.Gaining.{GainsNear};

    /// The leaf of these pieces, of which there has to be one.
    fn new(alloc: Global, pieces: &[T]) -> Result<Leaf<T>, NoMemory>
        requires { 0 < length pieces.now }
        ensures { IfOk result (λ leaf. leaf ≡ pieces.now) }
    {
        let hull = hull_of(pieces);
        let label = common_label(pieces);
        let pieces = Vec::from_slice(alloc, pieces)?;
        Ok(Leaf {
            hull,
            label,
            pieces,
        })
    }

    /// Adds those of its pieces that are near the tile, in order.
    fn add_near(&self, found: &mut Vec<T>, tile: Rect, reach: u32) -> Result<(), NoMemory>
        ensures { OnOk result (GainsNear T.rect_of tile reach self.now found.old.items found.new.items) }
    {
        if !is_near(self.hull, tile, reach) {
            return Ok(());
        }
        add_near(found, self.pieces.as_slice(), tile, reach)
    }
}

/// Leaves of neighbouring pieces, with a rectangle round them all, and their label if they have one in common. Contracts see it as
/// the list of its pieces.
#[derive(Drop)]
struct Band<T: Rectangular> {
    hull: Rect,
    label: Option<usize>,
    leaves: Vec<Leaf<T>>,
}

impl<T: Rectangular> Model for Band<T> {
    ghost use Rattle.std.specs.Prelude.{List};
    ghost use Rattle.std.specs.List.{flat_map};
    ghost use Rattle.near_index.specs.inside.Hulls.{IsRoundAll};

    ghost Value = { List T };

    ghost view = { λ band. flat_map (λ items. items) band.leaves.items };

    ghost invariant = { λ band. IsRoundAll T.rect_of T.label_of band.hull band.label (flat_map (λ items. items) band.leaves.items) };
}

impl<T: Rectangular> Band<T> {
    ghost use Rattle.std.specs.Prelude.{OnOk};
    ghost use Rattle.near_index.specs.inside.Gaining.{GainsNear};

    /// The band of these pieces, of which there has to be one.
    fn new(alloc: Global, pieces: &[T]) -> Result<Band<T>, NoMemory>
        requires { 0 < length pieces.now }
        ensures { IfOk result (λ band. IsPermutation pieces.now band) }
    {
        let hull = hull_of(pieces);
        let label = common_label(pieces);
        let mut sorted = Vec::from_slice(alloc, pieces)?;
        sorted.sort_unstable_by_key(|piece| piece.rect().y0);
        let leaves = leaves_of(alloc, sorted.as_slice())?;
        Ok(Band {
            hull,
            label,
            leaves,
        })
    }

    /// Adds those of its pieces that are near the tile, in order.
    fn add_near(&self, found: &mut Vec<T>, tile: Rect, reach: u32) -> Result<(), NoMemory>
        ensures { OnOk result (GainsNear T.rect_of tile reach self.now found.old.items found.new.items) }
    {
        if !is_near(self.hull, tile, reach) {
            return Ok(());
        }
        for leaf in self.leaves.as_slice() {
            leaf.add_near(found, tile, reach)?;
        }
        Ok(())
    }
}

/// Pieces of a layout, put in order once and asked for each tile which of them are near it, or for a cell which labels are nearest
/// to it. A tile then costs what lies near it, and not the layout.
///
/// The pieces lie in leaves of a few, and these in bands, each with a rectangle round it: an R-tree of two levels, packed by
/// sorting along the one axis and then along the other (S. Leutenegger, M. Lopez, J. Edgington, 'STR: A Simple and Efficient
/// Algorithm for R-Tree Packing', 1997). Contracts see it as the list of its pieces, in an order of its own.
#[derive(Drop)]
pub struct NearIndex<T: Rectangular> {
    bands: Vec<Band<T>>,
}

impl<T: Rectangular> Model for NearIndex<T> {
    ghost use Rattle.std.specs.Prelude.{List};
    ghost use Rattle.std.specs.List.{flat_map};

    ghost Value = { List T };

    ghost view = { λ index. flat_map (λ items. items) index.bands.items };
}

impl<T: Rectangular> NearIndex<T> {
    ghost use Rattle.near_index.specs.Near.{AreNear};

    /// The index of these pieces. The one error is that no memory is left.
    pub fn new(alloc: Global, pieces: &[T]) -> Result<NearIndex<T>, NoMemory>
        ensures { IfOk result (λ index. IsPermutation pieces.now index) }
    {
        let mut sorted = Vec::from_slice(alloc, pieces)?;
        sorted.sort_unstable_by_key(|piece| place_of(piece.rect()));
        let bands = bands_of(alloc, sorted.as_slice())?;
        Ok(NearIndex { bands })
    }

    /// Exactly those of its pieces whose rectangle, grown by the reach, has a cell in the tile. The one error is that no memory
    /// is left.
    pub fn near(&self, alloc: Global, tile: Rect, reach: u32) -> Result<Vec<T>, NoMemory>
        ensures { IfOk result (λ found. AreNear T.rect_of tile reach self.now found.items) }
    {
        let mut found = Vec::new(alloc);
        for band in self.bands.as_slice() {
            band.add_near(&mut found, tile, reach)?;
        }
        Ok(found)
    }
}

/// Where the rectangle stands in the first order: wide ones and high ones apart, so that long ones stretch few hulls, and each of
/// these from left to right.
fn place_of(rect: Rect) -> (bool, i32) {
    let width = rect.x1.abs_diff(rect.x0);
    let height = rect.y1.abs_diff(rect.y0);
    (width >= height, rect.x0)
}

/// How many of so many pieces make a band, so that there are about as many bands as leaves in each.
fn band_size(pieces: usize) -> usize
    ensures { 1 ≤ result }
{
    LEAF * ((pieces / LEAF).isqrt() + 1)
}

/// The rectangle round the pieces, of which there has to be one.
fn hull_of<T: Rectangular>(pieces: &[T]) -> Rect
    requires { 0 < length pieces.now }
    ensures { IsHullOf T.rect_of result pieces.now }
{
    let mut hull = pieces[0].rect();
    for piece in pieces {
        hull = join(hull, piece.rect());
    }
    hull
}

/// The label that all of the pieces have, of which there has to be one, if they have one in common.
fn common_label<T: Rectangular>(pieces: &[T]) -> Option<usize>
    requires { 0 < length pieces.now }
    ensures { IsLabelOf T.label_of result pieces.now }
{
    let label = pieces[0].label()?;
    for piece in pieces {
        if piece.label() != Some(label) {
            return None;
        }
    }
    Some(label)
}

/// The pieces in leaves, in order.
fn leaves_of<T: Rectangular>(alloc: Global, pieces: &[T]) -> Result<Vec<Leaf<T>>, NoMemory>
    ensures { IfOk result (λ leaves. flat_map (λ items. items) leaves.items ≡ pieces.now) }
{
    let mut leaves = Vec::with_capacity(alloc, pieces.len() / LEAF)?;
    let mut rest = pieces;
    while !rest.is_empty() {
        let (part, behind) = rest.split_at(rest.len().min(LEAF));
        leaves.push(Leaf::new(alloc, part)?)?;
        rest = behind;
    }
    Ok(leaves)
}

/// The pieces in bands.
fn bands_of<T: Rectangular>(alloc: Global, pieces: &[T]) -> Result<Vec<Band<T>>, NoMemory>
    ensures { IfOk result (λ bands. IsPermutation pieces.now (flat_map (λ items. items) bands.items)) }
{
    let size = band_size(pieces.len());
    let mut bands = Vec::new(alloc);
    let mut rest = pieces;
    while !rest.is_empty() {
        let (part, behind) = rest.split_at(rest.len().min(size));
        bands.push(Band::new(alloc, part)?)?;
        rest = behind;
    }
    Ok(bands)
}
