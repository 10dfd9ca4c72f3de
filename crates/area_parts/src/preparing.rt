ghost use Rattle.std.specs.Prelude.{List, ◌≡◌, ◌<◌, ◌+◌, ◌^◌, IfErr, IfOk, length, map};
ghost use Rattle.first_refusal.specs.Answers.{Answers};
ghost use Rattle.geo_core.specs.declared.plane.Rect.{Rect as Rectangle};
ghost use Rattle.map_model.specs.MapView.{layer_map_of};
ghost use Rattle.net_extract.specs.Extraction.{AreNetsOf};
ghost use Rattle.area_parts.specs.AreaParts.{ArePartsOf, ComeToParts, ComeToPieces, by_net};
ghost use Rattle.area_parts.specs.LayerParts.{AreAllBoxes, AreAllIslands};

use super::parts::{MetalIslands, MetalPieces, Parts};
use geo_core::{Labelled, RectList};
use lists::{Items, NoMemory};
use map_model::{Layers, Map};
use net_extract::{NetFault, Nets, Piece, extract};
use questions::questions_of;
use std::alloc::Global;
use via_clusters::clusters;

/// Makes what all areas of these layers need, of which there is one list of rectangles for each metal of the map, and
/// then one for each cut. Each island with two terminals or more is there once, and there is one box for each via cluster.
///
/// The error is the first terminal that is not on its metal, or that no memory is left.
pub fn prepare(alloc: Global, map: &Map, layers: &Layers) -> Result<Parts, NetFault>
    requires { length layers.now.lists.items ≡ length map.now.metals + length map.now.cuts }
    ensures { Answers NetFault.Memory (ComeToParts (layer_map_of map.now) layers.now.lists.items) result }
{
    let nets = extract(alloc, layers, map)?;
    parts_of(alloc, map, &nets)
}

/// Makes the pieces of each metal of the map, labelled by their nets, and nothing else. The layers and the error are as above.
pub fn metal_pieces(
    alloc: Global,
    map: &Map,
    layers: &Layers,
) -> Result<Items<MetalPieces>, NetFault>
    requires { length layers.now.lists.items ≡ length map.now.metals + length map.now.cuts }
    ensures { Answers NetFault.Memory (ComeToPieces (layer_map_of map.now) layers.now.lists.items) result }
{
    let nets = extract(alloc, layers, map)?;
    let pieces = pieces_by_net(alloc, &nets, map.metals.as_slice().len())?;
    Ok(pieces)
}

/// What all areas of the map are counted from, by the nets of its layers. The only error is that no memory is left.
fn parts_of(alloc: Global, map: &Map, nets: &Nets) -> Result<Parts, NetFault>
    requires metals { length nets.now.pieces ≡ length map.now.metals }
    requires cuts { length nets.now.contacts ≡ length map.now.cuts }
    ensures parts { (lists : List (List Rectangle)) → AreNetsOf (layer_map_of map.now) lists nets.now →
        IfOk result (ArePartsOf (layer_map_of map.now) lists) }
    ensures memory { IfErr result (λ fault. fault ≡ NetFault.Memory) }
{
    let questions = questions_of(alloc, map)?;
    let metals = pieces_by_net(alloc, nets, map.metals.as_slice().len())?;
    let islands = anchored_islands(alloc, nets, map.metals.as_slice().len())?;
    let cuts = boxes_of_clusters(alloc, nets, map.cuts.as_slice().len())?;
    Ok(Parts {
        questions: Items::from_vec(questions),
        metals,
        islands,
        cuts,
    })
}

/// The pieces of each of the metals, labelled by their nets.
fn pieces_by_net(alloc: Global, nets: &Nets, metals: usize) -> Result<Items<MetalPieces>, NoMemory>
    requires all { metals ≡ length nets.now.pieces }
    requires small { metals < 2 ^ 32 }
    ensures { IfOk result (λ lists. lists ≡ map (map by_net) nets.now.pieces) }
{
    let mut lists = Vec::new(alloc);
    for metal in 0..metals as u32 {
        lists.push(labelled(alloc, nets.pieces(metal))?)?;
    }
    Ok(Items::from_vec(lists))
}

/// The islands of each of the metals that have two anchors or more.
fn anchored_islands(
    alloc: Global,
    nets: &Nets,
    metals: usize,
) -> Result<Items<MetalIslands>, NoMemory>
    requires all { metals ≡ length nets.now.pieces }
    requires small { metals < 2 ^ 32 }
    ensures { IfOk result (λ lists. AreAllIslands nets.now metals lists) }
{
    let mut lists = Vec::new(alloc);
    for metal in 0..metals as u32 {
        lists.push(MetalIslands::from_vec(nets.islands(alloc, metal)?))?;
    }
    Ok(Items::from_vec(lists))
}

/// The boxes of the via clusters of each of the cuts.
fn boxes_of_clusters(alloc: Global, nets: &Nets, cuts: usize) -> Result<Items<RectList>, NoMemory>
    requires all { cuts ≡ length nets.now.contacts }
    requires small { cuts < 2 ^ 32 }
    ensures { IfOk result (λ lists. AreAllBoxes nets.now cuts lists) }
{
    let mut lists = Vec::new(alloc);
    for cut in 0..cuts as u32 {
        lists.push(RectList::from_vec(clusters(alloc, nets, cut)?))?;
    }
    Ok(Items::from_vec(lists))
}

/// The pieces with their nets as labels.
fn labelled(alloc: Global, pieces: &[Piece]) -> Result<MetalPieces, NoMemory>
    ensures { IfOk result (λ list. list ≡ map by_net pieces.now) }
{
    let mut list = Vec::with_capacity(alloc, pieces.len())?;
    for piece in pieces {
        list.push(Labelled {
            rect: piece.rect,
            label: piece.net,
        })?;
    }
    Ok(Items::from_vec(list))
}
