ghost use Rattle.std.specs.Prelude.{◌≡◌, ◌<◌, ◌+◌, ◌^◌, IfOk, All, length, option_copied};
ghost use Rattle.std.specs.List.{zip};
ghost use Rattle.lists.specs.Differing.{AreDifferent};
ghost use Rattle.library_model.specs.Names.{names_of};
ghost use Rattle.library_model.specs.Points.{AreWellPointed};
ghost use Rattle.map_model.specs.MapView.{layer_map_of};
ghost use Rattle.run_inputs.specs.StageAnswers.{Analyses};
ghost use Rattle.run_inputs.specs.LayoutReaders.{AreLayersFor, AreListsUpTo, rects_on as rects_on_layer};
ghost use Rattle.run_inputs.specs.Layout.{LibraryComesTo};

use super::layout_fault::LayoutFault;
use flatten::{Placed, place};
use geo_core::RectList;
use library_model::Library;
use lists::NoMemory;
use map_model::{Layers, Map};
use rect_cover::cover_all;
use std::alloc::Global;
use std::thread::Threads;

/// The rectangles of the placed shapes that are on the layer with this number. The shapes have these covers.
fn rects_on(
    alloc: Global,
    placed: &[Placed],
    covers: &[RectList],
    number: u32,
) -> Result<RectList, NoMemory>
    requires { length covers.now ≡ length placed.now }
    ensures { IfOk result (λ rects. rects ≡ rects_on_layer number (zip placed.now covers.now)) }
{
    let mut rects = Vec::new(alloc);
    for (k, one) in placed.iter().enumerate() {
        if one.layer == number {
            rects.extend_from_slice(covers[k].as_slice())?;
        }
    }
    Ok(RectList::from_vec(rects))
}

/// The rectangles of the placed shapes, which have these covers, layer by layer: one list for each of so many layers.
fn layers_of(
    alloc: Global,
    count: u32,
    placed: &[Placed],
    covers: &[RectList],
) -> Result<Layers, NoMemory>
    requires { length covers.now ≡ length placed.now }
    ensures { IfOk result (λ layers. AreListsUpTo (zip placed.now covers.now) count layers.lists.items) }
{
    let mut lists = Vec::new(alloc);
    for number in 0..count {
        lists.push(rects_on(alloc, placed, covers, number)?)?;
    }
    Ok(Layers { lists })
}

/// How many layers the map has: its metals, and then its cuts.
fn count_of(map: &Map) -> u32
    ensures { result ≡ length map.now.metals + length map.now.cuts }
{
    (map.metals.as_slice().len() + map.cuts.as_slice().len()) as u32
}

/// Rectangles of all cells that the shapes of a library cover, a list for each layer of the map. The shapes are those that
/// the top places: the structure of the wanted name, or the one that no reference names. The fault is that of the placement,
/// or the first of the covers of the placed shapes. The library is let go once this is known.
pub fn layers_of_library(
    rt: &(impl Threads + Sync),
    alloc: Global,
    map: &Map,
    top: Option<&[u8]>,
    library: Library,
) -> Result<Layers, LayoutFault>
    requires differ { AreDifferent (names_of library.structures) }
    requires few_structures { length library.structures < 2 ^ 32 }
    requires few_elements { All (λ structure. length structure.elements < 2 ^ 32) library.structures }
    requires pointed { AreWellPointed library.structures }
    ensures { Analyses (LibraryComesTo (layer_map_of map.now) (option_copied top.entry) library)
        (AreLayersFor (layer_map_of map.now) library.units) result }
{
    let placed = place(alloc, &library, map, top)?;
    let covers = cover_all(rt, alloc, &library, placed.as_slice())?;
    Ok(layers_of(alloc, count_of(map), placed.as_slice(), covers.as_slice())?)
}
