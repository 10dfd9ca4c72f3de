ghost use Rattle.std.specs.Prelude.{ℕ, ◌<◌, ◌^◌, All, length, option_copied};
ghost use Rattle.lists.specs.Differing.{AreDifferent};
ghost use Rattle.library_model.specs.Names.{names_of};
ghost use Rattle.map_model.specs.MapView.{layer_map_of};
ghost use Rattle.first_refusal.specs.Answers.{Answers};
ghost use Rattle.flatten.specs.Structures.{all_references};
ghost use Rattle.flatten.specs.ReferenceChains.{IsEndless};
ghost use Rattle.flatten.specs.inside.FollowedParts.{IsKnown};
ghost use Rattle.flatten.specs.inside.Plans.{AreIndexed, Chooses, IsChosen, IsPlan};

use super::fault::PlaceFault;
use super::part::Part;
use super::parts::nodes_of;
use super::summary::State;
use super::survey::survey;
use super::tops::{only_top, tops_with};
use library_model::{Library, NameIndex, Structure};
use map_model::Map;
use std::alloc::Global;

/// The number of the top: the structure of the wanted name, or the only one to which no reference leads.
fn top_of(
    alloc: Global,
    structures: &[Structure],
    index: &NameIndex<'_>,
    wanted: Option<&[u8]>,
) -> Result<u32, PlaceFault>
    requires indexed { AreIndexed structures.now index.now }
    requires known { All (IsKnown (names_of structures.now)) (all_references structures.now) }
    requires ends { (one : ℕ) → one < length structures.now → IsEndless structures.now one → ⊥ }
    ensures { Answers PlaceFault.Memory (Chooses structures.now (option_copied wanted.entry)
        (IsChosen structures.now (option_copied wanted.entry))) result }
{
    match wanted {
        Some(name) => match index.find(name) {
            Some(top) => Ok(top),
            None => Err(PlaceFault::NoTop),
        },
        None => {
            let tops = tops_with(alloc, structures, index)?;
            only_top(structures, tops.as_slice())
        }
    }
}

/// What is known of a library before its shapes are placed.
#[derive(Drop)]
pub struct Plan<'a> {
    /// The parts of each structure.
    pub nodes: Vec<Vec<Part<'a>>>,
    /// What is known of each: all are done.
    pub states: Vec<State>,
    /// The number of the top.
    pub top: u32,
}

/// The plan of structures, by the index of their names.
fn plan_with<'a>(
    alloc: Global,
    structures: &'a [Structure],
    map: &Map,
    index: &NameIndex<'_>,
    wanted: Option<&[u8]>,
) -> Result<Plan<'a>, PlaceFault>
    requires indexed { AreIndexed structures.now index.now }
    requires few_elements { All (λ structure. length structure.elements < 2 ^ 32) structures.now }
    ensures { Answers PlaceFault.Memory (Chooses structures.now (option_copied wanted.entry)
        (IsPlan structures.now (layer_map_of map.now) (option_copied wanted.entry))) result }
{
    let nodes = nodes_of(alloc, structures, map, index)?;
    let states = survey(alloc, structures, &nodes)?;
    let top = top_of(alloc, structures, index, wanted)?;
    Ok(Plan { nodes, states, top })
}

/// The plan of a library. The fault is that of the first check of the library that fails.
pub fn plan_of<'a>(
    alloc: Global,
    library: &'a Library,
    map: &Map,
    wanted: Option<&[u8]>,
) -> Result<Plan<'a>, PlaceFault>
    requires differ { AreDifferent (names_of library.now.structures) }
    requires few_structures { length library.now.structures < 2 ^ 32 }
    requires few_elements { All (λ structure. length structure.elements < 2 ^ 32) library.now.structures }
    ensures { Answers PlaceFault.Memory (Chooses library.now.structures (option_copied wanted.entry)
        (IsPlan library.now.structures (layer_map_of map.now) (option_copied wanted.entry))) result }
{
    let structures = library.structures.as_slice();
    let index = library.index(alloc)?;
    plan_with(alloc, structures, map, &index, wanted)
}
