ghost use Rattle.std.specs.Prelude.{◌≡◌, ◌<◌, ◌^◌, IfOk, IfErr, length};
ghost use Rattle.lists.specs.Differing.{AreDifferent};
ghost use Rattle.library_model.specs.Names.{names_of};
ghost use Rattle.flatten.specs.Tops.{AreTops, IsOnlyUnnamed};
ghost use Rattle.flatten.specs.inside.Marks.{AreUnmarked, IsTopFault};
ghost use Rattle.flatten.specs.inside.Plans.{AreIndexed};

use super::fault::PlaceFault;
use super::marks::marks_of;
use library_model::{Library, NameIndex, Structure};
use lists::NoMemory;
use std::alloc::Global;

/// The numbers of what is not marked, in rising order.
fn unmarked(alloc: Global, marks: &[bool]) -> Result<Vec<u32>, NoMemory>
    requires { length marks.now < 2 ^ 32 }
    ensures { IfOk result (λ numbers. AreUnmarked marks.now (length marks.now) numbers.items) }
{
    let mut numbers = Vec::new(alloc);
    for number in 0..marks.len() {
        if !marks[number] {
            numbers.push(number as u32)?;
        }
    }
    Ok(numbers)
}

/// The numbers of the structures to which no reference leads, in rising order, by the index of their names.
pub(crate) fn tops_with(
    alloc: Global,
    structures: &[Structure],
    index: &NameIndex<'_>,
) -> Result<Vec<u32>, NoMemory>
    requires { AreIndexed structures.now index.now }
    ensures { IfOk result (λ tops. AreTops structures.now tops.items) }
{
    let marks = marks_of(alloc, structures, index)?;
    unmarked(alloc, marks.as_slice())
}

/// The numbers of the structures of a library to which no reference leads, in rising order.
///
/// No two structures have one name, and there are fewer than 2^32, as in each library that was read.
pub fn tops_of(alloc: Global, library: &Library) -> Result<Vec<u32>, NoMemory>
    requires differ { AreDifferent (names_of library.now.structures) }
    requires few { length library.now.structures < 2 ^ 32 }
    ensures { IfOk result (λ tops. AreTops library.now.structures tops.items) }
{
    let index = library.index(alloc)?;
    tops_with(alloc, library.structures.as_slice(), &index)
}

/// The only one of the tops.
pub(crate) fn only_top(structures: &[Structure], tops: &[u32]) -> Result<u32, PlaceFault>
    requires { AreTops structures.now tops.now }
    ensures only { IfOk result (IsOnlyUnnamed structures.now) }
    ensures fault { IfErr result (IsTopFault structures.now) }
{
    if tops.is_empty() {
        return Err(PlaceFault::NoTop);
    }
    if tops.len() > 1 {
        let at = structures[tops[1] as usize].at;
        return Err(PlaceFault::ManyTops { at });
    }
    Ok(tops[0])
}
