ghost use Rattle.std.specs.Prelude.{
  ◌≡◌,
  ◌<◌,
  ◌^◌,
  ◌↔◌,
  ◌++◌,
  ◌∷◌,
  [],
  Contains,
  IfOk,
  IsTrue,
  OnErr,
  false,
  if◌then◌else◌,
  length,
};
ghost use Rattle.lists.specs.Differing.{AreDifferent};
ghost use Rattle.library_model.specs.Names.{names_of, place_of};

use super::library::Library;
use indexmap::IndexSet;
use lists::NoMemory;
use std::alloc::Global;
use std::marker::Model;

/// The names of structures, which are found by hashes. Contracts see them as a list, in which no name stands twice. The
/// names themselves stay where they are: in a stream, or in a library.
#[derive(Drop)]
pub struct NameIndex<'a> {
    names: IndexSet<&'a [u8]>,
}

impl<'a> Model for NameIndex<'a> {
    ghost use Rattle.std.specs.Prelude.{◌≤◌, ◌^◌, ℕ, List, length, map};
    ghost use Rattle.lists.specs.Differing.{AreDifferent};

    ghost Value = { List (List ℕ) };

    ghost view = { λ index. map (λ name. name.now) index.names.keys };

    // Each place fits a `u32`.
    ghost invariant = { λ index. AreDifferent (map (λ name. name.now) index.names.keys) × (length index.names.keys ≤ 2 ^ 32) };
}

impl<'a> NameIndex<'a> {
    /// No names yet.
    pub fn new(alloc: Global) -> NameIndex<'a>
        ensures { result ≡ [] }
    {
        NameIndex {
            names: IndexSet::new(alloc),
        }
    }

    /// No names yet, with room for so many.
    fn with_room(alloc: Global, count: usize) -> Result<NameIndex<'a>, NoMemory>
        ensures { IfOk result (λ index. index ≡ []) }
    {
        Ok(NameIndex {
            names: IndexSet::with_capacity(alloc, count)?,
        })
    }

    /// The place of the name, counted from 0, if it is there: the first, and the only one, since no name stands twice. This
    /// takes no memory.
    pub fn find(&self, name: &[u8]) -> Option<u32>
        ensures place { result ≡ place_of self.now name.now }
        ensures differ { AreDifferent self.now }
    {
        let place = self.names.get_index_of(name)?;
        Some(place as u32)
    }

    /// Puts the name last, unless it is there already; whether it was put there.
    pub fn add(&mut self, name: &'a [u8]) -> Result<bool, NoMemory>
        requires { length self.old < 2 ^ 32 }
        ensures fresh { IfOk result (λ is_new. IsTrue is_new ↔ (Contains self.old name.now → ⊥)) }
        ensures known { IfOk result (λ is_new. is_new ≡ false → Contains self.old name.now) }
        ensures names { IfOk result (λ is_new. self.new ≡ (if is_new then self.old ++ name.now ∷ [] else self.old)) }
        ensures unchanged { OnErr result (self.new ≡ self.old) }
    {
        let is_new = self.names.insert(name)?;
        Ok(is_new)
    }
}

impl Library {
    /// The index of its structures' names: the place of a name is the number of its structure.
    pub fn index(&self, alloc: Global) -> Result<NameIndex<'_>, NoMemory>
        requires differ { AreDifferent (names_of self.now.structures) }
        requires few { length self.now.structures < 2 ^ 32 }
        ensures { IfOk result (λ index. index ≡ names_of self.now.structures) }
    {
        let structures = self.structures.as_slice();
        let mut index = NameIndex::with_room(alloc, structures.len())?;
        for structure in structures {
            index.add(structure.name.as_slice())?;
        }
        Ok(index)
    }
}
