ghost use Rattle.std.specs.Prelude.{[], ◌∷◌, ◌++◌, ◌≡◌, ◌↔◌, AllPairs, IfOk, IsTrue, OnOk};
ghost use Rattle.net_pairs.specs.inside.Sums.{AreAlike, AreOfOnePair, AreSumsOf, GainsSome, IsNoLater};

use lists::NoMemory;
use std::alloc::Global;

/// So many items are kept before any are added up.
const LEAST: usize = 1024;

/// Cells by pairs of labels, as they are found: the one label, the other one, and so many cells. They are added up in 64 bits, so
/// that what is to be taken away is added as what it lacks to 2 to the 64th.
#[derive(Drop)]
pub struct PairSums {
    pub items: Vec<(usize, usize, u64)>,
    /// With so many items those of one pair are added up.
    most: usize,
}

impl PairSums {
    /// No cells so far.
    pub fn new(alloc: Global) -> PairSums
        ensures { result.items.items ≡ [] }
    {
        PairSums {
            items: Vec::new(alloc),
            most: LEAST,
        }
    }

    /// Adds so many cells of this pair.
    pub fn add(&mut self, one: usize, other: usize, cells: u64) -> Result<(), NoMemory>
        ensures { OnOk result (self.new.items.items ≡ self.old.items.items ++ (one, other, cells) ∷ []) }
    {
        self.items.push((one, other, cells))?;
        Ok(())
    }

    /// Adds up the items of each pair, where there are twice as many items as the last time.
    pub fn shrink(&mut self, alloc: Global) -> Result<(), NoMemory>
        ensures { OnOk result (AreAlike self.old.items.items self.new.items.items) }
    {
        if self.items.len() < self.most {
            return Ok(());
        }
        sort_by_pair(&mut self.items);
        let sums = added_up(alloc, self.items.as_slice())?;
        self.most = sums.len().saturating_mul(2).max(LEAST);
        self.items = sums;
        Ok(())
    }

    /// The cells of each pair that has some, in 64 bits, in the order of the pairs.
    pub fn finish(mut self, alloc: Global) -> Result<Vec<(usize, usize, u64)>, NoMemory>
        ensures { IfOk result (λ sums. AreSumsOf self.items.items sums.items) }
    {
        sort_by_pair(&mut self.items);
        added_up(alloc, self.items.as_slice())
    }
}

/// Puts the items in the order of their pairs.
fn sort_by_pair(items: &mut Vec<(usize, usize, u64)>)
    ensures same { AreAlike items.old.items items.new.items }
    ensures ordered { AllPairs IsNoLater items.new.items }
{
    items.sort_unstable();
}

/// Whether the two items are of one pair.
fn are_of_one_pair(item: (usize, usize, u64), other: (usize, usize, u64)) -> bool
    ensures { IsTrue result ↔ AreOfOnePair item other }
{
    item.0 == other.0 && item.1 == other.1
}

/// Adds the item, where it has cells.
fn push_some(sums: &mut Vec<(usize, usize, u64)>, item: (usize, usize, u64)) -> Result<(), NoMemory>
    ensures { OnOk result (GainsSome sums.old.items sums.new.items item) }
{
    if item.2 > 0 {
        sums.push(item)?;
    }
    Ok(())
}

/// One item for each pair that has cells, with all its cells in 64 bits.
fn added_up(
    alloc: Global,
    sorted: &[(usize, usize, u64)],
) -> Result<Vec<(usize, usize, u64)>, NoMemory>
    requires { AllPairs IsNoLater sorted.now }
    ensures { IfOk result (λ sums. AreSumsOf sorted.now sums.items) }
{
    let mut sums = Vec::new(alloc);
    let mut last = (0, 0, 0);
    for item in sorted {
        if are_of_one_pair(last, *item) {
            last = (last.0, last.1, last.2.wrapping_add(item.2));
        } else {
            push_some(&mut sums, last)?;
            last = *item;
        }
    }
    push_some(&mut sums, last)?;
    Ok(sums)
}
