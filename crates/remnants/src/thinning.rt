ghost use Rattle.std.specs.Prelude.{ℕ, Some, ◌≡◌, ◌↔◌, Contains, IfOk, IsTrue};
ghost use Rattle.remnants.specs.declared.parts.Loose.{Loose as AnyLoose};
ghost use Rattle.remnants.specs.declared.proposing.StandIn.{StandIn as AnyStandIn};
ghost use Rattle.remnants.specs.inside.Marking.{IsMarked};
ghost use Rattle.remnants.specs.inside.Thinning.{HasLooseBox, IsStoodFor, StandsFor};

use super::marks::Marks;
use super::numbers::Numbers;
use super::parts::Loose;
use super::proposing::{StandIn, proposals};
use lists::NoMemory;
use std::alloc::Global;

/// Terminals that may go: whatever is removed, another one that stays is nowhere but where they are.
pub fn needless_terminals(
    alloc: Global,
    loose: &[Loose],
    marks: &Marks,
    terminals: &[usize],
) -> Result<Vec<usize>, NoMemory>
    ensures { IfOk result (λ gone. (terminal : ℕ) → Contains gone.items terminal
        → IsStoodFor terminals.now (HasLooseBox loose.now) marks.now gone.items terminal) }
{
    if terminals.len() < 2 {
        return Ok(Vec::new(alloc));
    }
    let loose = loose_terminals(alloc, loose)?;
    let loose = Numbers::of(loose);
    let proposed = proposals(alloc, terminals, marks, &loose)?;
    if proposed.is_empty() {
        return Ok(Vec::new(alloc));
    }
    let listed = Numbers::of(Vec::from_slice(alloc, terminals)?);
    let going = Numbers::of(all_going(alloc, &proposed)?);
    going_by(alloc, &proposed, &going, &listed, &loose, marks)
}

/// The terminals that have something loose.
fn loose_terminals(alloc: Global, loose: &[Loose]) -> Result<Vec<usize>, NoMemory>
    ensures { IfOk result (λ found. (one : AnyLoose) (terminal : ℕ) → Contains loose.now one → one.terminal ≡ Some terminal →
        Contains found.items terminal) }
{
    let mut found = Vec::new(alloc);
    for one in loose {
        if let Some(terminal) = one.terminal {
            found.push(terminal)?;
        }
    }
    Ok(found)
}

/// The terminals that go by those of the proposals that are right. All that are to go by some of them are in a set.
fn going_by(
    alloc: Global,
    proposed: &[StandIn],
    going: &Numbers,
    listed: &Numbers,
    loose: &Numbers,
    marks: &Marks,
) -> Result<Vec<usize>, NoMemory>
    requires { (pair : AnyStandIn) → Contains proposed.now pair → Contains going.now pair.goes }
    ensures { IfOk result (λ gone. (terminal : ℕ) → Contains gone.items terminal
        → IsStoodFor listed.now (Contains loose.now) marks.now gone.items terminal) }
{
    let mut gone = Vec::new(alloc);
    for pair in proposed {
        if is_right(*pair, going, listed, loose, marks) {
            gone.push(pair.goes)?;
        }
    }
    Ok(gone)
}

/// The terminals that are to go by any of the proposals.
fn all_going(alloc: Global, proposed: &[StandIn]) -> Result<Vec<usize>, NoMemory>
    ensures { IfOk result (λ going. (pair : AnyStandIn) → Contains proposed.now pair → Contains going.items pair.goes) }
{
    let mut going = Vec::with_capacity(alloc, proposed.len())?;
    for pair in proposed {
        going.push(pair.goes)?;
    }
    Ok(going)
}

/// Whether the one terminal of the pair stands for the other, where none goes but those of the set.
fn is_right(
    pair: StandIn,
    going: &Numbers,
    listed: &Numbers,
    loose: &Numbers,
    marks: &Marks,
) -> bool
    ensures { IsTrue result → StandsFor listed.now (Contains loose.now) marks.now going.now pair.stays pair.goes }
{
    if !listed.has(pair.stays) {
        return false;
    }
    if going.has(pair.stays) {
        return false;
    }
    if loose.has(pair.stays) {
        return false;
    }
    is_covered(marks, pair.stays, pair.goes)
}

/// Whether the one terminal has marks, each at a leader at which the other has one, too.
fn is_covered(marks: &Marks, one: usize, other: usize) -> bool
    ensures somewhere { IsTrue result → (leader : ℕ) × IsMarked marks.now one leader }
    ensures covered { IsTrue result → (leader : ℕ) → IsMarked marks.now one leader → IsMarked marks.now other leader }
{
    let own = marks.of_terminal(one);
    for mark in own {
        if !marks.has(other, mark.leader) {
            return false;
        }
    }
    !own.is_empty()
}

/// The terminals that are not in the set.
pub fn terminals_without(
    alloc: Global,
    terminals: &[usize],
    gone: &Numbers,
) -> Result<Vec<usize>, NoMemory>
    ensures { IfOk result (λ stay. (terminal : ℕ) →
        Contains stay.items terminal ↔ (Contains terminals.now terminal × (Contains gone.now terminal → ⊥))) }
{
    let mut stay = Vec::with_capacity(alloc, terminals.len())?;
    for terminal in terminals {
        if !gone.has(*terminal) {
            stay.push(*terminal)?;
        }
    }
    Ok(stay)
}
