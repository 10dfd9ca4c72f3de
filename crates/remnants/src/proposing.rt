//! Proposals of terminals that may go. Each is checked before it is used, so that nothing is promised of them here.

use super::marks::Marks;
use super::numbers::Numbers;
use super::parts::Mark;
use lists::NoMemory;
use std::alloc::Global;

/// An odd number whose bits are in no order: products with it differ in many bits where their other factors differ in few.
const MIXING_FACTOR: u64 = 0x9e37_79b9_7f4a_7c15;

/// A terminal that may go, and another one that stays in its place.
#[derive(Clone, Copy)]
pub struct StandIn {
    pub goes: usize,
    pub stays: usize,
}

/// What is compared of a terminal with several marks: how many these are, and a number that is made of their leaders.
#[derive(Clone, Copy)]
struct Fingerprint {
    count: usize,
    made: u64,
    terminal: usize,
}

/// Pairs of terminals of which the one probably stands for the other. Each terminal goes by one pair at most, and by none where
/// it stays by another. The terminals that have something loose are given.
pub fn proposals(
    alloc: Global,
    terminals: &[usize],
    marks: &Marks,
    loose: &Numbers,
) -> Result<Vec<StandIn>, NoMemory> {
    let heads = heads_of(alloc, terminals, marks, loose)?;
    let mut proposed = Vec::new(alloc);
    let mut fingerprints = Vec::new(alloc);
    for terminal in terminals {
        let own = marks.of_terminal(*terminal);
        if let Some(stays) = head_for(&heads, *terminal, own) {
            proposed.push(StandIn {
                goes: *terminal,
                stays,
            })?;
        } else if own.len() > 1 && !loose.has(*terminal) {
            fingerprints.push(fingerprint_of(*terminal, own))?;
        }
    }
    with_alike(proposed, fingerprints)
}

/// Marks of terminals that have no other and nothing loose: one at each leader that has such a mark, in the order of leaders.
fn heads_of(
    alloc: Global,
    terminals: &[usize],
    marks: &Marks,
    loose: &Numbers,
) -> Result<Vec<Mark>, NoMemory> {
    let mut heads = Vec::new(alloc);
    for terminal in terminals {
        if let [mark] = marks.of_terminal(*terminal) {
            if !loose.has(*terminal) {
                heads.push(*mark)?;
            }
        }
    }
    heads.sort_unstable_by_key(|mark| (mark.leader, mark.terminal));
    heads.dedup_by_key(|mark| mark.leader);
    Ok(heads)
}

/// The terminal of a head at one of the leaders of these marks of a terminal, if there is one that is not this terminal.
fn head_for(heads: &[Mark], terminal: usize, own: &[Mark]) -> Option<usize> {
    for mark in own {
        if let Ok(place) = heads.binary_search_by_key(&mark.leader, |head| head.leader) {
            let head = heads[place].terminal;
            if head != terminal {
                return Some(head);
            }
        }
    }
    None
}

/// What is compared of the terminal with these marks, which are in the order of leaders.
fn fingerprint_of(terminal: usize, own: &[Mark]) -> Fingerprint {
    let mut made = 0_u64;
    for mark in own {
        made = (made ^ mark.leader as u64).wrapping_mul(MIXING_FACTOR);
        made = made.rotate_left(29);
    }
    Fingerprint {
        count: own.len(),
        made,
        terminal,
    }
}

/// With a pair for each terminal that looks like another one, which stays.
fn with_alike(
    proposed: Vec<StandIn>,
    fingerprints: Vec<Fingerprint>,
) -> Result<Vec<StandIn>, NoMemory> {
    let mut pairs = proposed;
    let mut sorted = fingerprints;
    sorted.sort_unstable_by_key(|one| (one.count, one.made, one.terminal));
    let mut first: Option<Fingerprint> = None;
    for one in &sorted {
        match first {
            Some(other) if other.count == one.count && other.made == one.made => {
                pairs.push(StandIn {
                    goes: one.terminal,
                    stays: other.terminal,
                })?;
            }
            _ => first = Some(*one),
        }
    }
    Ok(pairs)
}
