ghost use Rattle.std.specs.Prelude.{[], ◌≡◌, ◌++◌, IfOk, OnOk, if◌then◌else◌, length};
ghost use Rattle.net_extract.specs.Standing.{cells_standing, clusters_standing, groups_standing, island_of_group};

use super::pieces::{Anchor, ContactGroup, GroupList};
use geo_core::Cell;
use lists::NoMemory;
use std::alloc::Global;

/// A terminal of a metal.
#[derive(Clone, Copy)]
pub enum MetalTerminal {
    /// A cell that the map names.
    Named(Cell),
    /// A via cluster: the group with this number of the contact pieces of the cut with this number, both counted from 0.
    Group { cut: usize, number: usize },
}

/// A terminal of a metal with the number of the island on which it stands.
#[derive(Clone, Copy)]
pub struct Standing {
    pub island: usize,
    pub terminal: MetalTerminal,
}

/// The terminals of the metal, each with its island: its anchors, and then, if clusters are terminals, the groups of the cuts
/// that have the metal.
pub fn terminals_on(
    alloc: Global,
    anchors: &[Anchor],
    ends: &[(u32, u32)],
    groups: &[GroupList],
    clusters_are_terminals: bool,
    metal: u32,
) -> Result<Vec<Standing>, NoMemory>
    requires { length ends.now ≡ length groups.now }
    ensures { IfOk result (λ terminals. terminals.items ≡ cells_standing anchors.now metal
        ++ (if clusters_are_terminals then clusters_standing ends.now groups.now metal else [])) }
{
    let mut terminals = named_cells(alloc, anchors, metal)?;
    if clusters_are_terminals {
        add_clusters(ends, groups, metal, &mut terminals)?;
    }
    Ok(terminals)
}

/// The metal's anchors, each as a terminal on its island.
fn named_cells(alloc: Global, anchors: &[Anchor], metal: u32) -> Result<Vec<Standing>, NoMemory>
    ensures { IfOk result (λ cells. cells.items ≡ cells_standing anchors.now metal) }
{
    let mut cells = Vec::new(alloc);
    for anchor in anchors {
        if anchor.metal == metal {
            cells.push(Standing {
                island: anchor.island,
                terminal: MetalTerminal::Named(anchor.cell),
            })?;
        }
    }
    Ok(cells)
}

/// Adds the groups of each cut that has the metal, each as a terminal on the island of the metal that it carries.
fn add_clusters(
    ends: &[(u32, u32)],
    groups: &[GroupList],
    metal: u32,
    terminals: &mut Vec<Standing>,
) -> Result<(), NoMemory>
    requires { length ends.now ≡ length groups.now }
    ensures { OnOk result
        (terminals.new.items ≡ terminals.old.items ++ clusters_standing ends.now groups.now metal) }
{
    for (cut, list) in groups.iter().enumerate() {
        add_groups(list.as_slice(), cut, ends[cut], metal, terminals)?;
    }
    Ok(())
}

/// Adds the groups of the cut with this number and these two metals, if it has the metal.
fn add_groups(
    groups: &[ContactGroup],
    cut: usize,
    ends: (u32, u32),
    metal: u32,
    terminals: &mut Vec<Standing>,
) -> Result<(), NoMemory>
    ensures { OnOk result
        (terminals.new.items ≡ terminals.old.items ++ groups_standing metal ends cut groups.now) }
{
    for (number, group) in groups.iter().enumerate() {
        if let Some(island) = island_of(group, ends, metal) {
            terminals.push(Standing {
                island,
                terminal: MetalTerminal::Group { cut, number },
            })?;
        }
    }
    Ok(())
}

/// The island of the metal that the group carries, where the metal is the lower or the upper one of its cut.
fn island_of(group: &ContactGroup, ends: (u32, u32), metal: u32) -> Option<usize>
    ensures { result ≡ island_of_group metal ends group.now }
{
    let (lower, upper) = ends;
    if lower == metal {
        return Some(group.lower);
    }
    if upper == metal {
        return Some(group.upper);
    }
    None
}
