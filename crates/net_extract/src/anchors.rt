ghost use Rattle.std.specs.Prelude.{◌≡◌, ◌≤◌, ◌<◌, ◌↔◌, All, IfSome, IfNone, IfOk, length, map};
ghost use Rattle.std.specs.List.{AllZip, enumerate_from};
ghost use Rattle.first_refusal.specs.Checks.{Checks};
ghost use Rattle.geo_core.specs.Cells.{Has};
ghost use Rattle.geo_core.specs.declared.plane.Cell.{Cell};
ghost use Rattle.geo_core.specs.declared.plane.Rect.{Rect as AnyRect};
ghost use Rattle.map_model.specs.MapView.{terminal_of};
ghost use Rattle.map_model.specs.declared.limits.TheConstants.{MOST_TERMINALS};
ghost use Rattle.net_extract.specs.inside.Anchoring.{AreFound, AreTerminalsOn, IsAnchorOf, IsMarked, IsOnIsland, IsTerminalOn};
ghost use Rattle.first_refusal.specs.Answers.{Answers};
ghost use Rattle.net_extract.specs.Extraction.{off_metal};

use super::fault::NetFault;
use super::meetings::meetings;
use super::metals::IslandList;
use super::pieces::{Anchor, ContactPiece};
use geo_core::{Cell, FARTHEST_GROWN, Labelled, Rect};
use lists::{Items, NoMemory};
use map_model::Terminal;
use std::alloc::Global;

/// The terminals in order, each as an anchor of an island of its metal.
pub fn anchors_of(
    alloc: Global,
    terminals: &[Terminal],
    islands: &[IslandList],
) -> Result<Items<Anchor>, NetFault>
    requires few { length terminals.now ≤ MOST_TERMINALS }
    requires on_metals { All (λ terminal. terminal.metal < length islands.now) terminals.now }
    ensures { Answers NetFault.Memory (Checks (IsOnIsland islands.now) (enumerate_from 0 (map terminal_of terminals.now)) off_metal
        (AllZip (IsAnchorOf islands.now) terminals.now)) result }
{
    let found = islands_at(alloc, terminals, islands)?;
    let mut anchors = Vec::new(alloc);
    for (index, terminal) in terminals.iter().enumerate() {
        match found[index] {
            Some(island) => anchors.push(Anchor {
                metal: terminal.metal,
                cell: terminal.cell,
                island,
            })?,
            None => {
                return Err(NetFault::TerminalOffMetal {
                    index: index as u32,
                });
            }
        }
    }
    Ok(Items::from_vec(anchors))
}

/// For each terminal the island on which it stands, where it stands on one.
fn islands_at(
    alloc: Global,
    terminals: &[Terminal],
    islands: &[IslandList],
) -> Result<Vec<Option<usize>>, NoMemory>
    ensures { IfOk result (λ found. AreFound terminals.now islands.now (length islands.now) found.items) }
{
    let mut found = vec![in alloc; None; terminals.len()]?;
    for metal in 0..islands.len() {
        let cells = terminals_on(alloc, terminals, metal)?;
        let met = meetings(alloc, &cells, islands[metal].as_slice())?;
        mark(&mut found, &met);
    }
    Ok(found)
}

/// Notes the islands that terminals meet, which go by their numbers on the lower side.
fn mark(found: &mut [Option<usize>], met: &[ContactPiece])
    ensures { IsMarked found.old met.now found.new }
{
    for meeting in met {
        if meeting.lower < found.len() {
            found[meeting.lower] = Some(meeting.upper);
        }
    }
}

/// The cells of the metal's terminals as rectangles, labelled by the numbers of the terminals.
fn terminals_on(
    alloc: Global,
    terminals: &[Terminal],
    metal: usize,
) -> Result<Vec<Labelled>, NoMemory>
    ensures { IfOk result (λ cells. AreTerminalsOn terminals.now metal cells.items) }
{
    let mut cells = Vec::new(alloc);
    for (number, terminal) in terminals.iter().enumerate() {
        if let Some(cell) = terminal_on(terminal, number, metal) {
            cells.push(cell)?;
        }
    }
    Ok(cells)
}

/// The cell of the terminal as a rectangle, labelled by the terminal's number, if the terminal is on the metal.
fn terminal_on(terminal: &Terminal, number: usize, metal: usize) -> Option<Labelled>
    ensures { IsTerminalOn terminal.now number metal result }
{
    if terminal.metal as usize != metal {
        return None;
    }
    let rect = rect_at(terminal.cell)?;
    Some(Labelled {
        rect,
        label: number,
    })
}

/// The rectangle of one cell. Beyond where rectangles may lie there is none.
fn rect_at(cell: Cell) -> Option<Rect>
    ensures some { IfSome result (λ rect. (c : Cell) → Has rect c ↔ (c ≡ cell)) }
    ensures none { IfNone result ((rect : AnyRect) → Has rect cell → ⊥) }
{
    if cell.i < -FARTHEST_GROWN {
        return None;
    }
    if cell.i >= FARTHEST_GROWN {
        return None;
    }
    if cell.j < -FARTHEST_GROWN {
        return None;
    }
    if cell.j >= FARTHEST_GROWN {
        return None;
    }
    Some(Rect::new(cell.i, cell.j, cell.i + 1, cell.j + 1))
}
