ghost use Rattle.std.specs.Prelude.{◌++◌, ◌≡◌, IfOk};
ghost use Rattle.remnants.specs.inside.Parting.{marks_of};

use super::parts::{Fixed, Loose, Mark};
use half_boxes::HalfBox;
use lists::NoMemory;
use std::alloc::Global;
use std::marker::Model;

/// A remnant whose fixed boxes may touch and yet have different leaders.
#[derive(Drop)]
pub struct Unjoined {
    pub fixed: Vec<Fixed>,
    pub loose: Vec<Loose>,
    pub marks: Vec<Mark>,
    pub terminals: Vec<usize>,
}

impl Model for Unjoined {
    ghost use Rattle.remnants.specs.Remnants.{RemnantLists, HasLeaders};

    ghost Value = { RemnantLists };

    ghost view = { λ unjoined. record {
      fixed = unjoined.fixed.items;
      loose = unjoined.loose.items;
      marks = unjoined.marks.items;
      terminals = unjoined.terminals.items;
    } };

    ghost invariant = { λ unjoined. HasLeaders (record {
      fixed = unjoined.fixed.items;
      loose = unjoined.loose.items;
      marks = unjoined.marks.items;
      terminals = unjoined.terminals.items;
    }) };
}

impl Unjoined {
    ghost use Rattle.std.specs.Prelude.{[], ◌++◌, ◌≡◌, IfOk};
    ghost use Rattle.remnants.specs.Remnants.{HasLeaders};
    ghost use Rattle.remnants.specs.inside.Parting.{IsSettled, loose_of};

    /// A copy of these fixed boxes, marks and terminals, with no loose boxes. There is room for some parts of this many boxes.
    pub fn without_loose(
        alloc: Global,
        fixed: &[Fixed],
        marks: &[Mark],
        terminals: &[usize],
        boxes: usize,
    ) -> Result<Unjoined, NoMemory>
        requires { HasLeaders (record { fixed = fixed.now; loose = []; marks = marks.now; terminals = terminals.now }) }
        ensures { IfOk result (λ unjoined. unjoined
            ≡ record { fixed = fixed.now; loose = []; marks = marks.now; terminals = terminals.now }) }
    {
        let room = fixed.len().saturating_add(boxes).saturating_add(boxes);
        let mut more_fixed = Vec::with_capacity(alloc, room)?;
        more_fixed.extend_from_slice(fixed)?;
        let mut more_marks = Vec::with_capacity(alloc, marks.len().saturating_add(boxes))?;
        more_marks.extend_from_slice(marks)?;
        let loose = Vec::with_capacity(alloc, boxes)?;
        let terminals = Vec::from_slice(alloc, terminals)?;
        Ok(Unjoined {
            fixed: more_fixed,
            loose,
            marks: more_marks,
            terminals,
        })
    }

    /// With the part, if there is one, as a fixed box that leads itself, and with a mark at it for the terminal.
    pub fn settle(
        self,
        part: Option<HalfBox>,
        terminal: Option<usize>,
    ) -> Result<Unjoined, NoMemory>
        ensures settled { IfOk result (λ settled. IsSettled part terminal self settled) }
        ensures loose { IfOk result (λ settled. settled.loose ≡ self.loose) }
    {
        let Some(part) = part else {
            return Ok(self);
        };
        let Unjoined {
            mut fixed,
            loose,
            marks,
            terminals,
        } = self;
        let leader = fixed.len();
        fixed.push(Fixed { part, leader })?;
        let marks = with_mark(marks, terminal, leader)?;
        Ok(Unjoined {
            fixed,
            loose,
            marks,
            terminals,
        })
    }

    /// With the part, if there is one, as a loose box.
    pub fn hold(self, part: Option<HalfBox>, terminal: Option<usize>) -> Result<Unjoined, NoMemory>
        ensures { IfOk result (λ held. held ≡ record {
          fixed = self.fixed;
          loose = self.loose ++ loose_of part terminal;
          marks = self.marks;
          terminals = self.terminals;
        }) }
    {
        let Some(part) = part else {
            return Ok(self);
        };
        let Unjoined {
            fixed,
            mut loose,
            marks,
            terminals,
        } = self;
        loose.push(Loose { part, terminal })?;
        Ok(Unjoined {
            fixed,
            loose,
            marks,
            terminals,
        })
    }
}

/// The marks, and one of the terminal at the leader, if there is the terminal.
fn with_mark(
    marks: Vec<Mark>,
    terminal: Option<usize>,
    leader: usize,
) -> Result<Vec<Mark>, NoMemory>
    ensures { IfOk result (λ more. more.items ≡ marks.items ++ marks_of terminal leader) }
{
    let mut marks = marks;
    match terminal {
        Some(terminal) => marks.push(Mark { terminal, leader })?,
        None => {}
    }
    Ok(marks)
}
