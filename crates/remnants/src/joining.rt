ghost use Rattle.std.specs.Prelude.{◌≡◌, ◌<◌, All, IfOk, length, map, ◌↔◌};
ghost use Rattle.half_boxes.specs.declared.boxes.HalfBox.{HalfBox as AnyBox};
ghost use Rattle.remnants.specs.Remnants.{IsJoined, IsSplit};
ghost use Rattle.remnants.specs.inside.Joining.{AreLeaders, AreLedBy, AreMovedTo, HasLeads};

use super::marks::Marks;
use super::parts::{Fixed, Mark};
use super::remnant::Remnant;
use super::unjoined::Unjoined;
use classes::classes;
use half_boxes::{HalfBox, links_of};
use lists::NoMemory;
use std::alloc::Global;

/// The new leaders of the fixed boxes: those that touch, or have one leader, get one.
fn leaders_of(alloc: Global, fixed: &[Fixed]) -> Result<Vec<usize>, NoMemory>
    requires { All (λ one. one.leader < length fixed.now) fixed.now }
    ensures { IfOk result (λ leaders. AreLeaders fixed.now leaders.items) }
{
    let boxes = boxes_of(alloc, fixed)?;
    let links = links_of(alloc, &boxes)?;
    let pairs = with_leads(links, fixed)?;
    Ok(classes(alloc, fixed.len(), &pairs)?)
}

/// The boxes without their leaders.
fn boxes_of(alloc: Global, fixed: &[Fixed]) -> Result<Vec<HalfBox>, NoMemory>
    ensures { IfOk result (λ boxes. boxes.items ≡ map (λ one. one.part) fixed.now) }
{
    let mut boxes = Vec::with_capacity(alloc, fixed.len())?;
    for one in fixed {
        boxes.push(one.part)?;
    }
    Ok(boxes)
}

/// The pairs, with those of each box and its leader, where this is another one.
fn with_leads(links: Vec<(usize, usize)>, fixed: &[Fixed]) -> Result<Vec<(usize, usize)>, NoMemory>
    ensures { IfOk result (λ pairs. HasLeads links.items fixed.now pairs.items) }
{
    let mut pairs = links;
    for (number, one) in fixed.iter().enumerate() {
        if one.leader != number {
            pairs.push((number, one.leader))?;
        }
    }
    Ok(pairs)
}

/// The boxes with new leaders.
fn led_by(alloc: Global, fixed: &[Fixed], leaders: &[usize]) -> Result<Vec<Fixed>, NoMemory>
    requires { length leaders.now ≡ length fixed.now }
    ensures { IfOk result (λ led. AreLedBy fixed.now leaders.now led.items) }
{
    let mut led = Vec::with_capacity(alloc, fixed.len())?;
    for (number, one) in fixed.iter().enumerate() {
        led.push(Fixed {
            part: one.part,
            leader: leaders[number],
        })?;
    }
    Ok(led)
}

/// The marks at new leaders, each once.
pub fn moved_to(alloc: Global, marks: &[Mark], leaders: &[usize]) -> Result<Marks, NoMemory>
    requires { All (λ mark. mark.leader < length leaders.now) marks.now }
    ensures { IfOk result (λ moved. AreMovedTo leaders.now marks.now moved) }
{
    let mut moved = Vec::with_capacity(alloc, marks.len())?;
    for mark in marks {
        moved.push(Mark {
            terminal: mark.terminal,
            leader: leaders[mark.leader],
        })?;
    }
    Ok(Marks::of(moved))
}

/// With one leader for fixed boxes that touch.
pub fn join(alloc: Global, unjoined: Unjoined) -> Result<Remnant, NoMemory>
    ensures same { IfOk result (λ joined. (removed : AnyBox) → IsSplit joined removed ↔ IsSplit unjoined removed) }
    ensures loose { IfOk result (λ joined. joined.loose ≡ unjoined.loose) }
{
    let Unjoined {
        fixed,
        loose,
        marks,
        terminals,
    } = unjoined;
    let leaders = leaders_of(alloc, &fixed)?;
    let led = led_by(alloc, &fixed, &leaders)?;
    let moved = moved_to(alloc, &marks, &leaders)?;
    Ok(Remnant::new(led, loose, moved, terminals))
}
