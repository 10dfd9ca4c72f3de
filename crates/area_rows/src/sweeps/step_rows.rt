//! How many steps a sweep over two crossing rectangles takes. Their four sides have three columns between them, for which the
//! least tree has three levels: so there are at most 32 steps for each of the two and each of the three, which is 192.
//!
//! That the steps are so few, and some where the area is right, is what the clauses say: steps take no room in a program.

ghost use Rattle.std.specs.Prelude.{◌≡◌, ◌<◌, ◌≤◌, ◌+◌, true};

use depth_sweep::{area_once, area_twice};
use geo_core::{Rect, Steps};
use std::alloc::Global;
use std::marker::Brand;
use std::sync::ledger::{Blank, Ledger};

/// Whether the cells in at least one of the two are as many as they are.
fn counts_once<L: Ledger>(alloc: Global, steps: &mut Steps<L>) -> bool
    ensures few { steps.new ≤ steps.old + 192 }
    ensures some { result ≡ true → steps.old < steps.new }
{
    let lower = Rect::new(0, 0, 400_000_000, 200_000_000);
    let upper = Rect::new(200_000_000, 100_000_000, 600_000_000, 300_000_000);
    let window = Rect::new(-1_000_000_000, -1_000_000_000, 1_000_000_000, 1_000_000_000);
    match area_once(alloc, &[lower, upper], window, steps) {
        Ok(area) => area == 140_000_000_000_000_000,
        Err(_) => false,
    }
}

/// Whether the cells in both are.
fn counts_twice<L: Ledger>(alloc: Global, steps: &mut Steps<L>) -> bool
    ensures few { steps.new ≤ steps.old + 192 }
    ensures some { result ≡ true → steps.old < steps.new }
{
    let lower = Rect::new(0, 0, 400_000_000, 200_000_000);
    let upper = Rect::new(200_000_000, 100_000_000, 600_000_000, 300_000_000);
    let window = Rect::new(-1_000_000_000, -1_000_000_000, 1_000_000_000, 1_000_000_000);
    match area_twice(alloc, &[lower, upper], window, steps) {
        Ok(area) => area == 20_000_000_000_000_000,
        Err(_) => false,
    }
}

/// Whether both are counted right, with one counter of steps.
fn are_counted<L: Ledger>(alloc: Global, blank: Blank) -> bool
    requires name { blank.name ≡ L.name }
    requires parts { blank.parts ≡ L.parts }
    requires some { 0 < blank.parts }
{
    let mut steps = Steps::<L>::start(blank);
    counts_once(alloc, &mut steps) && counts_twice(alloc, &mut steps)
}

#[test]
fn sweeps_over_two_take_few_steps(rt: HostRuntime) {
    assert!(rt; are_counted::<Brand>(rt.alloc(), Blank::new(1)));
}
