ghost use Rattle.std.specs.Prelude.{◌≡◌, ◌<◌, ◌*◌, ◌/◌, IfOk, length};
ghost use Rattle.gds_records.specs.Fields.{HasItem};
ghost use Rattle.gds_records.specs.declared.kinds.TheConstants as kind;
ghost use Rattle.library_grammar.specs.OwnRecords.{body_of, point_in, points_in, points_of};

use super::own_records::OwnRecords;
use gds_records::{Record, i32_at, kinds};
use geo_core::{Point, Points};
use lists::NoMemory;
use std::alloc::Global;

/// How many bytes a point has: two coordinates of four bytes each.
const POINT: usize = 8;

/// Point `k` of a record of points, counted from 0. The point must lie in its body.
pub fn point_at(xy: &Record, k: usize) -> Point
    requires { HasItem 8 k xy.now.body.now }
    ensures { result ≡ point_in xy.now.body.now k }
{
    Point {
        x: i32_at(xy, 2 * k),
        y: i32_at(xy, 2 * k + 1),
    }
}

/// The points of a record of points.
fn points_at(alloc: Global, xy: &Record) -> Result<Points, NoMemory>
    ensures { IfOk result (λ points. points ≡ points_in xy.now.body.now) }
{
    let count = xy.body.len() / POINT;
    let mut points = Vec::with_capacity(alloc, count)?;
    for k in 0..count {
        points.push(point_at(xy, k))?;
    }
    Ok(Points::from_vec(points))
}

/// How many points the element has.
#[tactic(auto, using(library_grammar::proofs::laws::Points::count_of_xy))]
pub fn point_count(own: &OwnRecords<'_>) -> usize
    ensures { result ≡ length (points_of own.now) }
{
    match own.find(kinds::XY) {
        Some(xy) => xy.body.len() / POINT,
        None => 0,
    }
}

/// Point `k` of the element, counted from 0.
#[tactic(auto, using(library_grammar::proofs::laws::Points::item_of_xy))]
pub fn point_of(own: &OwnRecords<'_>, k: usize) -> Point
    requires { k < length (points_of own.now) }
    ensures { result ≡ point_in (body_of kind.XY own.now) k }
{
    match own.find(kinds::XY) {
        Some(xy) => point_at(&xy, k),
        None => unreachable!(),
    }
}

/// The points of the element.
pub fn points_of(alloc: Global, own: &OwnRecords<'_>) -> Result<Points, NoMemory>
    ensures { IfOk result (λ points. points ≡ points_of own.now) }
{
    match own.find(kinds::XY) {
        Some(xy) => points_at(alloc, &xy),
        None => Ok(Points::from_vec(Vec::new(alloc))),
    }
}
