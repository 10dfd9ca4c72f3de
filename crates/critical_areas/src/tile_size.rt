ghost use Rattle.std.specs.Prelude.{◌≡◌, ◌≤◌, length};
ghost use Rattle.questions.specs.Questions.{IsAskable};
ghost use Rattle.critical_areas.specs.inside.Lengthening.{IsDoubled};

use super::apart::boxes_of;
use area_parts::{Asked, Parts, reach_of_side};
use fault_model::Island;
use geo_core::Rect;
use questions::{Kind, Question};
use tile_plan::{Rectangular, TilePlan, plan};

/// A longer edge is not doubled.
const LONG_EDGE: u32 = 500_000_000;

/// So many looks at pieces beyond two at each are always spared.
const SPARED_LOOKS: u64 = 100_000;

/// So many times tiles may ask questions, beside twice for each piece of each question. Where nothing is near, to ask takes about
/// as long as a look at a piece.
const SPARED_ASKS: u64 = 1_000_000;

/// Islands have many rectangles, with those of their spots, where all together have so many.
const MANY_BOXES: usize = 4_000;

/// A window has at least so many tiles along its longer side where workers share islands of many rectangles.
const SHARED_TILES: u32 = 4;

/// The edge to begin with: the one that is asked for, or a shorter one, so that several workers have some tiles each, where islands
/// have many rectangles. To look for their opens takes far longer than all else, and a tile is the work of one.
pub fn shared_edge(parts: &Parts, window: Rect, edge: u32, workers: u32) -> u32
    requires some { 1 ≤ edge }
    requires short { edge ≤ 1000000000 }
    ensures some { 1 ≤ result }
    ensures short { result ≤ 1000000000 }
{
    if workers < 2 || boxes_of_islands(parts) < MANY_BOXES {
        return edge;
    }
    let columns = window.x1.abs_diff(window.x0);
    let rows = window.y1.abs_diff(window.y0);
    edge.min(columns.max(rows) / SHARED_TILES + 1)
}

/// How many rectangles the islands of all metals have, with those of their spots.
fn boxes_of_islands(parts: &Parts) -> usize {
    let mut boxes = 0_usize;
    for islands in parts.islands.as_slice() {
        boxes = boxes.saturating_add(boxes_of_metal(islands.as_slice()));
    }
    boxes
}

/// How many the islands of one metal have.
fn boxes_of_metal(islands: &[Island]) -> usize {
    let mut boxes = 0_usize;
    for island in islands {
        boxes = boxes.saturating_add(boxes_of(island));
    }
    boxes
}

/// The tiles of the window to count over. Their edge is the one that is asked for, doubled where tiles would be too many, would
/// take too many looks at pieces or would ask too often.
pub fn sensible_plan(asked: Asked<'_>, window: Rect, edge: u32) -> TilePlan
    requires some { 1 ≤ edge }
    requires short { edge ≤ 1000000000 }
    ensures window { result.window ≡ window }
    ensures edge { IsDoubled edge result.edge }
{
    plan(window, sensible_edge(asked, window, edge))
}

/// The edge that is asked for, doubled until tiles look at each piece about twice on average, and in all about 100,000 times more,
/// and until they ask questions about twice for each piece, and 1,000,000 times more. Each tile looks at all pieces that come near
/// it, so over short tiles the work of wires as long as the layout would grow with the square of their number, and so would that of
/// large defects. And each tile asks all questions, so a few pieces far apart would take as long as a layout that fills the plane.
fn sensible_edge(asked: Asked<'_>, window: Rect, edge: u32) -> u32
    requires some { 1 ≤ edge }
    requires short { edge ≤ 1000000000 }
    ensures some { 1 ≤ result }
    ensures short { result ≤ 1000000000 }
    ensures edge { IsDoubled edge result }
{
    doubled(asked, window, greatest_reach(asked), edge)
}

/// How far a defect that is asked for reaches at most.
pub fn greatest_reach(asked: Asked<'_>) -> u32 {
    let mut reach = 0;
    for question in asked.questions {
        reach = reach_of_side(question.side()).max(reach);
    }
    reach
}

/// The edge, doubled while it is too short.
fn doubled(asked: Asked<'_>, window: Rect, reach: u32, edge: u32) -> u32
    requires some { 1 ≤ edge }
    requires short { edge ≤ 1000000000 }
    ensures some { 1 ≤ result }
    ensures short { result ≤ 1000000000 }
    ensures edge { IsDoubled edge result }
{
    if edge > LONG_EDGE || !is_too_short(asked, window, reach, edge) {
        return edge;
    }
    doubled(asked, window, reach, edge * 2)
}

/// Whether tiles with this edge would take too many looks at pieces, or would ask too often.
fn is_too_short(asked: Asked<'_>, window: Rect, reach: u32, edge: u32) -> bool
    requires { 1 ≤ edge }
{
    if further_looks(asked.parts, reach, edge) > SPARED_LOOKS {
        return true;
    }
    let spared = pieces_asked(asked).saturating_mul(2);
    asks(asked, window, edge) > spared.saturating_add(SPARED_ASKS)
}

/// How often tiles with this edge ask a question.
fn asks(asked: Asked<'_>, window: Rect, edge: u32) -> u64
    requires { 1 ≤ edge }
{
    let columns = tiles_along(window.x1.abs_diff(window.x0), edge);
    let rows = tiles_along(window.y1.abs_diff(window.y0), edge);
    let tiles = columns.saturating_mul(rows);
    tiles.saturating_mul(asked.questions.len() as u64)
}

/// How many tiles lie along so many places.
fn tiles_along(places: u32, edge: u32) -> u64
    requires { 1 ≤ edge }
{
    u64::from(places).div_ceil(u64::from(edge))
}

/// How many pieces or boxes the questions are asked about, each as often as there are questions about it.
fn pieces_asked(asked: Asked<'_>) -> u64 {
    let mut pieces = 0_u64;
    for question in asked.questions {
        pieces = pieces.saturating_add(pieces_of(asked.parts, question) as u64);
    }
    pieces
}

/// How many pieces the metal of the question has, or how many boxes its cut.
fn pieces_of(parts: &Parts, question: &Question) -> usize
    requires { IsAskable (length parts.now.metals) (length parts.now.cuts) question.now }
{
    let number = question.number as usize;
    match question.kind {
        Kind::Short | Kind::Open => parts.metals.as_slice()[number].as_slice().len(),
        Kind::Via => {
            let cut = number - parts.metals.as_slice().len();
            parts.cuts.as_slice()[cut].as_slice().len()
        }
    }
}

/// About how many looks at the pieces and boxes of the parts tiles with this edge take beyond two at each, for defects that reach
/// so far.
fn further_looks(parts: &Parts, reach: u32, edge: u32) -> u64
    requires { 1 ≤ edge }
{
    let mut looks = 0_u64;
    for pieces in parts.metals.as_slice() {
        looks = looks.saturating_add(further_looks_at(pieces.as_slice(), reach, edge));
    }
    for boxes in parts.cuts.as_slice() {
        looks = looks.saturating_add(further_looks_at(boxes.as_slice(), reach, edge));
    }
    looks
}

/// About how many looks at the rectangles of the list tiles with this edge take beyond two at each.
fn further_looks_at<T: Rectangular>(list: &[T], reach: u32, edge: u32) -> u64
    requires { 1 ≤ edge }
{
    let mut looks = 0_u64;
    for one in list {
        looks = looks.saturating_add(further_tiles(one.rect(), reach, edge));
    }
    looks.saturating_sub(list.len() as u64)
}

/// About how many tiles with this edge come within the reach of the rectangle, beside the first of them.
pub fn further_tiles(rect: Rect, reach: u32, edge: u32) -> u64
    requires { 1 ≤ edge }
{
    let columns = tiles_behind(rect.x1.abs_diff(rect.x0), reach, edge);
    let rows = tiles_behind(rect.y1.abs_diff(rect.y0), reach, edge);
    columns
        .saturating_mul(rows)
        .saturating_add(columns)
        .saturating_add(rows)
}

/// About how many tiles come within the reach of so many places in a row, behind the first of them.
fn tiles_behind(places: u32, reach: u32, edge: u32) -> u64
    requires { 1 ≤ edge }
{
    (u64::from(places) + 2 * u64::from(reach)) / u64::from(edge)
}
