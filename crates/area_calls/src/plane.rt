//! What two rectangles have in common, and turns of points.

use geo_core::{Turn, after, clip, overlaps, touches, turn_point};
use row_tables::Case;

/// The cells that two rectangles have in common, and whether they touch, whichever of the two comes first.
pub fn two_rects(case: &mut Case<'_>) {
    let rect = case.rect("rect");
    let other = case.rect("other");
    for (rect, other) in [(rect, other), (other, rect)] {
        let common = clip(rect, other);
        if overlaps(rect, other) != common.is_some() {
            case.note("common", "whether there is some is another answer");
        }
        case.expect("touch", touches(rect, other));
        case.expect_rects("common", common.as_slice());
    }
}

/// The turn at the key: 1 if it mirrors and else 0, and by how many quarters it turns after that.
fn turn<'a>(case: &mut Case<'a>, key: &'a str) -> Turn {
    match case.numbers(key).as_slice() {
        [mirrors, quarters] if *quarters < 4 => Turn {
            reflect: *mirrors == 1,
            quarters: *quarters,
        },
        _ => {
            case.note(key, "not a turn");
            Turn {
                reflect: false,
                quarters: 0,
            }
        }
    }
}

/// What two turns come to, the inner one first, and where that takes the point (1, 2).
pub fn turns(case: &mut Case<'_>) {
    let outer = turn(case, "outer");
    let inner = turn(case, "inner");
    let both = after(outer, inner);
    let (x, y) = turn_point(both, 1, 2);
    case.expect_list("both", &[u8::from(both.reflect), both.quarters]);
    case.expect_list("point", &[x, y]);
}
