ghost use Rattle.std.specs.Prelude.{pos, negsuc, ◌≡◌, ◌-◌, ◌≤ℤ◌, ◌<ℤ◌, ◌^◌};
ghost use Rattle.geo_core.specs.Turns.{image_under};
ghost use Rattle.geo_core.specs.declared.plane.Point.{Point as PlanePoint};

use super::plane::Turn;

/// The point `(x, y)`, turned.
pub fn turn_point(turn: Turn, x: i64, y: i64) -> (i64, i64)
    requires left { negsuc (2 ^ 62 - 2) ≤ℤ x }
    requires right { x <ℤ pos (2 ^ 62) }
    requires bottom { negsuc (2 ^ 62 - 2) ≤ℤ y }
    requires top { y <ℤ pos (2 ^ 62) }
    ensures { let p = image_under turn (record { x = x; y = y }) in (result.0 ≡ p.x) × (result.1 ≡ p.y) }
{
    let y = if turn.reflect { -y } else { y };
    match turn.quarters {
        0 => (x, y),
        1 => (-y, x),
        2 => (-x, -y),
        _ => (y, -x),
    }
}

/// The turn that does `inner` first and then `outer`.
pub fn after(outer: Turn, inner: Turn) -> Turn
    ensures { (p : PlanePoint) → image_under result p ≡ image_under outer (image_under inner p) }
{
    if outer.reflect {
        return Turn {
            reflect: !inner.reflect,
            quarters: (4 + outer.quarters - inner.quarters) % 4,
        };
    }
    Turn {
        reflect: inner.reflect,
        quarters: (outer.quarters + inner.quarters) % 4,
    }
}
