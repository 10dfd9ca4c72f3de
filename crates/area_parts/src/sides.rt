//! Which radii stand for the defects of a side. A defect of an odd side lies on whole cells, so that it touches what the
//! radius below half of its side touches, and covers what the radius above it covers. For an even side both are half of it. No
//! radius stands for what side 1 touches: it is one cell, which two nets do not share.

ghost use Rattle.std.specs.Prelude.{◌≡◌, ◌≤◌, ◌+◌, ◌/◌};
ghost use Rattle.geo_core.specs.Bounds.{IsRadius, IsSide};

/// How far a defect of this side reaches from its cell: half of the side, rounded down. From side 1 none is reached.
pub fn reach_of_side(side: u32) -> u32
    requires { IsSide side }
    ensures half { result ≡ side / 2 }
    ensures within { result ≤ 1000000 }
{
    side / 2
}

/// The radius of the defects that cover the same cells as those of this side: half of the side, rounded up.
pub fn covering_radius(side: u32) -> u32
    requires { IsSide side }
    ensures half { result ≡ (side + 1) / 2 }
    ensures radius { IsRadius result }
{
    (side + 1) / 2
}
