ghost use Rattle.std.specs.Prelude.{neg_ℤ, ◌≤ℤ◌};
ghost use Rattle.geo_core.specs.declared.bounds.TheConstants.{FARTHEST};

/// From this column on, up to that of the next piece, the outline winds so often round the cells of a row.
#[derive(Clone, Copy)]
pub struct Piece {
    pub column: i32,
    pub winding: i64,
    pub ghost left: { neg_ℤ FARTHEST ≤ℤ column },
    pub ghost right: { column ≤ℤ FARTHEST },
}
