ghost use Rattle.std.specs.Prelude.{neg_ℤ, ◌≤ℤ◌};
ghost use Rattle.geo_core.specs.declared.bounds.TheConstants.{FARTHEST};

/// An end of a vertical edge of an outline: from this row on up, the outline winds once more round the cells of column
/// `column` and of those on its right, where the turn rises, and once less where it does not.
#[derive(Clone, Copy)]
pub struct Turn {
    pub row: i32,
    pub column: i32,
    pub rises: bool,
    pub ghost left: { neg_ℤ FARTHEST ≤ℤ column },
    pub ghost right: { column ≤ℤ FARTHEST },
    pub ghost bottom: { neg_ℤ FARTHEST ≤ℤ row },
    pub ghost top: { row ≤ℤ FARTHEST },
}
