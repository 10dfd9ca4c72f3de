ghost use Rattle.std.specs.Prelude.{neg_ℤ, ◌≤ℤ◌};
ghost use Rattle.geo_core.specs.Intervals.{IsInterval};
ghost use Rattle.geo_core.specs.declared.bounds.TheConstants.{FARTHEST};

/// The columns from `low` to before `high`, all of which are inside from row `from` on up.
#[derive(Clone, Copy)]
pub struct Run {
    pub low: i32,
    pub high: i32,
    pub from: i32,
    pub ghost columns: { IsInterval FARTHEST low high },
    pub ghost bottom: { neg_ℤ FARTHEST ≤ℤ from },
    pub ghost top: { from ≤ℤ FARTHEST },
}
