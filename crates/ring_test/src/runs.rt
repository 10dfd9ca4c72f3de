ghost use Rattle.std.specs.Prelude.{◌<ℤ◌};

/// The numbers from `from` to before `to`, of which there is at least one.
#[derive(Clone, Copy)]
pub struct Run {
    pub from: i64,
    pub to: i64,
    pub ghost some: { from <ℤ to },
}
