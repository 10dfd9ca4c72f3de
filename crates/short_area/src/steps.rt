use geo_core::Axis;

/// What comes next of a window that is counted.
pub enum Step {
    /// This is its count.
    Count(u64),
    /// It is halved along the axis at the place. Of more than an eighth of so many zones no runs are tried again.
    Halve(Axis, i32, usize),
}
