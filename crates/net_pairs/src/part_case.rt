use geo_core::{Axis, Labelled};

/// What comes next of a window.
#[derive(Drop)]
pub enum PartCase {
    /// It has zones of one label at most.
    Nothing,
    /// It has so few zones that each may be looked at with each.
    Few,
    /// Its zones have these two labels, the lesser one first, and no third.
    Two(usize, usize),
    /// These are the runs of its zones, and what each two of them have in common is to be added.
    Meet(Vec<Labelled>),
    /// It is halved along the axis at the place. Of more than an eighth of so many zones no runs are tried again.
    Halve(Axis, i32, usize),
}
