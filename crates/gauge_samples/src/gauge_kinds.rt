/// A kind of gauge: those of the program, and those that no caller should trust.
#[derive(Clone, Copy)]
pub enum GaugeKind {
    /// It counts the rows that are not 0.
    Nonzero,
    /// It tells the greatest product.
    Peak,
    /// It has room for so many rows.
    Tight(usize),
    /// It prints nothing.
    Silent,
    /// It refuses to print.
    Mute,
}

impl GaugeKind {
    /// The kind with this name: `nonzero`, `peak`, `silent`, `mute`, or `tight 3` with room for three rows.
    pub fn named(name: &str) -> Option<GaugeKind> {
        match name {
            "nonzero" => Some(GaugeKind::Nonzero),
            "peak" => Some(GaugeKind::Peak),
            "silent" => Some(GaugeKind::Silent),
            "mute" => Some(GaugeKind::Mute),
            _ => Some(GaugeKind::Tight(room_of(name)?)),
        }
    }
}

/// A kind of gauge of pairs: that of the program, and those that no caller should trust.
#[derive(Clone, Copy)]
pub enum PairGaugeKind {
    /// It tells the greatest area.
    Worst,
    /// It has room for so many rows.
    Tight(usize),
    /// It prints each area.
    Areas,
    /// It refuses to print.
    Mute,
}

impl PairGaugeKind {
    /// The kind with this name: `worst`, `areas`, `mute`, or `tight 3` with room for three rows.
    pub fn named(name: &str) -> Option<PairGaugeKind> {
        match name {
            "worst" => Some(PairGaugeKind::Worst),
            "areas" => Some(PairGaugeKind::Areas),
            "mute" => Some(PairGaugeKind::Mute),
            _ => Some(PairGaugeKind::Tight(room_of(name)?)),
        }
    }
}

/// The room of a gauge that is called by it, as `tight 3`.
fn room_of(name: &str) -> Option<usize> {
    name.strip_prefix("tight ")?.parse().ok()
}
