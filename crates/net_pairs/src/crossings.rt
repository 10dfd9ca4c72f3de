ghost use Rattle.std.specs.Prelude.{AllPairs, OnOk};
ghost use Rattle.net_pairs.specs.inside.PairGains.{GainsCells, IsInBoth};
ghost use Rattle.net_pairs.specs.inside.RunsOfLabels.{IsApart};

use super::dense::add_dense;
use super::meetings::add_meetings;
use super::sums::PairSums;
use geo_core::{Labelled, Rect, overlaps};
use lists::NoMemory;
use std::alloc::Global;

/// So many runs are asked which others they meet.
const ASKED: usize = 64;

/// Where a run meets more runs than so many of each label that it meets, it meets labels again.
const RUNS_EACH: usize = 4;

/// Strips are where one of so many runs that are met is met again.
const SHARE: usize = 4;

/// What runs meet of other labels.
#[derive(Clone, Copy)]
struct Crossed {
    /// How many runs.
    runs: usize,
    /// How many of these are more than a few of each label.
    again: usize,
}

impl Crossed {
    /// The same with a run that meets so many runs of so many labels.
    fn with(self, runs: usize, labels: usize) -> Crossed {
        let few = labels.saturating_mul(RUNS_EACH);
        Crossed {
            runs: self.runs.saturating_add(runs),
            again: self.again.saturating_add(runs.saturating_sub(few)),
        }
    }

    /// Whether very many are met again.
    fn are_strips(self) -> bool {
        self.runs / SHARE < self.again
    }
}

/// How many runs of other labels the run meets, and of how many labels. The runs of each label stand together.
fn crossed_by(runs: &[Labelled], run: Labelled) -> (usize, usize) {
    let mut met: usize = 0;
    let mut labels: usize = 0;
    let mut last = run.label;
    for other in runs {
        if other.label != run.label && overlaps(other.rect, run.rect) {
            met = met.saturating_add(1);
            labels = labels.saturating_add(usize::from(other.label != last));
            last = other.label;
        }
    }
    (met, labels)
}

/// Whether runs meet many runs of one label again and again, as strips do that lie across strips, or the steps of a plate. Some of
/// the runs are asked.
fn are_strips(runs: &[Labelled]) -> bool {
    let step = runs.len() / ASKED + 1;
    let mut crossed = Crossed { runs: 0, again: 0 };
    for (place, run) in runs.iter().enumerate() {
        if place % step == 0 {
            let (met, labels) = crossed_by(runs, *run);
            crossed = crossed.with(met, labels);
        }
    }
    crossed.are_strips()
}

/// Adds for each two labels the cells of the window in runs of both: by changes within slabs, where strips lie across strips, and
/// else by each two runs that meet. Either way is right, so that the choice is one of time alone.
pub fn add_runs(
    alloc: Global,
    runs: &[Labelled],
    window: Rect,
    sums: &mut PairSums,
) -> Result<(), NoMemory>
    requires { AllPairs IsApart runs.now }
    ensures { OnOk result (GainsCells (IsInBoth runs.now) window sums.old.items.items sums.new.items.items) }
{
    if are_strips(runs) {
        return add_dense(alloc, runs, window, sums);
    }
    add_meetings(alloc, runs, window, sums)
}
