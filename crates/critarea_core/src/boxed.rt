ghost use Rattle.run_inputs.specs.Failures.{change};
ghost use Rattle.critarea_core.specs.Run.{RunsWith};
ghost use Rattle.gauges.specs.GaugeViews.{views_of};

use super::command::run;
use super::printing::NO_MEMORY;
use command_line::Word;
use critical_areas::NoGate;
use edge_io::{Files, Sink};
use gauges::{Gauge, PairGauge};
use std::alloc::Global;
use std::thread::Threads;

/// Runs these words as [`run`] does, with these gauges and a gate that holds nothing, and answers the status. The gauges are
/// dropped at the end. Where a list of them finds no memory the status is 6, and no file is started and nothing is printed.
pub fn run_boxed<F: Files, O: Sink, E: Sink, const N: usize, const M: usize>(
    rt: &(impl Threads + Sync),
    alloc: Global,
    words: &[Word],
    files: &mut F,
    out: &mut O,
    err: &mut E,
    gauges: [Box<dyn Gauge>; N],
    pair_gauges: [Box<dyn PairGauge>; M],
) -> u8
    ensures { RunsWith words.now (views_of seen text gauges.entry) (views_of pairs_seen pairs_text pair_gauges.entry)
        (record {
          holds = change (F.holds files.old) (F.holds files.new);
          sure = F.sure files.old;
          starts = change (F.starts files.old) (F.starts files.new);
          failures = change (F.faults files.old) (F.faults files.new);
        })
        (record {
          taken = change (O.written out.old) (O.written out.new);
          sure = O.sure out.old;
          failures = change (O.faults out.old) (O.faults out.new);
        })
        (record {
          taken = change (E.written err.old) (E.written err.new);
          sure = E.sure err.old;
          failures = change (E.faults err.old) (E.faults err.new);
        })
        result }
{
    let gauges = Vec::from_array(alloc, gauges);
    let pair_gauges = Vec::from_array(alloc, pair_gauges);
    let (Ok(mut gauges), Ok(mut pair_gauges)) = (gauges, pair_gauges) else {
        return NO_MEMORY;
    };
    run(
        rt,
        alloc,
        words,
        files,
        out,
        err,
        &mut gauges,
        &mut pair_gauges,
        &NoGate,
    )
}
