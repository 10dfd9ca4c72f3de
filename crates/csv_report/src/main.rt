//! An example of a gauge in code: the program with one that prints the rows as CSV.
//!
//! It takes the words of critarea and prints its report, and behind it, in place of critarea's last two lines, the rows
//! as CSV. `csv` has the gauge that does this. For pairs of nets it has no gauge.
#![tactic(auto)]

ghost use Rattle.std.specs.Prelude.{◌∷◌, []};
ghost use Rattle.gauges.specs.GaugeViews.{fresh};
ghost use Rattle.critarea_core.specs.Run.{RunsWith, change};
ghost use Rattle.csv_report.specs.CsvText.{csv_text};

mod csv;

use critarea_core::{NO_MEMORY, Word, run_boxed};
use csv::Csv;
use edge_io::{Files, Sink};
use program::run_program;
use std::alloc::Global;
use std::process::ExitCode;
use std::thread::Threads;

/// Runs these words with a fresh gauge, and gives the status: 6 where its box finds no memory, and then nothing else was done.
fn run_gauged<F: Files, O: Sink, E: Sink>(
    rt: &(impl Threads + Sync),
    alloc: Global,
    words: &[Word],
    files: &mut F,
    out: &mut O,
    err: &mut E,
) -> u8
    ensures { RunsWith words.now (fresh csv_text ∷ []) []
        (record {
          holds = change (F.holds files.old) (F.holds files.new);
          sure = F.sure files.old;
          starts = change (F.starts files.old) (F.starts files.new);
          failures = change (F.faults files.old) (F.faults files.new);
        })
        (record {
          taken = change (O.written out.old) (O.written out.new);
          sure = O.sure out.old;
          failures = change (O.faults out.old) (O.faults out.new);
        })
        (record {
          taken = change (E.written err.old) (E.written err.new);
          sure = E.sure err.old;
          failures = change (E.faults err.old) (E.faults err.new);
        })
        result }
{
    let Ok(csv) = Box::new(alloc, Csv::new(alloc)) else {
        return NO_MEMORY;
    };
    run_boxed(rt, alloc, words, files, out, err, [csv], [])
}

fn main(rt: HostRuntime) -> ExitCode {
    run_program(&rt, rt.stdout(), rt.stderr(), |words, files, out, err| {
        run_gauged(&rt, rt.alloc(), words, files, out, err)
    })
}
