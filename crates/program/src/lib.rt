//! What a program does with the words, the files and the outputs of the system: it hands them to a run.
//!
//! That of `critarea` has the gauges `Peak` and `Nonzero`, and `Worst` for pairs of nets. All of it stands apart from
//! `main`, so that more than one stored run can show what a whole program does. No text for people is in it: the script
//! `critarea` builds and runs the program, passes its outputs and its status on, and adds the words.
#![tactic(auto)]

ghost use Rattle.std.specs.Prelude.{◌∷◌, []};
ghost use Rattle.gauges.specs.GaugeViews.{fresh};
ghost use Rattle.gauges.specs.NonzeroText.{nonzero_text};
ghost use Rattle.gauges.specs.PeakText.{peak_text};
ghost use Rattle.gauges.specs.WorstText.{worst_text};
ghost use Rattle.critarea_core.specs.Run.{RunsWith, change};

use critarea_core::{NO_MEMORY, Word, run_boxed, system_words};
use edge_io::{Files, OsFiles, OsSink, Sink};
use gauges::{Nonzero, Peak, Worst};
use std::alloc::Global;
use std::io::{Stderr, Stdout};
use std::process::ExitCode;
use std::rt;
use std::rt::Env;
use std::thread::Threads;

/// Runs these words with a fresh `Peak` and behind it a fresh `Nonzero`, and with a fresh `Worst` for pairs of nets, and gives
/// the status: 6 where a box finds no memory, and then nothing else was done.
pub fn run_gauged<F: Files, O: Sink, E: Sink>(
    rt: &(impl Threads + Sync),
    alloc: Global,
    words: &[Word],
    files: &mut F,
    out: &mut O,
    err: &mut E,
) -> u8
    ensures { RunsWith words.now (fresh peak_text ∷ fresh nonzero_text ∷ []) (fresh worst_text ∷ [])
        (record {
          holds = change (F.holds files.old) (F.holds files.new);
          sure = F.sure files.old;
          starts = change (F.starts files.old) (F.starts files.new);
          failures = change (F.faults files.old) (F.faults files.new);
        })
        (record {
          taken = change (O.written out.old) (O.written out.new);
          sure = O.sure out.old;
          failures = change (O.faults out.old) (O.faults out.new);
        })
        (record {
          taken = change (E.written err.old) (E.written err.new);
          sure = E.sure err.old;
          failures = change (E.faults err.old) (E.faults err.new);
        })
        result }
{
    let peak = Box::new(alloc, Peak::new(alloc));
    let nonzero = Box::new(alloc, Nonzero::new(alloc));
    let worst = Box::new(alloc, Worst::new(alloc));
    let (Ok(peak), Ok(nonzero), Ok(worst)) = (peak, nonzero, worst) else {
        return NO_MEMORY;
    };
    run_boxed(rt, alloc, words, files, out, err, [peak, nonzero], [worst])
}

/// Runs the words of the system over its files and these outputs by this run, and gives its status as the program's. No clause can
/// say what the system tells and takes: stored runs of three programs show reports and a refusal. The run is handed the words, the
/// files and the two outputs, which have types of their own, so that none can stand for the other.
pub fn run_program<R: Env + rt::Files + AllocGlobal, F>(
    rt: &R,
    out: Stdout,
    err: Stderr,
    run: F,
) -> ExitCode
where
    F: FnOnce(&[Word], &mut OsFiles<'_, R>, &mut OsSink<Stdout>, &mut OsSink<Stderr>) -> u8,
    requires { F.IsAlwaysCallable run }
{
    let words = match system_words(rt) {
        Ok(words) => words,
        Err(status) => return ExitCode::from(status),
    };
    let mut files = OsFiles::new(rt);
    let mut out = OsSink::new(out);
    let mut err = OsSink::new(err);
    ExitCode::from(run(words.as_slice(), &mut files, &mut out, &mut err))
}
