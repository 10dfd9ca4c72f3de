ghost use Rattle.std.specs.Prelude.{◌≡◌, ℕ, List, option_copied};
ghost use Rattle.command_line.specs.Requests.{Ask};
ghost use Rattle.run_inputs.specs.Contents.{wanted_top};
ghost use Rattle.run_inputs.specs.Failures.{change};
ghost use Rattle.critarea_core.specs.inside.Finding.{IsFound};
ghost use Rattle.critarea_core.specs.Run.{RunsTo, StartsNamed, known_gauges};

use super::analysis::find_in_layout;
use super::found::Found;
use super::printing::print;
use command_line::{Request, Task, Word, read_words};
use critical_areas::{Gate, Sharing};
use edge_io::{Files, Sink};
use gauges::{Gauge, PairGauge};
use lists::Name;
use run_inputs::{Unreported, layout_for, map_for, query_of};
use std::alloc::Global;
use std::thread::Threads;

/// The name of the structure that is wanted as the top, where one is.
fn top_of(task: &Task) -> Option<&[u8]>
    ensures { option_copied result ≡ wanted_top task.now }
{
    match task {
        Task::OneMetal { top, .. }
        | Task::Mapped { top, .. }
        | Task::Pairs { top, .. }
        | Task::Probe { top, .. }
        | Task::Regions { top, .. } => top.as_ref().map(Name::as_slice),
        Task::Generated { .. } => None,
    }
}

/// What the request asks for, or why it is not found. The map is read first, and the layout only where the map is good and has what
/// is asked of it.
fn find_for_request<F: Files, G: Gate + Sync>(
    rt: &(impl Threads + Sync),
    alloc: Global,
    request: &Request,
    files: &mut F,
    gate: &G,
) -> Result<Found, Unreported>
    ensures found { (words : List (List ℕ)) → Ask words request.now →
        IsFound words (F.holds files.old) (F.sure files.old) (change (F.faults files.old) (F.faults files.new)) result }
    ensures started { (words : List (List ℕ)) → Ask words request.now →
        StartsNamed words (F.holds files.old) (change (F.starts files.old) (F.starts files.new)) }
    ensures holds { (name : List ℕ) → F.holds files.new name ≡ F.holds files.old name }
{
    let sharing = Sharing {
        edge: request.edge,
        workers: request.workers,
        gate,
    };
    let map = map_for(alloc, request, files)?;
    let query = query_of(request, &map)?;
    let bytes = layout_for(alloc, request, files)?;
    let top = top_of(&request.task);
    Ok(find_in_layout(rt, alloc, &map, query, top, bytes, sharing)?)
}

/// What the words ask for, or why it is not found.
fn find<F: Files, G: Gate + Sync>(
    rt: &(impl Threads + Sync),
    alloc: Global,
    words: &[Word],
    files: &mut F,
    gate: &G,
) -> Result<Found, Unreported>
    ensures found { IsFound words.now (F.holds files.old) (F.sure files.old) (change (F.faults files.old) (F.faults files.new)) result }
    ensures started { StartsNamed words.now (F.holds files.old) (change (F.starts files.old) (F.starts files.new)) }
    ensures holds { (name : List ℕ) → F.holds files.new name ≡ F.holds files.old name }
{
    let request = read_words(alloc, words)?;
    find_for_request(rt, alloc, &request, files, gate)
}

/// Does what the words ask for, and answers the exit status.
///
/// The words are the arguments of the program, in any order: a layout's file, and either the options `layer`, `datatype`
/// and `radius` or the option `map` with the file of a layer map, or else `generate` with a number of columns, which asks for a
/// layout that is made here and needs no file. The first two may have `top`, the name of the structure that is analysed with
/// all that it places, in place of the one that no reference names. All three may have `tile`, the edge of the tiles over which
/// areas are counted, and `workers`, how many share these at once; neither changes what is printed. With a map and the option
/// `pairs`, which is the number of one of the map's sizes, from 1 to 32 and counted from 1, the pairs of nets are asked for in place
/// of the report: `top` may stand beside it, and neither `tile` nor `workers`. With a map and the option `probe`, which is the column
/// and the row of a cell with a comma between them, the nets are asked for that are nearest to the cell on each metal, and the same
/// may stand beside it. No size of the map matters to it. With a map and the option `regions`, which is `short`, `open` or `via`, the
/// name of a metal of the map, or for `via` of a cut, and the number of one of its sizes, with commas between them, the critical cells
/// of that row are asked for, and the same may stand beside it.
///
/// `files` gives the map and the layout, `out` gets what is due, and `err` the line of a refusal. The gauges are told the rows
/// of a report, and the gauges of pairs those of pairs; those that are told print at the end, in their order, for all rows that they
/// have seen. A probe and a region tell neither kind anything, and neither prints. A run drops none of them, and a run that is
/// refused tells them nothing. No gate changes what is printed. That each tile passes the gate once is tested, and no clause says it.
///
/// | why it ended | status | printed to `out` | printed to `err` |
/// |---|---|---|---|
/// | what is due went out | 0 | the report or the pairs, with the texts of their gauges; the probe; or a GDSII library of the critical cells | |
/// | the words fit no form of the command | 2 | | `error 2 at 0` |
/// | the map is refused | 3 | | `error`, the number, `at`, the place |
/// | the layout is refused | 4 | | `error`, the number, `at`, the place |
/// | a file failed | 5 | | |
/// | an output failed | 5 | the first part of what is due, if it was `out` | the first part of the line, if it was `err` |
/// | out of memory | 6 | | |
///
/// Where no memory is left once there are rows, as where a gauge finds no memory, each gauge may have been told the first few
/// of them alone, perhaps none or all. Nothing goes out before all of it is complete, so a refused map or layout leaves `out`
/// as it was. Where what the files tell of the map is refused, the layout's file is not started. A map's refusal has number 39
/// at 1048576 where the map has more bytes than that, one of 40 to 47 at a path of its document, and at last 48 at the number
/// of its sizes where `pairs` or `regions` names one behind them, and then 49 at 0 where `regions` names a layer that the map has
/// not. A layout's refusal has number 9 at 268435456 where the layout has more
/// bytes than that, one of 10 to 23 at an offset where its bytes are no library,
/// one of 24 to 30 where its shapes are not placed, then one of 30 to 36 at the offset of the first placed shape, in the order
/// of the routes, that has no cover, and at last 50 at the number of the first terminal of the map, counted from 0, whose cell
/// the shapes of its metal do not cover.
pub fn run<F: Files, O: Sink, E: Sink, G: Gate + Sync>(
    rt: &(impl Threads + Sync),
    alloc: Global,
    words: &[Word],
    files: &mut F,
    out: &mut O,
    err: &mut E,
    gauges: &mut Vec<Box<dyn Gauge>>,
    pair_gauges: &mut Vec<Box<dyn PairGauge>>,
    gate: &G,
) -> u8
    ensures { RunsTo words.now (record {
      files = record {
        holds = change (F.holds files.old) (F.holds files.new);
        sure = F.sure files.old;
        starts = change (F.starts files.old) (F.starts files.new);
        failures = change (F.faults files.old) (F.faults files.new);
      };
      out = record {
        taken = change (O.written out.old) (O.written out.new);
        sure = O.sure out.old;
        failures = change (O.faults out.old) (O.faults out.new);
      };
      err = record {
        taken = change (E.written err.old) (E.written err.new);
        sure = E.sure err.old;
        failures = change (E.faults err.old) (E.faults err.new);
      };
      gauges = known_gauges seen text pairs_seen pairs_text
          (change gauges.old.items gauges.new.items) (change pair_gauges.old.items pair_gauges.new.items);
    }) result }
{
    let found = find(rt, alloc, words, files, gate);
    print(alloc, found, gauges, pair_gauges, out, err)
}
