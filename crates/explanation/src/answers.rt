//! What is said of words: of the run that they are, or of one that ended.

use crate::covered::covered_layers;
use crate::nearest_nets::tell_nearest_nets;
use crate::regions::tell_regions;
use crate::worst_pairs::tell_worst_pairs;
use edge_io::Files;
use input_explanation::{
    Ended, Explanation, GoodMap, Held, Inquiry, Paths, Request, Telling, Word, ended_in,
    layers_for, map_for, request_of, tell_asked, tell_end, tell_found, tell_words,
};
use lists::NoMemory;
use map_model::Map;
use std::alloc::Global;

/// The status of a run whose words fit no form.
const UNFIT: u8 = 2;

/// The status of a run to which the system does not tell its words.
const WORDS_UNTOLD: u8 = 7;

/// Tells what the run finds of nets, if it is asked for it.
fn tell_nets(told: &mut Telling, inquiry: Inquiry<'_>, map: &Map, held: &[Held]) {
    if matches!(inquiry, Inquiry::Report) {
        return;
    }
    if let Some(layers) = covered_layers(told, map, held) {
        match inquiry {
            Inquiry::Report => {}
            Inquiry::Pairs(size) => tell_worst_pairs(told, map, &layers, size.saturating_sub(1)),
            Inquiry::Probe(cell) => tell_nearest_nets(told, map, &layers, cell),
            Inquiry::Regions(row) => tell_regions(told, map, &layers, row),
        }
    }
}

/// Tells of a run with a good map, by its layout.
fn tell_layout<F: Files, P: Paths>(
    told: &mut Telling,
    request: &Request,
    good: &GoodMap<'_>,
    files: &mut F,
    paths: &P,
) {
    if let Some(held) = layers_for(told, request, good, files, paths) {
        let inquiry = Inquiry::of(&request.task);
        tell_nets(told, inquiry, &good.map, held.as_slice());
    }
}

/// Tells of the run that is asked for, by its map and its layout.
fn tell_request<F: Files, P: Paths>(
    told: &mut Telling,
    request: &Request,
    files: &mut F,
    paths: &P,
) {
    if let Some(good) = map_for(told, request, files, paths) {
        tell_layout(told, request, &good, files, paths);
    }
}

/// Tells of the run of these words on these files, or of the layers of the layout that they name.
fn tell_run<F: Files, P: Paths>(told: &mut Telling, words: &[Word], files: &mut F, paths: &P) {
    if tell_asked(told, words, files, paths) {
        return;
    }
    if let Some(request) = request_of(told, words) {
        tell_request(told, &request, files, paths);
    }
}

/// Tells why the run ended so, by what is found when its words and its files are read again. Words that the program refused are
/// not taken as those of something that it does not do.
fn tell_ended<F: Files, P: Paths>(told: &mut Telling, ended: &Ended<'_>, files: &mut F, paths: &P) {
    if !ended.is_of_files() {
        tell_end(told, ended);
        return;
    }
    let mut again = Telling::new(told.alloc, true);
    if ended.status == UNFIT {
        tell_words(&mut again, ended.words);
    } else {
        tell_run(&mut again, ended.words, files, paths);
    }
    match again.explanation() {
        Ok(found) => tell_found(told, ended, &found),
        Err(NoMemory) => told.lose(),
    }
}

/// Answers words: what is to be said of the run of these words on these files, or, if the first three words are `--ended`, a
/// status and the line that the program wrote, why the run of the words after them ended so.
pub fn answer<F: Files, P: Paths>(
    alloc: Global,
    words: &[Word],
    files: &mut F,
    paths: &P,
) -> Result<Explanation, NoMemory> {
    let ended = ended_in(words);
    let mut told = Telling::new(alloc, ended.is_some());
    match ended {
        Some(ended) => tell_ended(&mut told, &ended, files, paths),
        None => tell_run(&mut told, words, files, paths),
    }
    told.explanation()
}

/// What is to be said of a run to which the system does not tell its words.
pub fn answer_untold(alloc: Global) -> Result<Explanation, NoMemory> {
    let mut told = Telling::new(alloc, true);
    told.status = WORDS_UNTOLD;
    let ended = Ended {
        status: WORDS_UNTOLD,
        line: "",
        words: &[],
    };
    tell_end(&mut told, &ended);
    told.explanation()
}
