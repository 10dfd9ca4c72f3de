//! Rows on single calls that read and write.
//!
//! They are on words, layer maps, layouts, shapes, files and reports. `check` checks a row. Each kind of row has one function, which
//! reads the row's keys, makes the call and compares the answer.
#![tactic(auto)]

/// Puts a gauge into a box and that behind others. A function that did so would hide from its caller which gauge is called.
macro_rules! push_boxed {
    ($case:ident, $gauges:ident, $gauge:expr) => {
        match Box::new($case.alloc, $gauge) {
            Ok(gauge) => $case.push(&mut $gauges, gauge),
            Err(_) => $case.no_memory(),
        }
    };
}

mod bodies;
mod covers;
mod faults;
mod files;
mod layouts;
mod maps;
mod pairs;
mod printing;
mod reports;
mod shapes;
mod texts;
mod words;

use row_tables::Case;
use std::thread::Threads;

/// Checks a row of a kind of this crate. The answer is whether its kind is one of them.
pub fn check(rt: &(impl Threads + Sync), case: &mut Case<'_>) -> bool {
    match case.kind {
        "body" => bodies::body(case),
        "changed_map" => maps::changes(case),
        "cover" | "covers" => covers::covers(rt, case),
        "file" => files::file(case),
        "gauged" => reports::gauged(case),
        "generated" => shapes::generated(case),
        "index" => layouts::index(case),
        "layer_name" => maps::names(case),
        "layer_of" => maps::layers(case),
        "library" => layouts::library(case),
        "long_map" | "map" => maps::map(case),
        "one_metal" => maps::one(case),
        "paired" => pairs::paired(case),
        "placed" => shapes::placed(case),
        "product" => reports::products(case),
        "records" => layouts::records(case),
        "region_library" => shapes::regions(case),
        "report" => reports::written(case),
        "rewritten" => layouts::rewritten(case),
        "sink" => files::sink(case),
        "tops" => shapes::tops(case),
        "words" => words::lines(case),
        "worst" => pairs::worst(case),
        _ => return faults::said(case),
    }
    true
}
