//! Checks the tables of text in `data/`: whole runs, single calls and explanations, each with the answer that must come.
//!
//! `wrong.toml` in each folder has rows whose answers are wrong, which must be reported: the lines on them in `stdout` show that each
//! thing that is compared is seen.
#![tactic(auto)]

use row_tables::{Case, Text};
use std::thread::Threads;
use std::{env, fs, io};
use toml::{Table, Value};

/// Checks a row of any kind.
fn check(rt: &(impl Threads + Sync), case: &mut Case<'_>) {
    if run_rows::check(rt, case) || input_calls::check(rt, case) || explain_rows::check(case) {
        return;
    }
    area_calls::check(case);
}

/// Checks the rows of a kind. The report says how many agree, and what is wrong in the others, after a line with the row's number and
/// name.
fn check_rows(
    rt: &(impl Threads + Sync + AllocGlobal),
    report: &mut Text,
    document: &Table,
    kind: &str,
    rows: &[Value],
) {
    let mut wrong = Text::new(rt.alloc());
    let mut agreeing: usize = 0;
    for (place, row) in rows.iter().enumerate() {
        let mut case = Case::new(rt.alloc(), kind, document, row);
        check(rt, &mut case);
        case.end();
        if case.wrong().is_empty() {
            agreeing = agreeing.saturating_add(1);
        } else {
            wrong.print(place.saturating_add(1));
            wrong.say(" ");
            wrong.say(case.name());
            wrong.say("\n");
            wrong.say(case.wrong());
        }
    }
    report.say(kind);
    report.say(": ");
    report.print(agreeing);
    report.say(" of ");
    report.print(rows.len());
    report.say(" rows agree\n");
    report.say(wrong.shown());
}

/// Checks the rows of each kind in the document, which is the file of this name.
fn check_document(
    rt: &(impl Threads + Sync + AllocGlobal),
    report: &mut Text,
    name: &str,
    document: &Table,
) {
    for (kind, value) in document.iter() {
        if let Value::Array(rows) = value {
            report.say(name);
            report.say(" ");
            check_rows(rt, report, document, kind.as_str(), rows.as_slice());
        }
    }
}

/// Checks the tables that the program's arguments name, and prints the report of each.
fn main(rt: HostRuntime) -> io::Result<()> {
    for name in env::args(&rt)?.skip(1) {
        let bytes = fs::read(&rt, name.as_str())?;
        let mut report = Text::new(rt.alloc());
        match toml::table_from_slice(rt.alloc(), bytes.as_slice()) {
            Ok(document) => check_document(&rt, &mut report, name.as_str(), &document),
            Err(error) => report.print(format_args!("{name}: {error}\n")),
        }
        print!(&rt; "{}", report.shown())?;
    }
    Ok(())
}
