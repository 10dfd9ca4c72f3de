//! Command lines, and what all of them ask for.

use crate::texts::{joined, text_of};
use command_line::{Request, Task, Word, WordsFault, read_words};
use lists::Name;
use row_tables::{Case, Text};
use std::alloc::Global;

/// `[[words]]`: each of the `lines` asks for what `asks` says. Words have a space between them, or what the row has `between` them. An
/// `@` stands for the text of the `parts`.
pub fn lines(case: &mut Case<'_>) {
    let between = if case.has("between") {
        case.text("between")
    } else {
        " "
    };
    let name = if case.has("parts") {
        joined(case)
    } else {
        Text::new(case.alloc)
    };
    let wanted = filled(case.alloc, case.text("asks"), name.shown());
    for line in case.texts("lines").as_slice() {
        let text = filled(case.alloc, line, name.shown());
        let words = words_of(case, text.shown(), between);
        let mut came = Text::new(case.alloc);
        match read_words(case.alloc, words.as_slice()) {
            Ok(request) => print_request(&mut came, &request),
            Err(WordsFault::Usage) => came.say("nothing"),
            Err(WordsFault::Memory) => came.say("no memory"),
        }
        case.compare(line, wanted.shown(), came.shown());
    }
}

/// The text with the name in place of its first `@`.
fn filled(alloc: Global, part: &str, name: &str) -> Text {
    let mut text = Text::new(alloc);
    match part.split_once('@') {
        Some((front, back)) => {
            text.say(front);
            text.say(name);
            text.say(back);
        }
        None => text.say(part),
    }
    text
}

/// The words of a line. An empty line has none.
fn words_of(case: &mut Case<'_>, line: &str, between: &str) -> Vec<Word> {
    let mut words = Vec::new(case.alloc);
    if line.is_empty() {
        return words;
    }
    for word in line.split(between) {
        let word = String::from_str(case.alloc, word);
        let word = case.done(word, String::new(case.alloc));
        case.push(&mut words, Word::from_string(word));
    }
    words
}

/// Appends what is asked for: the task, the structure if one is wanted, the tile and the workers.
fn print_request(text: &mut Text, request: &Request) {
    print_task(text, &request.task);
    if let Task::OneMetal { top: Some(top), .. }
    | Task::Mapped { top: Some(top), .. }
    | Task::Pairs { top: Some(top), .. }
    | Task::Probe { top: Some(top), .. }
    | Task::Regions { top: Some(top), .. } = &request.task
    {
        text.say(", of structure ");
        text.say(text_of(top.as_slice()));
    }
    text.say(", tile ");
    text.print(request.edge);
    text.say(", workers ");
    text.print(request.workers);
}

/// Appends the task.
fn print_task(text: &mut Text, task: &Task) {
    match task {
        Task::OneMetal {
            layout,
            layer,
            datatype,
            radius,
            ..
        } => {
            text.say(text_of(layout.as_slice()));
            text.print(format_args!(": layer {layer}/{datatype}, radius {radius}"));
        }
        Task::Mapped { layout, map, .. } => print_names(text, layout, map),
        Task::Pairs {
            layout,
            map,
            size,
            ..
        } => {
            print_names(text, layout, map);
            text.say(", pairs at size ");
            text.print(*size);
        }
        Task::Probe {
            layout,
            map,
            cell,
            ..
        } => {
            print_names(text, layout, map);
            text.print(format_args!(", probe of {},{}", cell.i, cell.j));
        }
        Task::Regions {
            layout,
            map,
            kind,
            layer,
            size,
            ..
        } => {
            print_names(text, layout, map);
            let layer = text_of(layer.as_slice());
            text.print(format_args!(", regions of {kind} on {layer} at size {size}"));
        }
        Task::Generated { n } => {
            text.say("generated: columns ");
            text.print(*n);
        }
    }
}

/// Appends the names of a layout and of a map.
fn print_names(text: &mut Text, layout: &Name, map: &Name) {
    text.say(text_of(layout.as_slice()));
    text.say(": map ");
    text.say(text_of(map.as_slice()));
}
