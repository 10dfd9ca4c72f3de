//! What is told of the words of a row.
//!
//! What stands at names is a text with a line for each name: the name, a space, and `folder`, `pipe`, `device`, `forbidden`, `file`, or
//! `untold` if the system does not tell. At other names nothing stands.

use edge_io::MemFiles;
use explanation::{Explanation, PathKind, Paths, Word, answer};
use row_files::{has_layout, layout_of, map_of, push_file, shared_text};
use row_tables::Case;

/// What stands at the names in a text.
#[derive(Clone, Copy)]
struct Stands<'a> {
    text: &'a str,
}

impl Paths for Stands<'_> {
    fn kind(&self, name: &[u8]) -> PathKind {
        for line in self.text.lines() {
            let (known, kind) = line.split_once(' ').unwrap_or((line, ""));
            if known.as_bytes() == name {
                return kind_named(kind);
            }
        }
        PathKind::Missing
    }
}

/// What is called by this word.
fn kind_named(kind: &str) -> PathKind {
    match kind {
        "folder" => PathKind::Folder,
        "pipe" => PathKind::Pipe,
        "device" => PathKind::Device,
        "forbidden" => PathKind::Forbidden,
        "file" => PathKind::File,
        "untold" => PathKind::Untold,
        _ => PathKind::Missing,
    }
}

/// What is told of the words at the key.
fn told_of<'a>(case: &mut Case<'a>, key: &'a str, files: &mut MemFiles) -> Explanation {
    let stands = Stands {
        text: shared_text(case, "at"),
    };
    let mut words = Vec::new(case.alloc);
    for text in case.texts(key).as_slice() {
        let word = String::from_str(case.alloc, text);
        let word = case.done(word, String::new(case.alloc));
        case.push(&mut words, Word::from_string(word));
    }
    let told = answer(case.alloc, words.as_slice(), files, &stands);
    let nothing = Explanation {
        status: 0,
        text: String::new(case.alloc),
    };
    case.done(told, nothing)
}

/// Adds the row's map, if it has one.
fn add_map(case: &mut Case<'_>, files: &mut MemFiles) {
    if case.has("map_said") {
        let said = told_of(case, "map_said", files);
        push_file(case, &mut files.files, "m", said.text.into_bytes());
    } else if case.has("map") || case.has("map_text") || case.has("map_bytes") {
        let map = map_of(case);
        push_file(case, &mut files.files, "m", map);
    }
}

/// What is told of the row's words with its layout and its map.
pub fn told(case: &mut Case<'_>) -> Explanation {
    let mut files = MemFiles::new(Vec::new(case.alloc), Vec::new(case.alloc));
    if has_layout(case) {
        let layout = layout_of(case);
        push_file(case, &mut files.files, "a", layout);
    }
    add_map(case, &mut files);
    told_of(case, "words", &mut files)
}
