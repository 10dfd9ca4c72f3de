//! The maps that rows give.

use row_tables::Case;

/// The text of the table `[kind.NAME]` that the row names at the key of this kind. Without such a key it is empty.
pub fn shared_text<'a>(case: &mut Case<'a>, kind: &'a str) -> &'a str {
    if !case.has(kind) {
        return "";
    }
    case.share(kind);
    case.text("text")
}

/// The text with the row's change. A text that does not have the part that changes stays as it is.
fn changed(case: &mut Case<'_>, text: &str) -> Vec<u8> {
    let times = if case.has("times") {
        case.number("times")
    } else {
        1
    };
    let change = case.texts("changed");
    let (old, new) = match change.as_slice() {
        [old, new] if text.contains(*old) => (*old, *new),
        _ => {
            case.note("changed", "not two texts, the first a part of the map");
            ("", "")
        }
    };
    let new = new.repeat(case.alloc, times);
    let new = case.done(new, String::new(case.alloc));
    let text = text.replacen(case.alloc, old, new.as_str(), 1);
    case.done(text, String::new(case.alloc)).into_bytes()
}

/// The bytes of the row's map.
pub fn map_of(case: &mut Case<'_>) -> Vec<u8> {
    if case.has("map_bytes") {
        return case.bytes("map_bytes");
    }
    let text = if case.has("map_text") {
        case.text("map_text")
    } else {
        shared_text(case, "map")
    };
    if case.has("changed") {
        return changed(case, text);
    }
    let bytes = Vec::from_slice(case.alloc, text.as_bytes());
    case.list(bytes)
}
