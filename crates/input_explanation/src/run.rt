//! The words, the map and the layout of a run, read once more: what is wrong with one of them, or the run that they make.

ghost use Rattle.std.specs.Prelude.{◌≤◌, IfSome, length};
ghost use Rattle.input_explanation.specs.declared.inputs.TheConstants.{LONGEST_LAYOUT};

use crate::inputs::{Input, read_input};
use crate::layouts::faults::{Layout, tell_layout};
use crate::layouts::listing::tell_listing;
use crate::layouts::shapes::Held;
use crate::maps::faults::tell_map_fault;
use crate::maps::good_map::GoodMap;
use crate::maps::named::has_what_is_named;
use crate::maps::parting::{parted_of, tell_parted};
use crate::path_kinds::Paths;
use crate::telling::Telling;
use crate::words::asked::asked_of;
use crate::words::inquiry::Inquiry;
use crate::words::misfit::tell_words;
use command_line::{Request, Task, Word, WordsFault, read_words};
use edge_io::Files;
use layer_map::read_map;
use layout_gen::{generate, layer_map};
use lists::Name;
use map_model::one_metal;

/// The files that a task names, and the top.
#[derive(Clone, Copy)]
struct Named<'a> {
    map: Option<&'a [u8]>,
    layout: Option<&'a [u8]>,
    top: Option<&'a [u8]>,
}

/// The bytes of a name, where there is one.
fn bytes_of(name: &Option<Name>) -> Option<&[u8]> {
    match name {
        Some(name) => Some(name.as_slice()),
        None => None,
    }
}

/// What the task names.
fn named_by(task: &Task) -> Named<'_> {
    match task {
        Task::OneMetal { layout, top, .. } => Named {
            map: None,
            layout: Some(layout.as_slice()),
            top: bytes_of(top),
        },
        Task::Mapped { map, layout, top }
        | Task::Pairs {
            map,
            layout,
            top,
            ..
        }
        | Task::Probe {
            map,
            layout,
            top,
            ..
        }
        | Task::Regions {
            map,
            layout,
            top,
            ..
        } => Named {
            map: Some(map.as_slice()),
            layout: Some(layout.as_slice()),
            top: bytes_of(top),
        },
        Task::Generated { .. } => Named {
            map: None,
            layout: None,
            top: None,
        },
    }
}

/// What the words ask for, if they fit a form. Otherwise it is told why not.
pub fn request_of(told: &mut Telling, words: &[Word]) -> Option<Request> {
    match read_words(told.alloc, words) {
        Ok(request) => return Some(request),
        Err(WordsFault::Usage) => tell_words(told, words),
        Err(WordsFault::Memory) => told.lose(),
    }
    None
}

/// Tells which terminals of a map that is refused are on one island of the layout, where it has too many and the layout is good.
/// What may be wrong with the layout is not told, since the map is refused.
fn tell_bad_map<F: Files, P: Paths>(
    told: &mut Telling,
    bytes: &[u8],
    named: Named<'_>,
    files: &mut F,
    paths: &P,
) {
    if let Some(name) = named.layout
        && let Some(parted) = parted_of(told, bytes)
    {
        let mut untold = Telling::new(told.alloc, told.is_behind_run);
        if let Some(layout) = read_input(&mut untold, files, paths, Input::Layout, name) {
            tell_parted(told, &parted, layout.as_slice(), named.top);
        }
        if untold.is_cut() {
            told.lose();
        }
    }
}

/// The map in the file of this name, if it is good. Otherwise it is told why not, and if it has too many terminals, which of
/// them are on one island of the layout.
fn map_in_file<'a, F: Files, P: Paths>(
    told: &mut Telling,
    name: &'a [u8],
    named: Named<'a>,
    files: &mut F,
    paths: &P,
) -> Option<GoodMap<'a>> {
    let bytes = read_input(told, files, paths, Input::Map, name)?;
    match read_map(told.alloc, bytes.as_slice()) {
        Ok(map) => Some(GoodMap { map, name, bytes }),
        Err(fault) => {
            tell_map_fault(told, name, bytes.as_slice(), fault);
            tell_bad_map(told, bytes.as_slice(), named, files, paths);
            None
        }
    }
}

/// The map that comes from no file: that of one metal, or that of a generated layout.
fn map_of_no_file<'a>(told: &mut Telling, request: &Request) -> Option<GoodMap<'a>> {
    let map = match &request.task {
        Task::OneMetal {
            layer,
            datatype,
            radius,
            ..
        } => one_metal(told.alloc, *layer, *datatype, *radius).ok(),
        _ => read_map(told.alloc, layer_map().as_bytes()).ok(),
    };
    match map {
        Some(map) => Some(GoodMap {
            map,
            name: b"",
            bytes: Vec::new(told.alloc),
        }),
        None => {
            told.lose();
            None
        }
    }
}

/// The bytes of the layout that is asked for: those of its file, or those of a generated one.
fn layout_for<F: Files, P: Paths>(
    told: &mut Telling,
    request: &Request,
    named: Named<'_>,
    files: &mut F,
    paths: &P,
) -> Option<Vec<u8>>
    ensures { IfSome result (λ bytes. length bytes.items ≤ LONGEST_LAYOUT) }
{
    match &request.task {
        Task::Generated { n } => match generate(told.alloc, *n) {
            Ok((bytes, _map)) => Some(bytes),
            Err(_) => {
                told.lose();
                None
            }
        },
        _ => read_input(told, files, paths, Input::Layout, named.layout?),
    }
}

/// What the layers of the layout that is asked for hold, by a good map, if the layout is good, after what is told of it. Otherwise
/// it is told why not.
pub fn layers_for<F: Files, P: Paths>(
    told: &mut Telling,
    request: &Request,
    good: &GoodMap<'_>,
    files: &mut F,
    paths: &P,
) -> Option<Vec<Held>> {
    let named = named_by(&request.task);
    let inquiry = Inquiry::of(&request.task);
    if !has_what_is_named(told, good, inquiry) {
        return None;
    }
    let bytes = layout_for(told, request, named, files, paths)?;
    let layout = Layout {
        name: named.layout,
        bytes: bytes.as_slice(),
        top: named.top,
        outcome: inquiry.outcome(),
    };
    tell_layout(told, good, &layout)
}

/// The map that is asked for, if it is good. Otherwise it is told why not.
pub fn map_for<'a, F: Files, P: Paths>(
    told: &mut Telling,
    request: &'a Request,
    files: &mut F,
    paths: &P,
) -> Option<GoodMap<'a>> {
    let named = named_by(&request.task);
    match named.map {
        Some(name) => map_in_file(told, name, named, files, paths),
        None => map_of_no_file(told, request),
    }
}

/// Tells the layers of the layout that words name, where they name nothing else but its top; whether they are such words, and so
/// no run.
pub fn tell_asked<F: Files, P: Paths>(
    told: &mut Telling,
    words: &[Word],
    files: &mut F,
    paths: &P,
) -> bool {
    let Some(asked) = asked_of(words) else {
        return false;
    };
    if let Some(bytes) = read_input(told, files, paths, Input::Layout, asked.layout) {
        let layout = Layout {
            name: Some(asked.layout),
            bytes: bytes.as_slice(),
            top: asked.top,
            outcome: "",
        };
        tell_listing(told, &layout, asked.as_map);
    }
    true
}
