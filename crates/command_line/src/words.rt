ghost use Rattle.std.specs.Prelude.{◌≡◌, ◌≢◌, ◌↔◌, [], ◌∷◌, ℕ, All, Contains, Err, IfErr, IfNone, IfOk, IfSome, MatchBool, MatchOption, Some, option_to_list};
ghost use Rattle.command_line.specs.inside.Arguments.{AreSingle, given_by};
ghost use Rattle.command_line.specs.inside.Command.{positions_found, values_found};
ghost use Rattle.command_line.specs.inside.Readings.{AreNumbers, AskOne, IsFirstGiven, texts_of};
ghost use Rattle.command_line.specs.inside.WordsRefusals.{HasCause, IsFirstCause, IsOfForm};
ghost use Rattle.command_line.specs.OptionNames.{range_of};
ghost use Rattle.command_line.specs.Requests.{AreRegionsOnce, Ask, GiveNoOther, IsCellOnce, IsNumberOnce, IsNumberOrDefault};
ghost use Rattle.command_line.specs.Requests.{IsRequestOf, IsTask, IsTextIfGiven, options_for, values_of};
ghost use Rattle.command_line.specs.WordsCauses.{IsCause, IsCauseOf, IsOfFirstKind, metal_options, task_options};
ghost use Rattle.command_line.specs.declared.request.Request.{Request};

use crate::arguments::Arguments;
use crate::cause::{Refusal, WordsCause};
use crate::cell::{coordinate, parts};
use crate::fault::WordsFault;
use crate::name::name_from;
use crate::number::number;
use crate::option_name::{FILE_OPTIONS, METAL_OPTIONS, OptionName, TASK_OPTIONS, WORK_OPTIONS};
use crate::parse::{LAYOUT, parse};
use crate::range::{COLUMNS, EDGES, LAYERS, NumberRange, RADII, SIZES, WORKERS};
use crate::region::{is_layer_name, kind_of, three_parts};
use crate::request::Request;
use crate::task::Task;
use crate::word::Word;
use clap::ArgMatches;
use clap::error::ErrorKind;
use geo_core::{Axis, Cell};
use lists::Name;
use questions::Kind;
use std::alloc::{AllocError, Global};

/// The edge of a tile where none is given, in database units.
const DEFAULT_EDGE: u32 = 65_536;

/// How many workers there are where no number is given.
const DEFAULT_WORKERS: u32 = 4;

/// The text of an option, if it is given.
fn text_of<'a>(matches: &ArgMatches<'a>, name: OptionName) -> Option<&'a str>
    ensures { texts_of result ≡ values_found matches.now name }
{
    matches.get_str(name.text())
}

/// The name of an option that may be left out.
fn name_if_given(alloc: Global, text: Option<&str>) -> Result<Option<Name>, AllocError>
    ensures { IfOk result (IsTextIfGiven (texts_of text.entry)) }
{
    match text {
        None => Ok(None),
        Some(text) => Ok(Some(name_from(alloc, text)?)),
    }
}

/// The number of an option that takes the numbers of this range, if it is given.
fn number_given(
    alloc: Global,
    matches: &ArgMatches<'_>,
    name: OptionName,
    range: NumberRange,
) -> Result<Option<u32>, Refusal>
    requires range { range_of name ≡ Some range }
    requires form { IsOfForm (values_found matches.now) (positions_found matches.now) }
    ensures number { IfOk result (λ given. MatchOption given (values_found matches.now name ≡ [])
        (IsNumberOnce range.least range.most (values_found matches.now name))) }
    ensures cause { IfErr result (HasCause (IsFirstCause (IsCauseOf (values_found matches.now) (positions_found matches.now)))) }
{
    let Some(text) = text_of(matches, name) else {
        return Ok(None);
    };
    let Some(number) = number(text, range) else {
        let text = name_from(alloc, text)?;
        return Err(Refusal::Words(WordsCause::BadNumber(name, text)));
    };
    Ok(Some(number))
}

/// The number of an option that may be left out.
fn number_or(
    alloc: Global,
    matches: &ArgMatches<'_>,
    name: OptionName,
    range: NumberRange,
    default: u32,
) -> Result<u32, Refusal>
    requires range { range_of name ≡ Some range }
    requires form { IsOfForm (values_found matches.now) (positions_found matches.now) }
    ensures number { IfOk result (IsNumberOrDefault range.least range.most default (values_found matches.now name)) }
    ensures cause { IfErr result (HasCause (IsFirstCause (IsCauseOf (values_found matches.now) (positions_found matches.now)))) }
{
    let given = number_given(alloc, matches, name, range)?;
    Ok(given.unwrap_or(default))
}

/// The number of an option that is given.
fn number_of_given(
    alloc: Global,
    matches: &ArgMatches<'_>,
    name: OptionName,
    range: NumberRange,
) -> Result<u32, Refusal>
    requires range { range_of name ≡ Some range }
    requires form { IsOfForm (values_found matches.now) (positions_found matches.now) }
    requires given { values_found matches.now name ≢ [] }
    ensures number { IfOk result (IsNumberOnce range.least range.most (values_found matches.now name)) }
    ensures cause { IfErr result (HasCause (IsFirstCause (IsCauseOf (values_found matches.now) (positions_found matches.now)))) }
{
    let Some(number) = number_given(alloc, matches, name, range)? else {
        unreachable!();
    };
    Ok(number)
}

/// A layer, a datatype and a radius.
fn metal_numbers(alloc: Global, matches: &ArgMatches<'_>) -> Result<(u16, u16, u32), Refusal>
    requires layout { positions_found matches.now ≢ [] }
    requires no_map { values_found matches.now OptionName.Map ≡ [] }
    requires no_columns { values_found matches.now OptionName.Generate ≡ [] }
    requires no_task { All (λ name. values_found matches.now name ≡ []) task_options }
    ensures numbers { IfOk result (AreNumbers (values_found matches.now)) }
    ensures cause { IfErr result (HasCause (IsFirstCause (IsCauseOf (values_found matches.now) (positions_found matches.now)))) }
{
    let Some(_given) = first_given(matches, &METAL_OPTIONS) else {
        return Err(Refusal::Words(WordsCause::NoMetals));
    };
    if let Some(missing) = first_missing(matches, &METAL_OPTIONS) {
        return Err(Refusal::Words(WordsCause::Missing(missing)));
    }
    let layer = number_of_given(alloc, matches, OptionName::Layer, LAYERS)?;
    let datatype = number_of_given(alloc, matches, OptionName::Datatype, LAYERS)?;
    let radius = number_of_given(alloc, matches, OptionName::Radius, RADII)?;
    Ok((layer as u16, datatype as u16, radius))
}

/// Whether the option is given.
fn is_given(matches: &ArgMatches<'_>, name: OptionName) -> bool
    ensures { MatchBool result (values_found matches.now name ≢ []) (values_found matches.now name ≡ []) }
{
    text_of(matches, name).is_some()
}

/// The first of these options that is given.
fn first_given(matches: &ArgMatches<'_>, names: &[OptionName]) -> Option<OptionName>
    ensures listed { IfSome result (Contains names.now) }
    ensures some { IfSome result (λ name. values_found matches.now name ≢ []) }
    ensures none { IfNone result (All (λ name. values_found matches.now name ≡ []) names.now) }
{
    for name in names {
        if is_given(matches, *name) {
            return Some(*name);
        }
    }
    None
}

/// The first of these options that is given, and those behind it.
fn first_and_behind<'a>(
    matches: &ArgMatches<'_>,
    names: &'a [OptionName],
) -> Option<(OptionName, &'a [OptionName])>
    ensures some { IfSome result (λ found. IsFirstGiven (values_found matches.now) names.now found.0 found.1.now) }
    ensures none { IfNone result (All (λ name. values_found matches.now name ≡ []) names.now) }
{
    for (k, name) in names.iter().enumerate() {
        if is_given(matches, *name) {
            return Some((*name, &names[k + 1..]));
        }
    }
    None
}

/// The first of these options that is left out.
fn first_missing(matches: &ArgMatches<'_>, names: &[OptionName]) -> Option<OptionName>
    ensures listed { IfSome result (Contains names.now) }
    ensures some { IfSome result (λ name. values_found matches.now name ≡ []) }
    ensures none { IfNone result (All (λ name. values_found matches.now name ≢ []) names.now) }
{
    for name in names {
        if !is_given(matches, *name) {
            return Some(*name);
        }
    }
    None
}

/// The task of these matches, in which no layout is named.
fn generated_task(alloc: Global, matches: &ArgMatches<'_>) -> Result<Task, Refusal>
    requires { positions_found matches.now ≡ [] }
    ensures task { IfOk result (IsTask (values_found matches.now) (positions_found matches.now)) }
    ensures no_other { IfOk result (λ task. GiveNoOther (values_found matches.now) (options_for task)) }
    ensures cause { IfErr result (HasCause (IsFirstCause (IsCauseOf (values_found matches.now) (positions_found matches.now)))) }
{
    if !is_given(matches, OptionName::Generate) {
        return Err(Refusal::Words(WordsCause::NoLayout));
    }
    if let Some(name) = first_given(matches, &FILE_OPTIONS) {
        return Err(Refusal::Words(WordsCause::BesideGenerate(name)));
    }
    let n = number_of_given(alloc, matches, OptionName::Generate, COLUMNS)?;
    Ok(Task::Generated { n })
}

/// The cell of the option of a probe.
fn cell_given(alloc: Global, matches: &ArgMatches<'_>) -> Result<Cell, Refusal>
    requires form { IsOfForm (values_found matches.now) (positions_found matches.now) }
    requires given { values_found matches.now OptionName.Probe ≢ [] }
    ensures cell { IfOk result (IsCellOnce (values_found matches.now OptionName.Probe)) }
    ensures cause { IfErr result (HasCause (IsFirstCause (IsCauseOf (values_found matches.now) (positions_found matches.now)))) }
{
    let Some(text) = text_of(matches, OptionName::Probe) else {
        unreachable!();
    };
    let Some((column, row)) = parts(text) else {
        let text = name_from(alloc, text)?;
        return Err(Refusal::Words(WordsCause::NoCell(text)));
    };
    let Some(i) = coordinate(column) else {
        let column = name_from(alloc, column)?;
        return Err(Refusal::Words(WordsCause::BadCoordinate(Axis::X, column)));
    };
    let Some(j) = coordinate(row) else {
        let row = name_from(alloc, row)?;
        return Err(Refusal::Words(WordsCause::BadCoordinate(Axis::Y, row)));
    };
    Ok(Cell { i, j })
}

/// The kind of fault, the name of the layer and the number of the size of the option of regions.
fn regions_given(alloc: Global, matches: &ArgMatches<'_>) -> Result<(Kind, Name, u32), Refusal>
    requires form { IsOfForm (values_found matches.now) (positions_found matches.now) }
    requires given { values_found matches.now OptionName.Regions ≢ [] }
    ensures regions { IfOk result (λ found. AreRegionsOnce (values_found matches.now OptionName.Regions) found.0 found.1 found.2) }
    ensures cause { IfErr result (HasCause (IsFirstCause (IsCauseOf (values_found matches.now) (positions_found matches.now)))) }
{
    let Some(text) = text_of(matches, OptionName::Regions) else {
        unreachable!();
    };
    let Some((word, layer, digits)) = three_parts(text) else {
        let text = name_from(alloc, text)?;
        return Err(Refusal::Words(WordsCause::NoRegion(text)));
    };
    let Some(kind) = kind_of(word) else {
        let word = name_from(alloc, word)?;
        return Err(Refusal::Words(WordsCause::BadKind(word)));
    };
    let name = name_from(alloc, layer)?;
    if !is_layer_name(layer) {
        return Err(Refusal::Words(WordsCause::BadLayerName(name)));
    }
    let Some(size) = number(digits, SIZES) else {
        let digits = name_from(alloc, digits)?;
        return Err(Refusal::Words(WordsCause::BadSizeNumber(digits)));
    };
    Ok((kind, name, size))
}

/// The names of a layout and a map, and that of the structure where one is wanted.
fn names_given(
    alloc: Global,
    matches: &ArgMatches<'_>,
    layout: &str,
    map: &str,
) -> Result<(Name, Name, Option<Name>), AllocError>
    requires layout { positions_found matches.now ≡ layout.now ∷ [] }
    requires map { values_found matches.now OptionName.Map ≡ map.now ∷ [] }
    ensures layout { IfOk result (λ names. positions_found matches.now ≡ names.0 ∷ []) }
    ensures map { IfOk result (λ names. values_found matches.now OptionName.Map ≡ names.1 ∷ []) }
    ensures top { IfOk result (λ names. IsTextIfGiven (values_found matches.now OptionName.Top) names.2) }
{
    let layout = name_from(alloc, layout)?;
    let map = name_from(alloc, map)?;
    let top = name_if_given(alloc, text_of(matches, OptionName::Top))?;
    Ok((layout, map, top))
}

/// The task of this option, which alone asks for something other than a report, on a layout and a map of these names.
fn asked_task(
    alloc: Global,
    matches: &ArgMatches<'_>,
    asked: OptionName,
    layout: &str,
    map: &str,
) -> Result<Task, Refusal>
    requires layout { positions_found matches.now ≡ layout.now ∷ [] }
    requires map { values_found matches.now OptionName.Map ≡ map.now ∷ [] }
    requires one { AskOne (values_found matches.now) asked }
    ensures task { IfOk result (IsTask (values_found matches.now) (positions_found matches.now)) }
    ensures no_other { IfOk result (λ task. GiveNoOther (values_found matches.now) (options_for task)) }
    ensures cause { IfErr result (HasCause (IsFirstCause (IsCauseOf (values_found matches.now) (positions_found matches.now)))) }
{
    let names = names_given(alloc, matches, layout, map)?;
    let (layout, map, top) = names;
    match asked {
        OptionName::Pairs => {
            let size = number_of_given(alloc, matches, OptionName::Pairs, SIZES)?;
            Ok(Task::Pairs {
                layout,
                map,
                top,
                size,
            })
        }
        OptionName::Probe => {
            let cell = cell_given(alloc, matches)?;
            Ok(Task::Probe {
                layout,
                map,
                top,
                cell,
            })
        }
        OptionName::Regions => {
            let regions = regions_given(alloc, matches)?;
            let (kind, layer, size) = regions;
            Ok(Task::Regions {
                layout,
                map,
                top,
                kind,
                layer,
                size,
            })
        }
        _ => unreachable!(),
    }
}

/// The task of these matches on a layout and a map of these names.
fn task_on_map(
    alloc: Global,
    matches: &ArgMatches<'_>,
    layout: &str,
    map: &str,
) -> Result<Task, Refusal>
    requires layout { positions_found matches.now ≡ layout.now ∷ [] }
    requires map { values_found matches.now OptionName.Map ≡ map.now ∷ [] }
    requires no_columns { values_found matches.now OptionName.Generate ≡ [] }
    ensures task { IfOk result (IsTask (values_found matches.now) (positions_found matches.now)) }
    ensures no_other { IfOk result (λ task. GiveNoOther (values_found matches.now) (options_for task)) }
    ensures cause { IfErr result (HasCause (IsFirstCause (IsCauseOf (values_found matches.now) (positions_found matches.now)))) }
{
    if let Some(name) = first_given(matches, &METAL_OPTIONS) {
        return Err(Refusal::Words(WordsCause::BesideMap(name)));
    }
    let Some((asked, behind)) = first_and_behind(matches, &TASK_OPTIONS) else {
        let (layout, map, top) = names_given(alloc, matches, layout, map)?;
        return Ok(Task::Mapped { layout, map, top });
    };
    if let Some(also) = first_given(matches, behind) {
        return Err(Refusal::Words(WordsCause::TwoTasks(asked, also)));
    }
    if let Some(name) = first_given(matches, &WORK_OPTIONS) {
        return Err(Refusal::Words(WordsCause::BesideTask(asked, name)));
    }
    asked_task(alloc, matches, asked, layout, map)
}

/// The task of these matches, in which the layout of this name is named, and no map.
fn metal_task(alloc: Global, matches: &ArgMatches<'_>, layout: &str) -> Result<Task, Refusal>
    requires layout { positions_found matches.now ≡ layout.now ∷ [] }
    requires no_map { values_found matches.now OptionName.Map ≡ [] }
    requires no_columns { values_found matches.now OptionName.Generate ≡ [] }
    ensures task { IfOk result (IsTask (values_found matches.now) (positions_found matches.now)) }
    ensures no_other { IfOk result (λ task. GiveNoOther (values_found matches.now) (options_for task)) }
    ensures cause { IfErr result (HasCause (IsFirstCause (IsCauseOf (values_found matches.now) (positions_found matches.now)))) }
{
    if let Some(name) = first_given(matches, &TASK_OPTIONS) {
        return Err(Refusal::Words(WordsCause::NoMap(name)));
    }
    let numbers = metal_numbers(alloc, matches)?;
    let layout = name_from(alloc, layout)?;
    let top = name_if_given(alloc, text_of(matches, OptionName::Top))?;
    let (layer, datatype, radius) = numbers;
    Ok(Task::OneMetal {
        layout,
        layer,
        datatype,
        radius,
        top,
    })
}

/// The task of these matches, in which the layout of this name is named.
fn task_on(alloc: Global, matches: &ArgMatches<'_>, layout: &str) -> Result<Task, Refusal>
    requires { positions_found matches.now ≡ layout.now ∷ [] }
    ensures task { IfOk result (IsTask (values_found matches.now) (positions_found matches.now)) }
    ensures no_other { IfOk result (λ task. GiveNoOther (values_found matches.now) (options_for task)) }
    ensures cause { IfErr result (HasCause (IsFirstCause (IsCauseOf (values_found matches.now) (positions_found matches.now)))) }
{
    if is_given(matches, OptionName::Generate) {
        let layout = name_from(alloc, layout)?;
        return Err(Refusal::Words(WordsCause::LayoutBesideGenerate(layout)));
    }
    match text_of(matches, OptionName::Map) {
        Some(map) => task_on_map(alloc, matches, layout, map),
        None => metal_task(alloc, matches, layout),
    }
}

/// The task of these matches.
fn task_of(alloc: Global, matches: &ArgMatches<'_>) -> Result<Task, Refusal>
    ensures task { IfOk result (IsTask (values_found matches.now) (positions_found matches.now)) }
    ensures no_other { IfOk result (λ task. GiveNoOther (values_found matches.now) (options_for task)) }
    ensures cause { IfErr result (HasCause (IsFirstCause (IsCauseOf (values_found matches.now) (positions_found matches.now)))) }
{
    match matches.get_str(LAYOUT) {
        Some(layout) => task_on(alloc, matches, layout),
        None => generated_task(alloc, matches),
    }
}

/// What these matches ask for.
fn request_of(alloc: Global, matches: &ArgMatches<'_>) -> Result<Request, Refusal>
    ensures request { IfOk result (IsRequestOf (values_found matches.now) (positions_found matches.now)) }
    ensures cause { IfErr result (HasCause (IsFirstCause (IsCauseOf (values_found matches.now) (positions_found matches.now)))) }
{
    let task = task_of(alloc, matches)?;
    let edge = number_or(alloc, matches, OptionName::Tile, EDGES, DEFAULT_EDGE)?;
    let workers = number_or(
        alloc,
        matches,
        OptionName::Workers,
        WORKERS,
        DEFAULT_WORKERS,
    )?;
    Ok(Request {
        task,
        edge,
        workers,
    })
}

/// What the arguments ask for.
fn request_given(alloc: Global, arguments: &Arguments<'_>) -> Result<Request, Refusal>
    requires { AreSingle (given_by arguments.now) }
    ensures request { let given = given_by arguments.now in
        IfOk result (IsRequestOf (values_of given.options) given.positions) }
    ensures cause { let given = given_by arguments.now in
        IfErr result (HasCause (IsFirstCause (IsCauseOf (values_of given.options) given.positions))) }
{
    let words = arguments.in_one_form(alloc)?;
    match parse(alloc, words.as_slice()) {
        Ok(matches) => request_of(alloc, &matches),
        Err(error) => match error.kind() {
            ErrorKind::OutOfMemory => Err(Refusal::Memory),
            _ => unreachable!(),
        },
    }
}

/// What the words of a command ask for, or why they ask for nothing.
fn read_request(alloc: Global, words: &[Word]) -> Result<Request, Refusal>
    ensures request { IfOk result (Ask words.now) }
    ensures cause { IfErr result (HasCause (IsFirstCause (IsCause words.now))) }
{
    if words.is_empty() {
        return Err(Refusal::Words(WordsCause::NoWords));
    }
    let arguments = Arguments::read(alloc, words)?;
    arguments.check(alloc)?;
    request_given(alloc, &arguments)
}

/// What the words of a command ask for. `Usage` comes exactly where they ask for nothing.
///
/// Options come in any order, as `--name value` or as `--name=value`, each once at most, and with them one name of a
/// layout's file, but for a generated layout. After a lone `--` each word is such a name. A value in a word of its own, and a
/// name before the `--`, may begin with a dash only where it is the dash alone. A number is 1 to 10 decimal digits.
///
/// | form | options that it must have | options that it may have |
/// |---|---|---|
/// | one metal | `layer`, `datatype`, `radius` | `top`, `tile`, `workers` |
/// | layer map | `map` | `top`, `tile`, `workers` |
/// | pairs of nets | `map`, `pairs` | `top` |
/// | nearest nets | `map`, `probe` | `top` |
/// | critical regions | `map`, `regions` | `top` |
/// | generated | `generate`, and no layout | `tile`, `workers` |
///
/// No value is empty. `top` is the name of a structure. `layer` and `datatype` are at most 65,535, and `radius` is from 1 to
/// 1,000,000. `tile` is from 1 to 1,000,000,000, or 65,536 where it is left out, and `workers` from 1 to 64, or 4. `generate` is
/// from 1 to 500. `pairs` is the number of one of the map's sizes, from 1 to 32. `probe` is the column and the row of a cell with
/// a comma between them, each perhaps with a dash in front of its digits, and from -1,000,000,000 to 999,999,999. `regions` is the
/// word `short`, `open` or `via`, the name of a layer, and the number of a size, from 1 to 32, with a comma between two of them; a
/// layer's name is 1 to 32 ASCII letters, digits and `_`. The request of `pairs`, of `probe` and of `regions` has the edge 65,536
/// and 4 workers.
pub fn read_words(alloc: Global, words: &[Word]) -> Result<Request, WordsFault>
    ensures request { IfOk result (Ask words.now) }
    ensures usage { result ≡ Err WordsFault.Usage → (request : Request) → Ask words.now request → ⊥ }
{
    match read_request(alloc, words) {
        Ok(request) => Ok(request),
        Err(Refusal::Words(_)) => Err(WordsFault::Usage),
        Err(Refusal::Memory) => Err(WordsFault::Memory),
    }
}

/// Why the words of a command ask for nothing, where they do. Of several causes one of the first kind is told, by their order in
/// [`WordsCause`]. The only error is that no memory is left.
pub fn cause_of(alloc: Global, words: &[Word]) -> Result<Option<WordsCause>, AllocError>
    ensures cause { IfOk result (λ cause. MatchOption cause ((request : Request) × Ask words.now request) (IsCause words.now)) }
    ensures first { IfOk result (λ cause. IfSome cause (IsOfFirstKind (IsCause words.now))) }
{
    match read_request(alloc, words) {
        Ok(_) => Ok(None),
        Err(Refusal::Words(cause)) => Ok(Some(cause)),
        Err(Refusal::Memory) => Err(AllocError),
    }
}
