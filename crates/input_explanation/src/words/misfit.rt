//! What is wrong with words that fit no form of the command, in words for people.

use crate::telling::Telling;
use crate::words::asked::MAP_SKELETON;
use command_line::{OptionName, Word, WordsCause, cause_of};
use geo_core::Axis;
use lists::Name;

/// What an option takes that takes a cell.
const CELL: &str =
    "the column and the row of a cell with a comma between them, as 12,-5, each of at most 10 digits and from -1000000000 to 999999999";

/// What an option takes that takes a row of the report.
const REGION: &str =
    "a kind of fault, a layer and a size, as short,m1,2: short or open with the name of a metal, or via with that of a cut, and the size's number in the map, from 1 to 32";

/// What is said of no words.
const NO_WORDS: &str =
    "there are none; ./critarea --help tells which there are, and ./critarea --explain LAYOUT which layers a layout has";

/// What is said of a layout alone.
const NO_METALS: &str =
    "it is not said which layers are metals; --explain in front of the layout alone lists those that it has";

/// What is said of an option of files beside a generated layout.
const BESIDE_GENERATED: &str =
    " stands beside --generate, which makes its layout and its map itself";

/// What is said of an option of one metal beside a map.
const BESIDE_MAP: &str =
    " stands beside --map, which says itself which layers there are, and which radii";

/// What is said of an option that asks for something of a layout and a map, where no map is named.
const NO_MAP: &str = " is for a layout with a map; name the map behind --map";

/// What is said of an option of one metal that is not there, while another is.
const LACKS: &str = " is missing; --layer, --datatype and --radius go together";

/// What is said of a value that is no number that the option takes, and of a coordinate that is none.
const UNFIT: &str = " does not fit";

/// What is said of the value of a cell that has no two parts.
const NO_CELL: &str = " is not two numbers with one comma between them";

/// What is said of the value of `regions` that has no three parts.
const NO_REGION: &str = " is not three parts with two commas between them";

/// What is said of its first part where that is the word for no kind.
const NO_KIND: &str = " is none of short, open and via";

/// What is said of its second part where that is no name of a layer.
const NO_LAYER_NAME: &str = " is not 1 to 32 ASCII letters, digits and `_`";

/// What is said of its third part where that is no number of a size.
const NO_SIZE_NUMBER: &str = " is no number from 1 to 32 in at most 10 digits";

/// The forms of the command.
const FORMS: &str =
    "\n  critarea LAYOUT --map MAP\n  critarea LAYOUT --map MAP --pairs K\n  critarea LAYOUT --map MAP --probe X,Y\n  critarea LAYOUT --map MAP --regions KIND,LAYER,K\n  critarea LAYOUT --layer L --datatype D --radius R\n  critarea --generate N\n";

/// What is said of a word that begins with a dash and is no option, in front of it and behind it.
fn no_option_words(word: &[u8]) -> (&'static str, &'static str) {
    if !word.starts_with(b"--") {
        return (
            "",
            " begins with one dash; options begin with two, and in front of a file's name with a dash stands `--`",
        );
    }
    let behind = if word.starts_with(b"--help")
        || word.starts_with(b"--version")
        || word.starts_with(b"--explain")
    {
        "; --help and --version are answered alone, and --explain in front of all other words"
    } else if word == MAP_SKELETON.as_bytes() {
        " of a run; it is for --explain, and stands there beside a layout and --top alone"
    } else {
        "; options are --map, --top, --layer, --datatype, --radius, --tile, --workers, --generate, --pairs, --probe and --regions"
    };
    ("there is no option ", behind)
}

/// Tells this of an option.
fn tell_option(told: &mut Telling, option: OptionName, what: &str) {
    told.word("--", option.text(), what);
}

/// Tells this of an option, and what it takes.
fn tell_wanted(told: &mut Telling, option: OptionName, what: &str) {
    tell_option(told, option, what);
    told.word("; --", option.text(), " takes ");
    match (option.range(), option) {
        (Some(range), _) => {
            let ends = [u64::from(range.least), u64::from(range.most)];
            told.numbers("a whole number from {} to {}", &ends);
        }
        (None, OptionName::Top) => told.say("the name of a structure"),
        (None, OptionName::Probe) => told.say(CELL),
        (None, OptionName::Regions) => told.say(REGION),
        (None, _) => told.say("the name of a file"),
    }
}

/// Tells this of the value of an option or of a part of it, behind what the part is to be, and what the option takes.
fn tell_value(told: &mut Telling, part: &str, option: OptionName, value: &Name, what: &str) {
    told.name(part, value.as_slice(), " behind ");
    tell_wanted(told, option, what);
}

/// What is said of a value of the option, in a word of its own, that begins with a dash.
fn dashed_words(option: OptionName) -> &'static str {
    match (option.range(), option) {
        (Some(_), _) | (None, OptionName::Regions) => " begins with a dash",
        (None, OptionName::Probe) =>
            " begins with a dash; write such a value in one word, as --probe=-1,0",
        (None, _) => " begins with a dash; write such a value in one word, as --map=-name",
    }
}

/// Tells of a value that does not fit, where the cause is one.
fn tell_bad_value(told: &mut Telling, cause: &WordsCause) {
    let (cell, region) = (OptionName::Probe, OptionName::Regions);
    match cause {
        WordsCause::DashedValue(option, value) => {
            tell_value(told, "", *option, value, dashed_words(*option));
        }
        WordsCause::BadNumber(option, value) => tell_value(told, "", *option, value, UNFIT),
        WordsCause::NoCell(value) => tell_value(told, "", cell, value, NO_CELL),
        WordsCause::BadCoordinate(axis, part) => {
            let axis = match axis {
                Axis::X => "the column ",
                Axis::Y => "the row ",
            };
            tell_value(told, axis, cell, part, UNFIT);
        }
        WordsCause::NoRegion(value) => tell_value(told, "", region, value, NO_REGION),
        WordsCause::BadKind(part) => tell_value(told, "the kind ", region, part, NO_KIND),
        WordsCause::BadLayerName(part) => {
            tell_value(told, "the layer ", region, part, NO_LAYER_NAME);
        }
        WordsCause::BadSizeNumber(part) => {
            tell_value(told, "the size ", region, part, NO_SIZE_NUMBER);
        }
        _ => {}
    }
}

/// Tells why words fit no form of the command.
fn tell_cause(told: &mut Telling, cause: &WordsCause) {
    match cause {
        WordsCause::NoWords => told.say(NO_WORDS),
        WordsCause::NoOption(word) => {
            let (before, after) = no_option_words(word.as_slice());
            told.name(before, word.as_slice(), after);
        }
        WordsCause::NoValue(option) => {
            tell_wanted(told, *option, " is the last word, and has no value");
        }
        WordsCause::EmptyValue(option) => tell_wanted(told, *option, " has an empty value"),
        WordsCause::EmptyLayout => told.say("the layout's name is empty"),
        WordsCause::Twice(option) => tell_wanted(told, *option, " stands twice"),
        WordsCause::TwoLayouts(one, other) => {
            told.name("two layouts are named, ", one.as_slice(), " and ");
            told.name("", other.as_slice(), "; name one, and a map behind --map");
        }
        WordsCause::NoLayout => told.say("no layout is named"),
        WordsCause::LayoutBesideGenerate(layout) => {
            let what = " is named beside --generate, which makes one";
            told.name("the layout ", layout.as_slice(), what);
        }
        WordsCause::BesideGenerate(option) => {
            tell_option(told, *option, BESIDE_GENERATED);
        }
        WordsCause::BesideMap(option) => tell_option(told, *option, BESIDE_MAP),
        WordsCause::NoMap(option) => tell_option(told, *option, NO_MAP),
        WordsCause::TwoTasks(one, other) => {
            tell_option(told, *one, " stands beside ");
            tell_option(told, *other, "; a run answers one of them");
        }
        WordsCause::BesideTask(asked, option) => {
            tell_option(told, *option, " stands beside ");
            tell_option(told, *asked, ", which takes neither --tile nor --workers");
        }
        WordsCause::Missing(option) => tell_option(told, *option, LACKS),
        WordsCause::NoMetals => told.say(NO_METALS),
        _ => tell_bad_value(told, cause),
    }
}

/// Tells why the words fit no form.
pub fn tell_words(told: &mut Telling, words: &[Word]) {
    told.refuse(2, 2, 0);
    told.say("arguments: ");
    match cause_of(told.alloc, words) {
        Ok(Some(cause)) => tell_cause(told, &cause),
        Ok(None) => told.say("they fit no form of the command"),
        Err(_) => told.lose(),
    }
    told.say(FORMS);
}
