ghost use Rattle.std.specs.Prelude.{◌≡◌};
ghost use Rattle.command_line.specs.declared.cause.Refusal.TheVariants.{Memory};

use crate::option_name::OptionName;
use geo_core::Axis;
use lists::Name;
use std::alloc::{AllocError, AllocFailed};

/// Why words ask for nothing. The kinds of causes stand in the order in which they are told; of the first four words have one
/// at most, and the last seven are one kind: a value that is not of its option's form.
pub enum WordsCause {
    /// There are no words.
    NoWords,
    /// The word begins with a dash, is neither the dash alone nor two dashes, and is the word of no option.
    NoOption(Name),
    /// The option is the last word, and has no value.
    NoValue(OptionName),
    /// The value of the option, in a word of its own, begins with a dash and is not the dash alone.
    DashedValue(OptionName, Name),
    /// A value of the option is empty.
    EmptyValue(OptionName),
    /// The name of a layout is empty.
    EmptyLayout,
    /// The option is given more than once.
    Twice(OptionName),
    /// More than one layout is named, and these are the first two.
    TwoLayouts(Name, Name),
    /// No layout is named, and none is to be generated.
    NoLayout,
    /// The layout of this name is named, and one is to be generated.
    LayoutBesideGenerate(Name),
    /// The option, which is about a file of a layout, is given where a layout is to be generated.
    BesideGenerate(OptionName),
    /// The option, which is about one metal, is given where a map is named.
    BesideMap(OptionName),
    /// No map is named, and the option asks for something of a layout and a map.
    NoMap(OptionName),
    /// The two options, in their order among all options, each ask for something other than a report.
    TwoTasks(OptionName, OptionName),
    /// The first option asks for something other than a report, and the second, which is about how the work of a report is shared
    /// out, is given beside it.
    BesideTask(OptionName, OptionName),
    /// No map is named, and none of the options of one metal is given.
    NoMetals,
    /// No map is named, and of the options of one metal this is left out while another is given.
    Missing(OptionName),
    /// The value of the option is no number that it takes.
    BadNumber(OptionName, Name),
    /// The value of `probe` is not two parts with one comma between them.
    NoCell(Name),
    /// This part of the value of `probe` is no coordinate: along `X` the column's, which stands first, and along `Y` the row's,
    /// where the column's is one.
    BadCoordinate(Axis, Name),
    /// The value of `regions` is not three parts with two commas between them.
    NoRegion(Name),
    /// The first part of the value of `regions` is the word for no kind of fault.
    BadKind(Name),
    /// The first part of the value of `regions` is a kind's word, and this second part is no name of a layer.
    BadLayerName(Name),
    /// The first two parts of the value of `regions` are a kind's word and a layer's name, and this third part is no number of a
    /// size.
    BadSizeNumber(Name),
}

// A derived `Drop` would be written out at each exit at which a cause is alive. This one is a call there.
impl Drop for WordsCause {
    fn drop(self) {
        match self {
            WordsCause::NoWords
            | WordsCause::NoValue(_)
            | WordsCause::EmptyValue(_)
            | WordsCause::EmptyLayout
            | WordsCause::Twice(_)
            | WordsCause::NoLayout
            | WordsCause::BesideGenerate(_)
            | WordsCause::BesideMap(_)
            | WordsCause::NoMap(_)
            | WordsCause::TwoTasks(_, _)
            | WordsCause::BesideTask(_, _)
            | WordsCause::NoMetals
            | WordsCause::Missing(_) => {}
            WordsCause::NoOption(_text)
            | WordsCause::DashedValue(_, _text)
            | WordsCause::LayoutBesideGenerate(_text)
            | WordsCause::BadNumber(_, _text)
            | WordsCause::NoCell(_text)
            | WordsCause::BadCoordinate(_, _text)
            | WordsCause::NoRegion(_text)
            | WordsCause::BadKind(_text)
            | WordsCause::BadLayerName(_text)
            | WordsCause::BadSizeNumber(_text) => {}
            WordsCause::TwoLayouts(_one, _other) => {}
        }
    }
}

/// Why words are answered with no request, as the reader of words knows it.
#[derive(Drop)]
pub enum Refusal {
    /// The words are those of no request, and this is why.
    Words(WordsCause),
    /// Out of memory.
    Memory,
}

impl From<AllocError> for Refusal {
    ghost from_gives = { λ _ refusal. refusal ≡ Memory };

    fn from(_error: AllocError) -> Refusal {
        Refusal::Memory
    }
}

impl<T: Drop> From<AllocFailed<T>> for Refusal {
    ghost from_gives = { λ _ refusal. refusal ≡ Memory };

    fn from(_error: AllocFailed<T>) -> Refusal {
        Refusal::Memory
    }
}
