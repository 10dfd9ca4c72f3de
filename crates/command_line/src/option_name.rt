use crate::range::{COLUMNS, EDGES, LAYERS, NumberRange, RADII, SIZES, WORKERS};

/// An option of the command, which takes one text as its value.
#[derive(Clone, Copy)]
pub enum OptionName {
    /// `map`: the name of the layer map's file.
    Map,
    /// `top`: the name of the structure that is analysed.
    Top,
    /// `tile`: the edge of the tiles.
    Tile,
    /// `workers`: how many workers there are.
    Workers,
    /// `layer`: the layer of the one metal.
    Layer,
    /// `datatype`: the datatype of the one metal.
    Datatype,
    /// `radius`: the radius of the defects.
    Radius,
    /// `generate`: how many columns a generated layout has.
    Generate,
    /// `pairs`: the number of the size at which areas are told by pairs of nets.
    Pairs,
    /// `probe`: the cell of which the nearest nets are told.
    Probe,
    /// `regions`: the kind of fault, the layer and the number of the size of which critical regions are told.
    Regions,
}

/// All options.
pub const OPTIONS: [OptionName; 11] = [
    OptionName::Map,
    OptionName::Top,
    OptionName::Tile,
    OptionName::Workers,
    OptionName::Layer,
    OptionName::Datatype,
    OptionName::Radius,
    OptionName::Generate,
    OptionName::Pairs,
    OptionName::Probe,
    OptionName::Regions,
];

/// The options of one metal.
pub const METAL_OPTIONS: [OptionName; 3] = [
    OptionName::Layer,
    OptionName::Datatype,
    OptionName::Radius,
];

/// The options that ask for something other than a report, of a layout and a map. One of them may be given.
pub const TASK_OPTIONS: [OptionName; 3] = [
    OptionName::Pairs,
    OptionName::Probe,
    OptionName::Regions,
];

/// The options that are about how the work of a report is shared out, and stand beside no option that asks for something else.
pub const WORK_OPTIONS: [OptionName; 2] = [OptionName::Tile, OptionName::Workers];

/// The options that are about files, and stand beside no generated layout.
pub const FILE_OPTIONS: [OptionName; 8] = [
    OptionName::Map,
    OptionName::Top,
    OptionName::Layer,
    OptionName::Datatype,
    OptionName::Radius,
    OptionName::Pairs,
    OptionName::Probe,
    OptionName::Regions,
];

impl OptionName {
    ghost use Rattle.std.specs.Prelude.{◌≡◌, ◌≢◌, IfSome, IfNone};
    ghost use Rattle.command_line.specs.OptionNames.{name_of, range_of};
    ghost use Rattle.command_line.specs.declared.option_name.OptionName.{OptionName};

    /// Its name, as it stands behind two dashes.
    pub fn text(self) -> &'static str
        ensures { result.now ≡ name_of self }
    {
        match self {
            OptionName::Map => "map",
            OptionName::Top => "top",
            OptionName::Tile => "tile",
            OptionName::Workers => "workers",
            OptionName::Layer => "layer",
            OptionName::Datatype => "datatype",
            OptionName::Radius => "radius",
            OptionName::Generate => "generate",
            OptionName::Pairs => "pairs",
            OptionName::Probe => "probe",
            OptionName::Regions => "regions",
        }
    }

    /// The numbers that it takes, where its value is a number. That of `map` and `top` is a name, that of `probe` a cell,
    /// and that of `regions` a kind, a layer and a size.
    pub fn range(self) -> Option<NumberRange>
        ensures { result ≡ range_of self }
    {
        match self {
            OptionName::Map | OptionName::Top | OptionName::Probe | OptionName::Regions => None,
            OptionName::Tile => Some(EDGES),
            OptionName::Workers => Some(WORKERS),
            OptionName::Layer | OptionName::Datatype => Some(LAYERS),
            OptionName::Radius => Some(RADII),
            OptionName::Generate => Some(COLUMNS),
            OptionName::Pairs => Some(SIZES),
        }
    }

    /// The option of this name.
    pub fn of(name: &str) -> Option<OptionName>
        ensures some { IfSome result (λ option. name.now ≡ name_of option) }
        ensures none { IfNone result ((option : OptionName) → name.now ≢ name_of option) }
    {
        let options: &[OptionName] = &OPTIONS;
        for option in options {
            if name == option.text() {
                return Some(*option);
            }
        }
        None
    }
}
