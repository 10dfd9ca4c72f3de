//! The paths of a document's places, in the one place where they are computed.

ghost use Rattle.std.specs.Prelude.{◌≡◌, ◌≤◌};
ghost use Rattle.layer_map.specs.DocumentPaths as path;
ghost use Rattle.map_model.specs.declared.limits.TheConstants.{MOST_TERMINALS};

/// The document.
pub const DOCUMENT: u32 = 1;

/// What stands at `version`.
pub const VERSION: u32 = 2;

/// What stands at `radii`, or at `sides`.
pub const SIZES: u32 = 3;

/// What stands at `weights`.
pub const WEIGHTS: u32 = 4;

/// What stands at `metal`.
pub const METALS: u32 = 5;

/// What stands at `cut`.
pub const CUTS: u32 = 6;

/// What stands at `terminal`.
pub const TERMINALS: u32 = 7;

/// What stands at `contacts`.
pub const CONTACTS: u32 = 8;

/// What stands at `name` of a metal or a cut is this much past the item.
pub const NAME: u32 = 1;

/// The same of `pairs`.
pub const PAIRS: u32 = 2;

/// The same of `lower` of a cut.
pub const LOWER: u32 = 3;

/// The same of `upper` of a cut.
pub const UPPER: u32 = 4;

/// What stands at `metal` of a terminal is this much past the item.
pub const METAL: u32 = 1;

/// The same of `x`.
pub const X: u32 = 2;

/// The same of `y`.
pub const Y: u32 = 3;

/// The item of `metal` with this number.
pub fn metal(number: usize) -> u32
    requires { number ≤ MOST_TERMINALS }
    ensures { result ≡ path.metal_path number }
{
    100 + 10 * number as u32
}

/// The item of `cut` with this number.
pub fn cut(number: usize) -> u32
    requires { number ≤ MOST_TERMINALS }
    ensures { result ≡ path.cut_path number }
{
    300 + 10 * number as u32
}

/// The item of `terminal` with this number.
pub fn terminal(number: usize) -> u32
    requires { number ≤ MOST_TERMINALS }
    ensures { result ≡ path.terminal_path number }
{
    1000 + 10 * number as u32
}
