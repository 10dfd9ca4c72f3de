ghost use Rattle.std.specs.Prelude.{◌≡◌, IfErr, IfOk, List, map, string_bytes};
ghost use Rattle.clap.specs.Values.{kind_of};
ghost use Rattle.clap.specs.Words.{app_of, with_rule};
ghost use Rattle.command_line.specs.inside.Arguments.{AreSingle, one_form};
ghost use Rattle.command_line.specs.inside.Command.{HasWhatIsGiven, rule_of_option, whole_command};
ghost use Rattle.command_line.specs.Spelling.{Given};

use crate::option_name::{OPTIONS, OptionName};
use clap::error::ErrorKind;
use clap::{Arg, ArgMatches, Command, Error};
use std::alloc::{AllocError, Global};

/// The name by which the positional word is asked for.
pub const LAYOUT: &str = "layout";

/// The command as `clap` sees it: options that take one text each, and a positional word.
fn command<'a>(alloc: Global) -> Result<Command<'a>, AllocError>
    ensures { IfOk result (λ command. app_of command ≡ whole_command) }
{
    let mut command = Command::new(alloc, "critarea").no_binary_name(true);
    let options: &[OptionName] = &OPTIONS;
    for name in options {
        let text: &'a str = name.text();
        command = command.arg(Arg::new(alloc, text).long(text))?;
    }
    command.arg(Arg::new(alloc, LAYOUT))
}

/// What `clap` reads in words of the one form, where its only error is that it is out of memory.
pub fn parse<'a>(alloc: Global, words: &'a [String]) -> Result<ArgMatches<'a>, Error>
    ensures matches { (given : Given) → AreSingle given → map string_bytes words.now ≡ one_form given →
        IfOk result (HasWhatIsGiven given) }
    ensures memory { (given : Given) → AreSingle given → map string_bytes words.now ≡ one_form given →
        IfErr result (λ error. kind_of error ≡ ErrorKind.OutOfMemory) }
{
    command(alloc)?.try_get_matches_from(words)
}
