ghost use Rattle.std.specs.Prelude.{◌≡◌, ◌≢◌, ◌∷◌, ◌↔◌, Option, codes, IsTrue, IfSome, IfNone, IfOk, IfErr, MatchOption, option_map};
ghost use Rattle.command_line.specs.inside.Arguments.{AreLast, BeginWith, option_word};
ghost use Rattle.command_line.specs.inside.WordsRefusals.{HasCause};
ghost use Rattle.command_line.specs.OptionNames.{Text};
ghost use Rattle.command_line.specs.Spelling.{IsPlain};
ghost use Rattle.command_line.specs.WordsCauses.{BeginWithNone};
ghost use Rattle.command_line.specs.declared.option_name.OptionName.{OptionName};

use crate::cause::{Refusal, WordsCause};
use crate::name::name_from;
use crate::option_name::OptionName;
use crate::word::Word;
use std::alloc::Global;

/// An argument, as it was read.
#[derive(Clone, Copy)]
pub enum ReadArgument<'a> {
    /// An option with its value.
    Setting(OptionName, &'a str),
    /// A positional word.
    Position(&'a str),
}

/// Whether the word is not taken for an option: where it begins with a dash, it is the dash alone.
pub fn is_plain(word: &str) -> bool
    ensures { IsTrue result ↔ IsPlain word.now }
{
    !word.starts_with('-') || word == "-"
}

/// The option in the word, with its value where one stands in the word too.
fn option_in(word: &str) -> Option<(OptionName, Option<&str>)>
    ensures some { IfSome result (λ found. word.now ≡ option_word found.0 (option_map (λ v. v.now) found.1)) }
    ensures none { IfNone result ((name : OptionName) (value : Option Text) → word.now ≢ option_word name value) }
{
    let body = word.strip_prefix("--")?;
    match body.split_once('=') {
        None => Some((OptionName::of(body)?, None)),
        Some((name, value)) => Some((OptionName::of(name)?, Some(value))),
    }
}

/// The option in the word that is the first of some, with the value in that word or in the one after it, and the words after the
/// value.
fn setting_of<'a>(
    alloc: Global,
    word: &'a str,
    rest: &'a [Word],
) -> Result<Option<(ReadArgument<'a>, &'a [Word])>, Refusal>
    requires not_plain { IsPlain word.now → ⊥ }
    requires not_last { word.now ≢ codes "--" }
    ensures argument { let words = word.now ∷ rest.now in IfOk result (λ first.
        MatchOption first (AreLast words) (λ found. BeginWith words found.0 found.1.now)) }
    ensures cause { IfErr result (HasCause (BeginWithNone (word.now ∷ rest.now))) }
{
    let Some((name, value)) = option_in(word) else {
        return Err(Refusal::Words(WordsCause::NoOption(name_from(alloc, word)?)));
    };
    if let Some(value) = value {
        return Ok(Some((ReadArgument::Setting(name, value), rest)));
    }
    let Some((value, rest)) = rest.split_first() else {
        return Err(Refusal::Words(WordsCause::NoValue(name)));
    };
    let value = value.as_str();
    if !is_plain(value) {
        let value = name_from(alloc, value)?;
        return Err(Refusal::Words(WordsCause::DashedValue(name, value)));
    }
    Ok(Some((ReadArgument::Setting(name, value), rest)))
}

/// The argument with which the words begin, and the words after it. There is none at the end of the arguments: where no words
/// are left, or the first is two dashes.
pub fn first_argument(
    alloc: Global,
    words: &[Word],
) -> Result<Option<(ReadArgument<'_>, &[Word])>, Refusal>
    ensures argument { IfOk result (λ first.
        MatchOption first (AreLast words.now) (λ found. BeginWith words.now found.0 found.1.now)) }
    ensures cause { IfErr result (HasCause (BeginWithNone words.now)) }
{
    let Some((word, rest)) = words.split_first() else {
        return Ok(None);
    };
    let word = word.as_str();
    if is_plain(word) {
        return Ok(Some((ReadArgument::Position(word), rest)));
    }
    if word == "--" {
        return Ok(None);
    }
    setting_of(alloc, word, rest)
}
