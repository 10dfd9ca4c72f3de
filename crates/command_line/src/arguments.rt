ghost use Rattle.std.specs.Prelude.{◌≡◌, ◌++◌, ◌∷◌, [], IfOk, OnOk, map, string_bytes};
ghost use Rattle.command_line.specs.Spelling.{whole_word as option_in_one};

use crate::argument::{ReadArgument, first_argument};
use crate::cause::{Refusal, WordsCause};
use crate::name::name_from;
use crate::option_name::{OPTIONS, OptionName};
use crate::word::Word;
use std::alloc::{AllocError, Global};

/// What words give: options with their values, and positional words, each in the order of the words.
#[derive(Drop)]
pub struct Arguments<'a> {
    /// The options.
    pub options: Vec<(OptionName, &'a str)>,
    /// The positional words.
    pub positions: Vec<&'a str>,
}

impl<'a> Arguments<'a> {
    ghost use Rattle.std.specs.Prelude.{◌≤◌, ◌<◌, [], All, Contains, IfErr, IfNone, IfSome, MatchBool, count_by, length};
    ghost use Rattle.std.specs.Str.{bytes_eq};
    ghost use Rattle.command_line.specs.OptionNames.{name_of};
    ghost use Rattle.command_line.specs.inside.Arguments.{AreSingle, given_by, one_form, position_words, words_of_options};
    ghost use Rattle.command_line.specs.inside.Arguments.{options_read, positions_read};
    ghost use Rattle.command_line.specs.inside.WordsRefusals.{HasCause, IsFirstCause};
    ghost use Rattle.command_line.specs.Requests.{HasNoEmptyText, IsNotEmpty, values_of};
    ghost use Rattle.command_line.specs.Spelling.{AreSpelled};
    ghost use Rattle.command_line.specs.WordsCauses.{IsCauseIn, StopFor};
    ghost use Rattle.command_line.specs.declared.option_name.OptionName.{OptionName};

    /// The arguments with one more.
    fn push(&mut self, argument: ReadArgument<'a>) -> Result<(), AllocError>
        ensures { OnOk result (given_by self.new ≡ record {
          options = (given_by self.old).options ++ options_read argument.entry;
          positions = (given_by self.old).positions ++ positions_read argument.entry;
        }) }
    {
        match argument {
            ReadArgument::Setting(name, value) => self.options.push((name, value))?,
            ReadArgument::Position(word) => self.positions.push(word)?,
        }
        Ok(())
    }

    /// The arguments with these positional words more.
    fn push_positions(&mut self, words: &'a [Word]) -> Result<(), AllocError>
        ensures { OnOk result (given_by self.new ≡ record {
          options = (given_by self.old).options;
          positions = (given_by self.old).positions ++ words.entry.now;
        }) }
    {
        for word in words {
            self.positions.push(word.as_str())?;
        }
        Ok(())
    }

    /// The arguments that the words spell, or why they spell none.
    pub fn read(alloc: Global, words: &'a [Word]) -> Result<Arguments<'a>, Refusal>
        ensures read { IfOk result (λ arguments. AreSpelled words.now (given_by arguments)) }
        ensures cause { IfErr result (HasCause (StopFor words.now)) }
    {
        let mut arguments = Arguments {
            options: Vec::new(alloc),
            positions: Vec::new(alloc),
        };
        let mut rest = words;
        while let Some((argument, after)) = first_argument(alloc, rest)? {
            arguments.push(argument)?;
            rest = after;
        }
        // what is left begins with two dashes
        let Some((_, positions)) = rest.split_first() else {
            return Ok(arguments);
        };
        arguments.push_positions(positions)?;
        Ok(arguments)
    }

    /// The first option whose value is empty.
    fn empty_option(&self) -> Option<OptionName>
        ensures some { IfSome result (λ name. Contains (given_by self.now).options (name, [])) }
        ensures none { IfNone result (All (λ option. IsNotEmpty option.1) (given_by self.now).options) }
    {
        for &(name, value) in &self.options {
            if value.is_empty() {
                return Some(name);
            }
        }
        None
    }

    /// Whether a positional word is empty.
    fn has_empty_position(&self) -> bool
        ensures { MatchBool result (Contains (given_by self.now).positions []) (All IsNotEmpty (given_by self.now).positions) }
    {
        for word in &self.positions {
            if word.is_empty() {
                return true;
            }
        }
        false
    }

    /// How often the option is given.
    fn count(&self, name: OptionName) -> usize
        ensures { result ≡ count_by (λ option. bytes_eq (name_of option.0) (name_of name)) self.now.options.items }
    {
        let mut count = 0;
        for option in &self.options {
            if option.0.text() == name.text() {
                count += 1;
            }
        }
        count
    }

    /// The first of all options that is given more than once.
    fn repeated_option(&self) -> Option<OptionName>
        ensures some { IfSome result (λ name. 1 < length (values_of (given_by self.now).options name)) }
        ensures none { IfNone result ((name : OptionName) → length (values_of (given_by self.now).options name) ≤ 1) }
    {
        let options: &[OptionName] = &OPTIONS;
        for name in options {
            if self.count(*name) > 1 {
                return Some(*name);
            }
        }
        None
    }

    /// Sees whether no text is empty, and each option and the positional word are given once at most.
    pub fn check(&self, alloc: Global) -> Result<(), Refusal>
        ensures texts { OnOk result (HasNoEmptyText (given_by self.now)) }
        ensures single { OnOk result (AreSingle (given_by self.now)) }
        ensures cause { IfErr result (HasCause (IsFirstCause (IsCauseIn (given_by self.now)))) }
    {
        if let Some(name) = self.empty_option() {
            return Err(Refusal::Words(WordsCause::EmptyValue(name)));
        }
        if self.has_empty_position() {
            return Err(Refusal::Words(WordsCause::EmptyLayout));
        }
        if let Some(name) = self.repeated_option() {
            return Err(Refusal::Words(WordsCause::Twice(name)));
        }
        if let [one, other, ..] = self.positions.as_slice() {
            let one = name_from(alloc, one)?;
            let other = name_from(alloc, other)?;
            return Err(Refusal::Words(WordsCause::TwoLayouts(one, other)));
        }
        Ok(())
    }

    /// The words with the options more, each in one word.
    fn push_options(&self, alloc: Global, words: &mut Vec<String>) -> Result<(), AllocError>
        ensures { OnOk result (map string_bytes words.new.items ≡ map string_bytes words.old.items ++ words_of_options (given_by self.now).options) }
    {
        for &(name, value) in &self.options {
            words.push(whole_word(alloc, name, value)?)?;
        }
        Ok(())
    }

    /// The words with the positional words more, behind two dashes where there are any.
    fn push_behind_dashes(&self, alloc: Global, words: &mut Vec<String>) -> Result<(), AllocError>
        ensures { OnOk result (map string_bytes words.new.items ≡ map string_bytes words.old.items ++ position_words (given_by self.now).positions) }
    {
        if self.positions.is_empty() {
            return Ok(());
        }
        push_text(alloc, words, "--")?;
        for position in &self.positions {
            push_text(alloc, words, position)?;
        }
        Ok(())
    }

    /// The words in which the same is said for `clap`: each option in one word, and then the positional words.
    pub fn in_one_form(&self, alloc: Global) -> Result<Vec<String>, AllocError>
        ensures { IfOk result (λ words. map string_bytes words.items ≡ one_form (given_by self.now)) }
    {
        let mut words = Vec::new(alloc);
        self.push_options(alloc, &mut words)?;
        self.push_behind_dashes(alloc, &mut words)?;
        Ok(words)
    }
}

/// The option and its value in one word.
fn whole_word(alloc: Global, name: OptionName, value: &str) -> Result<String, AllocError>
    ensures { IfOk result (λ word. string_bytes word ≡ option_in_one name value.now) }
{
    let name = name.text();
    format!(in alloc; "--{name}={value}")
}

/// The words with this text more.
fn push_text(alloc: Global, words: &mut Vec<String>, text: &str) -> Result<(), AllocError>
    ensures { OnOk result (map string_bytes words.new.items ≡ map string_bytes words.old.items ++ text.now ∷ []) }
{
    words.push(String::from_str(alloc, text)?)?;
    Ok(())
}
