//! The values that words give to options, read by `clap`.
//!
//! Whether a list of words is well spelled is tested by this project's own code, since its rules are stricter than
//! `clap`'s; then `clap` reads the values, and can refuse such a list for want of memory alone.

ghost use Rattle.std.specs.Prelude.{◌≡◌, List, Ok, IfOk, IfErr, false, map};
ghost use Rattle.std.specs.Option.{option_map};
ghost use Rattle.clap.specs.Words.{app_of, kind_of, rule_of, with_rule};
ghost use Rattle.sd_words.specs.OptionWords.{option_word};
ghost use Rattle.sd_words.specs.Spelling.{Setting};
ghost use Rattle.sd_words.specs.Reading.{settings_of};
ghost use Rattle.sd_words.specs.Asked.{values_in};
ghost use Rattle.sd_words.specs.Given.{action_for, argument, argument_of, command_of_options, empty_command, flag_value, values_given};

use crate::OptionName;
use crate::names::OPTIONS;
use clap::error::ErrorKind;
use clap::{Arg, ArgAction, ArgMatches, Command, Error};
use sd_base::Text;
use std::alloc::{AllocError, Global};

#[tactic(auto, unfolding(crate::specs::Given::action_for))]
fn action(option: OptionName) -> ArgAction
    ensures { result ≡ action_for option }
{
    match option {
        OptionName::NoOverlap => ArgAction::SetTrue,
        _ => ArgAction::Set,
    }
}

/// The word of an option, at a lifetime that the command asks for.
fn word_of<'a>(option: OptionName) -> &'a str
    ensures { result.now ≡ option_word option }
{
    option.word()
}

/// An optional argument that is named as its option.
#[tactic(auto, unfolding(crate::specs::Given::argument))]
fn argument<'a>(alloc: Global, word: &'a str, action: ArgAction) -> Arg<'a>
    ensures rule { rule_of result ≡ argument word.entry.now action }
    ensures local { result.global ≡ false }
{
    Arg::new(alloc, word).long(word).action(action)
}

#[tactic(auto, unfolding(crate::specs::Given::empty_command))]
fn empty_command<'a>(alloc: Global) -> Command<'a>
    ensures { app_of result ≡ empty_command }
{
    Command::new(alloc, "sdf3analysis")
        .no_binary_name(true)
        .disable_help_flag(true)
        .disable_version_flag(true)
}

#[tactic(auto, unfolding(crate::specs::Given::argument_of))]
fn with_option<'a>(
    alloc: Global,
    command: Command<'a>,
    option: OptionName,
) -> Result<Command<'a>, AllocError>
    ensures { IfOk result (λ c. app_of c ≡ with_rule (app_of command.entry) (argument_of option)) }
{
    command.arg(argument(alloc, word_of(option), action(option)))
}

/// A command with an argument for each option, and with no help and no version.
#[tactic(auto, unfolding(crate::specs::Given::command_of_options))]
fn command_of_options<'a>(alloc: Global) -> Result<Command<'a>, AllocError>
    ensures { IfOk result (λ c. app_of c ≡ command_of_options) }
{
    let mut command = empty_command(alloc);
    for option in &OPTIONS {
        command = with_option(alloc, command, *option)?;
    }
    Ok(command)
}

/// The value of the option without a value, which is there where its argument is true: by default it is false.
#[tactic(auto, unfolding(crate::specs::Given::flag_value))]
fn flag_value(found: Option<&str>) -> Option<&'static str>
    ensures { option_map (λ v. v.now) result ≡ flag_value (option_map (λ v. v.now) found.entry) }
{
    match found {
        Some("true") => Some(""),
        _ => None,
    }
}

/// What words give to the options.
pub(crate) struct Given<'a> {
    matches: ArgMatches<'a>,
}

// By hand, so that what drops one calls this, and doesn't drop each part of what `clap` found.
impl Drop for Given<'_> {
    fn drop(self) {
        let Given { matches: _matches } = self;
    }
}

impl<'a> Given<'a> {
    /// Reads words that are well spelled.
    pub(crate) fn read(alloc: Global, words: &'a [&'a str]) -> Result<Given<'a>, Error>
        ensures given { (settings : List Setting) → settings_of (map (λ w. w.now) words.entry.now) ≡ Ok settings
            → IfOk result (λ g. values_given g ≡ values_in settings) }
        ensures refused { (settings : List Setting) → settings_of (map (λ w. w.now) words.entry.now) ≡ Ok settings
            → IfErr result (λ e. kind_of e ≡ ErrorKind.OutOfMemory) }
    {
        let command = command_of_options(alloc)?;
        let matches = command.try_get_matches_from(words)?;
        Ok(Given { matches })
    }

    /// The value of an option, where it is there; that of an option that has none is empty.
    #[tactic(auto, unfolding(crate::specs::Given::value_found))]
    pub(crate) fn value(&self, option: OptionName) -> Option<&'a str>
        ensures { option_map (λ v. v.now) result ≡ values_given self.now option }
    {
        let found = self.matches.get_str(option.word());
        match option {
            OptionName::NoOverlap => flag_value(found),
            _ => found,
        }
    }
}

/// The words as `clap` takes them.
pub(crate) fn texts_of<'a>(alloc: Global, words: &'a [Text]) -> Result<Vec<&'a str>, AllocError>
    ensures { IfOk result (λ texts. map (λ t. t.now) texts.items ≡ words.now) }
{
    let mut texts = Vec::new(alloc);
    for word in words {
        texts.push(word.as_str())?;
    }
    Ok(texts)
}
