//! Whether a list of words splits from the left into options with their values.

ghost use Rattle.std.specs.Prelude.{◌≡◌, ℕ, List};
ghost use Rattle.std.specs.List.{list_any};
ghost use Rattle.std.specs.Str.{bytes_eq};
ghost use Rattle.sd_words.specs.Reading.{Progress, settings_of, with_setting, with_name, with_option, with_text, with_value, with_word};
ghost use Rattle.sd_words.specs.Parts.{GivesPart, IsTested, Sees, StepsTo};

use crate::form::is_value;
use crate::names::{names_flag, names_value};
use crate::{UsageCause, WordsError};
use sd_base::Text;
use std::alloc::Global;

/// What a word is, after the words before it.
#[derive(Clone, Copy)]
pub(crate) enum Part<'a> {
    /// An option whose value is the next word.
    Name(&'a str),
    /// The end of an option, with its value if it has one.
    Whole(&'a str),
}

#[tactic(auto, unfolding(crate::specs::Reading::with_value))]
fn value_part<'a>(name: &'a str, value: &str) -> Result<Part<'a>, UsageCause>
    ensures { (p : Progress) → GivesPart p result (with_value p name.now value.now) }
{
    if is_value(value) {
        Ok(Part::Whole(name))
    } else {
        Err(UsageCause::Words)
    }
}

#[tactic(auto, unfolding(crate::specs::Reading::with_name))]
fn name_part(name: &str) -> Result<Part<'_>, UsageCause>
    ensures { (p : Progress) → GivesPart p result (with_name p name.now) }
{
    if names_flag(name) {
        return Ok(Part::Whole(name));
    }
    if names_value(name) {
        return Ok(Part::Name(name));
    }
    Err(UsageCause::Words)
}

#[tactic(auto, unfolding(crate::specs::Reading::with_text))]
fn text_part(text: &str) -> Result<Part<'_>, UsageCause>
    ensures { (p : Progress) → GivesPart p result (with_text p text.now) }
{
    match text.split_once('=') {
        None => name_part(text),
        Some((name, value)) => {
            if names_value(name) {
                value_part(name, value)
            } else {
                Err(UsageCause::Words)
            }
        }
    }
}

#[tactic(auto, unfolding(crate::specs::Reading::with_option))]
fn option_part(word: &str) -> Result<Part<'_>, UsageCause>
    ensures { (p : Progress) → GivesPart p result (with_option p word.now) }
{
    match word.strip_prefix("--") {
        None => Err(UsageCause::Words),
        Some(text) => text_part(text),
    }
}

fn is_taken(names: &[&str], name: &str) -> bool
    ensures { result ≡ list_any (λ n. bytes_eq n.now name.now) names.now }
{
    names.iter().any(|taken| *taken == name)
}

/// The options that the words so far name, and the one whose value is the next word.
#[derive(Drop)]
pub(crate) struct Reader<'a> {
    names: Vec<&'a str>,
    due: Option<&'a str>,
}

impl<'a> Reader<'a> {
    #[tactic(auto, unfolding(crate::specs::Reading::with_word))]
    fn part(&self, word: &'a str) -> Result<Part<'a>, UsageCause>
        ensures { (p : Progress) → Sees self.now p → GivesPart p result (with_word p word.now) }
    {
        match self.due {
            None => option_part(word),
            Some(name) => value_part(name, word),
        }
    }

    /// An option more, which none of the others is.
    #[tactic(auto, unfolding(crate::specs::Reading::with_setting))]
    fn add(&mut self, name: &'a str) -> Result<(), WordsError>
        ensures { (p : Progress) (v : List ℕ) → Sees self.old p → StepsTo self.new result (with_setting p name.now v) }
    {
        if is_taken(self.names.as_slice(), name) {
            return Err(WordsError::from(UsageCause::Words));
        }
        self.names.push(name)?;
        self.due = None;
        Ok(())
    }

    fn take(&mut self, word: &'a str) -> Result<(), WordsError>
        ensures { (p : Progress) → Sees self.old p → StepsTo self.new result (with_word p word.now) }
    {
        match self.part(word)? {
            Part::Name(name) => {
                self.due = Some(name);
                Ok(())
            }
            Part::Whole(name) => self.add(name),
        }
    }
}

/// Whether the words are well spelled. Then they name each of the thirteen options once at most, and are at most 25.
#[tactic(auto, unfolding(crate::specs::Reading::settings_of, crate::specs::Reading::finished))]
pub(crate) fn test_spelling(alloc: Global, words: &[Text]) -> Result<(), WordsError>
    ensures { IsTested result (settings_of words.now) }
{
    let mut reader = Reader {
        names: Vec::new(alloc),
        due: None,
    };
    for word in words {
        reader.take(word.as_str())?;
    }
    match reader.due {
        None => Ok(()),
        Some(_) => Err(WordsError::from(UsageCause::Words)),
    }
}
