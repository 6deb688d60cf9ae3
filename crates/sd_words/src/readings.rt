//! What is made of the values, until the request takes it.

ghost use Rattle.std.specs.Prelude.{◌≡◌, ◌≢◌, IfOk, is_some};
ghost use Rattle.std.specs.Option.{option_copied};
ghost use Rattle.sd_words.specs.declared.names.OptionName.{OptionName};
ghost use Rattle.sd_words.specs.Asked.{buffers_in, name_in, number_or, orders_in, text_in};
ghost use Rattle.sd_words.specs.Readings.{place_of, seen, seen_in};

use crate::OptionName;
use crate::form::Value;
use crate::names::OPTIONS;
use sd_base::{Rows, Text};
use std::alloc::{AllocError, Global};
use std::mem;

/// What is made of the values, at the places of their options. Each option has a place and something there, `None`
/// for one that isn't given.
#[derive(Drop)]
pub(crate) struct Readings {
    values: Vec<Option<Value>>,
}

// The place of an option among the options.
#[tactic(auto, unfolding(crate::specs::Readings::place_of))]
fn place_of(option: OptionName) -> Option<usize>
    ensures { result ≡ place_of option }
{
    let word = option.word();
    OPTIONS.iter().position(|other| other.word() == word)
}

impl Readings {
    pub(crate) fn new(values: Vec<Option<Value>>) -> Readings
        ensures { seen result ≡ seen_in values.items }
    {
        Readings { values }
    }

    // What is made of the value of an option.
    #[tactic(auto, unfolding(crate::specs::Readings::seen_in))]
    fn value(&self, option: OptionName) -> Option<&Value>
        ensures { option_copied result ≡ seen self.now option }
    {
        let place = place_of(option)?;
        if place < self.values.len() {
            self.values[place].as_ref()
        } else {
            None
        }
    }

    // Takes what is made of the value of an option. The other options keep theirs.
    #[tactic(auto, unfolding(crate::specs::Readings::seen_in))]
    fn take(&mut self, option: OptionName) -> Option<Value>
        ensures value { result ≡ seen self.old option }
        ensures rest { (other : OptionName) → place_of other ≢ place_of option → seen self.new other ≡ seen self.old other }
    {
        let place = place_of(option)?;
        if place < self.values.len() {
            mem::replace(&mut self.values[place], None)
        } else {
            None
        }
    }

    /// The text of an option, where it is there.
    pub(crate) fn text(&self, alloc: Global, option: OptionName) -> Result<Option<Text>, AllocError>
        ensures { IfOk result (λ text. text ≡ text_in (seen self.now option)) }
    {
        match self.value(option) {
            Some(Value::Text(text)) => Ok(Some(text.copy(alloc)?)),
            _ => Ok(None),
        }
    }

    /// The name of a file. No bytes stand for a required option, which is there.
    pub(crate) fn name(&self, alloc: Global, option: OptionName) -> Result<Text, AllocError>
        ensures { IfOk result (λ name. name ≡ name_in (seen self.now option)) }
    {
        match self.text(alloc, option)? {
            Some(name) => Ok(name),
            None => Text::of(alloc, ""),
        }
    }

    /// The number of an option, or else the usual one. For a required option, which is there, any is good.
    pub(crate) fn number_or(&self, option: OptionName, usual: u64) -> u64
        ensures { result ≡ number_or usual (seen self.now option) }
    {
        match self.value(option) {
            Some(Value::Number(n)) => *n,
            _ => usual,
        }
    }

    /// Whether an option is there.
    pub(crate) fn has(&self, option: OptionName) -> bool
        ensures { result ≡ is_some (seen self.now option) }
    {
        self.value(option).is_some()
    }

    /// Takes the channels that are given a capacity: none, where the option isn't there.
    pub(crate) fn take_buffers(&mut self, alloc: Global, option: OptionName) -> Rows<(Text, u64)>
        ensures { result ≡ buffers_in (seen self.old option) }
    {
        match self.take(option) {
            Some(Value::Buffers(buffers)) => buffers,
            _ => Rows::new(alloc),
        }
    }

    /// Takes the actors by processor. None stand for a required option, which is there.
    pub(crate) fn take_orders(&mut self, alloc: Global, option: OptionName) -> Rows<Rows<Text>>
        ensures value { result ≡ orders_in (seen self.old option) }
        ensures rest { (other : OptionName) → place_of other ≢ place_of option → seen self.new other ≡ seen self.old other }
    {
        match self.take(option) {
            Some(Value::Orders(orders)) => orders,
            _ => Rows::new(alloc),
        }
    }
}
