//! The forms of values, and what each makes of a value.

ghost use Rattle.std.specs.Prelude.{◌≡◌, IfOk, min};
ghost use Rattle.std.specs.List.{list_all};
ghost use Rattle.std.specs.Char.{is_ascii_digit};
ghost use Rattle.sd_words.specs.Values.{is_decimal, is_value, number, number_within};
ghost use Rattle.sd_words.specs.Forms.{made_of, put_for, read};

use crate::OptionName;
use crate::buffers::buffers_of;
use crate::orders::orders_of;
use sd_base::{Rows, Text};
use std::alloc::{AllocError, Global};

/// A number from here on is above each limit, so it stays here, however many digits follow.
const GREATEST: u128 = 100_000_000_000_000_000_000;

/// The values that an option may have.
#[derive(Clone, Copy)]
pub(crate) enum Form {
    /// Any text.
    Text,
    /// The name of a file that is made of the file which the option `source` names. The two names differ.
    Output { source: OptionName },
    /// The name of a certificate that is put for the file which the option `source` names. The two names differ,
    /// which is tested when all options have been.
    Certificate { source: OptionName },
    /// A number in decimal digits, from `least` to `greatest`.
    Number { least: u64, greatest: u64 },
    /// Names of channels with their capacities.
    Buffers,
    /// Names of actors, by processor.
    Orders,
    /// That of an option without a value, which is empty.
    Flag,
}

/// What a form makes of a value.
#[derive(Drop)]
pub(crate) enum Value {
    Text(Text),
    Number(u64),
    Buffers(Rows<(Text, u64)>),
    Orders(Rows<Rows<Text>>),
    Flag,
}

impl Form {
    /// The option whose file an output is made of.
    #[tactic(auto, unfolding(crate::specs::Forms::made_of))]
    pub(crate) fn made_of(self) -> Option<OptionName>
        ensures { result ≡ made_of self }
    {
        match self {
            Form::Output { source } => Some(source),
            _ => None,
        }
    }

    /// The option whose file a certificate is put for.
    #[tactic(auto, unfolding(crate::specs::Forms::put_for))]
    pub(crate) fn put_for(self) -> Option<OptionName>
        ensures { result ≡ put_for self }
    {
        match self {
            Form::Certificate { source } => Some(source),
            _ => None,
        }
    }
}

/// Whether a word may be the value of an option: it isn't empty and doesn't begin with a hyphen.
pub(crate) fn is_value(word: &str) -> bool
    ensures { result ≡ is_value word.now }
{
    match word.as_bytes() {
        [] => false,
        [first, ..] => *first != b'-',
    }
}

fn are_digits(text: &[u8]) -> bool
    ensures { result ≡ list_all is_ascii_digit text.now }
{
    text.iter().all(|byte| byte.is_ascii_digit())
}

fn is_decimal(text: &[u8]) -> bool
    ensures { result ≡ is_decimal text.now }
{
    text.len() > 0 && are_digits(text)
}

/// The number that digits spell, or the greatest one.
fn number(digits: &[u8]) -> u128
    ensures { result ≡ min (number digits.now) GREATEST }
{
    let mut n: u128 = 0;
    for digit in digits {
        n = (n * 10 + u128::from(digit.saturating_sub(b'0'))).min(GREATEST);
    }
    n
}

/// The number of a text of decimal digits, where it lies between `low` and `high`.
#[tactic(auto, unfolding(crate::specs::Values::number_within))]
pub(crate) fn number_within(text: &str, low: u64, high: u64) -> Option<u64>
    ensures { result ≡ number_within low high text.now }
{
    let digits = text.as_bytes();
    if !is_decimal(digits) {
        return None;
    }
    let n = number(digits);
    if u128::from(low) <= n && n <= u128::from(high) {
        Some(n as u64)
    } else {
        None
    }
}

/// What a form makes of a text; nothing, where the text isn't of the form.
#[tactic(auto, unfolding(crate::specs::Forms::read))]
pub(crate) fn read(alloc: Global, form: Form, text: &str) -> Result<Option<Value>, AllocError>
    ensures { IfOk result (λ value. value ≡ read form text.now) }
{
    match form {
        Form::Text | Form::Output { .. } | Form::Certificate { .. } => {
            Ok(Some(Value::Text(Text::of(alloc, text)?)))
        }
        Form::Number { least, greatest } => match number_within(text, least, greatest) {
            Some(n) => Ok(Some(Value::Number(n))),
            None => Ok(None),
        },
        Form::Buffers => match buffers_of(alloc, text)? {
            Some(buffers) => Ok(Some(Value::Buffers(buffers))),
            None => Ok(None),
        },
        Form::Orders => match orders_of(alloc, text)? {
            Some(orders) => Ok(Some(Value::Orders(orders))),
            None => Ok(None),
        },
        Form::Flag => Ok(Some(Value::Flag)),
    }
}
