//! The words of a command line to a request: what they ask for, or the first cause why they ask for nothing.
#![tactic(auto)]

ghost use Rattle.std.specs.Prelude.{◌≡◌, IfOk, MatchResult, Ok};
ghost use Rattle.sd_words.specs.Asked.{Fails, Gives, IsWithinLimits, request_from, request_of};
ghost use Rattle.sd_words.specs.Given.{values_given};

mod buffers;
mod checks;
mod form;
mod given;
mod laws;
mod making;
mod names;
mod orders;
mod readings;
mod request;
mod spelling;
mod table;

use clap::error::ErrorKind;
use given::{Given, texts_of};
pub use laws::{answers_follow_the_rules, numbers_of_words, words_are_read_as_spelled};
pub use names::{Algorithm, OptionName};
pub use request::{Request, UsageCause, WordsError};
use sd_base::Text;
use spelling::test_spelling;
use std::alloc::Global;

/// Reads the words after the program's name: they are tested for their spelling, and then `clap` reads the values.
/// Cost: linear in the bytes of at most the first 27 words: no list of more than 25 is well spelled, and that an option comes
/// twice is found at its value.
#[tactic(auto, unfolding(crate::specs::Asked::request_of))]
pub fn parse_words(alloc: Global, words: &[Text]) -> Result<Request, WordsError>
    ensures request { MatchResult result (λ r. request_of words.now ≡ Ok r) (λ e. Fails e (request_of words.now)) }
    ensures within { IfOk result IsWithinLimits }
{
    test_spelling(alloc, words)?;
    let texts = texts_of(alloc, words)?;
    match Given::read(alloc, texts.as_slice()) {
        Ok(given) => request_given(alloc, &given),
        Err(error) => Err(want_of_memory(error.kind())),
    }
}

/// What the values ask for.
#[tactic(auto, unfolding(crate::specs::Asked::request_from))]
fn request_given(alloc: Global, given: &Given<'_>) -> Result<Request, WordsError>
    ensures request { Gives (λ r. r) result (request_from (values_given given.now)) }
    ensures within { IfOk result IsWithinLimits }
{
    let algo = checks::algorithm_of(given)?;
    let mut values = checks::read_values(alloc, algo, given)?;
    Ok(making::request_for(alloc, algo, &mut values)?)
}

/// `clap` refuses words that are well spelled for want of memory alone.
fn want_of_memory(kind: ErrorKind) -> WordsError
    requires { kind ≡ ErrorKind.OutOfMemory }
    ensures { result ≡ WordsError.NoMemory }
{
    match kind {
        ErrorKind::OutOfMemory => WordsError::NoMemory,
        _ => unreachable!(),
    }
}
