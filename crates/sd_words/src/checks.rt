//! The values that are given, each read once as the algorithm asks, or the first cause why they can't be.

ghost use Rattle.std.specs.Prelude.{◌≡◌, IfOk, Ok, Err, if◌then◌else◌, map};
ghost use Rattle.std.specs.Option.{option_map};
ghost use Rattle.sd_words.specs.declared.request.UsageCause.TheVariants.{BadValue};
ghost use Rattle.sd_words.specs.Forms.{fits, read};
ghost use Rattle.sd_words.specs.Asked.{Gives, algorithm_of, all_checked, apart_from, certificate_apart, certified, checked, judged, named_apart, read_as, readings, source_of, standing, tested};
ghost use Rattle.sd_words.specs.Given.{values_given};
ghost use Rattle.sd_words.specs.OptionWords.{options};
ghost use Rattle.sd_words.specs.Readings.{seen};

use crate::form::{Form, Value, read};
use crate::given::Given;
use crate::names::OPTIONS;
use crate::readings::Readings;
use crate::table::{Standing, standing_of};
use crate::{Algorithm, OptionName, UsageCause, WordsError};
use std::alloc::Global;

// What the form makes of a value, which has to be of the form.
fn read_good(
    alloc: Global,
    option: OptionName,
    form: Form,
    text: &str,
) -> Result<Option<Value>, WordsError>
    ensures tested { Gives (λ _. tt {0}) result (if fits form text.now then Ok tt else Err (BadValue option)) }
    ensures read { IfOk result (λ value. value ≡ read form text.now) }
{
    match read(alloc, form, text)? {
        Some(value) => Ok(Some(value)),
        None => Err(WordsError::from(UsageCause::BadValue(option))),
    }
}

// Whether an option is there or isn't as the algorithm asks, and what is made of its value, which has to be good.
#[tactic(auto, unfolding(crate::specs::Asked::judged, crate::specs::Asked::read_as))]
fn judge(
    alloc: Global,
    algo: Algorithm,
    option: OptionName,
    text: Option<&str>,
) -> Result<Option<Value>, WordsError>
    ensures tested { Gives (λ _. tt {0}) result (judged (standing algo option) algo option (option_map (λ v. v.now) text.entry)) }
    ensures read { IfOk result (λ value. value ≡ read_as (standing algo option) (option_map (λ v. v.now) text.entry)) }
{
    match (standing_of(algo, option), text) {
        (Standing::Required(_), None) => Err(WordsError::from(UsageCause::Missing(option))),
        (Standing::Foreign, Some(_)) => Err(WordsError::from(UsageCause::NotFor(option, algo))),
        (Standing::Required(form) | Standing::Allowed(form), Some(text)) => {
            read_good(alloc, option, form, text)
        }
        (Standing::Allowed(_) | Standing::Foreign, None) => Ok(None),
    }
}

// Whether two options have values that differ, where both are there.
#[tactic(auto, unfolding(crate::specs::Asked::are_one, crate::specs::Asked::named_apart))]
fn check_names(given: &Given<'_>, option: OptionName, other: OptionName) -> Result<(), UsageCause>
    ensures { result ≡ named_apart option other (values_given given.now) }
{
    match (given.value(option), given.value(other)) {
        (Some(name), Some(taken)) if name == taken => Err(UsageCause::BadValue(option)),
        _ => Ok(()),
    }
}

// Whether an option has another value than the one that it has to differ from, where there is one.
#[tactic(auto, unfolding(crate::specs::Asked::apart_from))]
fn check_apart(
    given: &Given<'_>,
    option: OptionName,
    other: Option<OptionName>,
) -> Result<(), UsageCause>
    ensures { result ≡ apart_from other option (values_given given.now) }
{
    match other {
        Some(other) => check_names(given, option, other),
        None => Ok(()),
    }
}

// The option whose file an option's output is made of.
fn source_of(standing: Standing) -> Option<OptionName>
    ensures { result ≡ source_of standing }
{
    match standing.form() {
        Some(form) => form.made_of(),
        None => None,
    }
}

// The option whose file the certificate is put for, where one is put.
fn certified(standing: Standing) -> Option<OptionName>
    ensures { result ≡ certified standing }
{
    match standing.form() {
        Some(form) => form.put_for(),
        None => None,
    }
}

// What is made of the value of an option, which has to be as the algorithm asks.
#[tactic(auto, unfolding(crate::specs::Asked::checked))]
fn check(
    alloc: Global,
    algo: Algorithm,
    option: OptionName,
    given: &Given<'_>,
) -> Result<Option<Value>, WordsError>
    ensures tested { Gives (λ _. tt {0}) result (checked algo option (values_given given.now)) }
    ensures read { IfOk result (λ value. value ≡ readings algo (values_given given.now) option) }
{
    let value = judge(alloc, algo, option, given.value(option))?;
    check_apart(given, option, source_of(standing_of(algo, option)))?;
    Ok(value)
}

/// The algorithm that is asked for.
#[tactic(auto, unfolding(crate::specs::Asked::algorithm_of))]
pub(crate) fn algorithm_of(given: &Given<'_>) -> Result<Algorithm, UsageCause>
    ensures { result ≡ algorithm_of (values_given given.now) }
{
    let option = OptionName::Algo;
    match given.value(option) {
        None => Err(UsageCause::Missing(option)),
        Some(word) => match Algorithm::named(word) {
            None => Err(UsageCause::BadValue(option)),
            Some(algo) => Ok(algo),
        },
    }
}

// What is made of the values of the options in turn; else the first cause why one isn't as the algorithm asks.
fn check_each(
    alloc: Global,
    algo: Algorithm,
    given: &Given<'_>,
) -> Result<Vec<Option<Value>>, WordsError>
    ensures tested { Gives (λ _. tt {0}) result (all_checked algo (values_given given.now) options) }
    ensures read { IfOk result (λ values. values.items ≡ map (readings algo (values_given given.now)) options) }
{
    let mut values = Vec::new(alloc);
    for option in &OPTIONS {
        let value = check(alloc, algo, *option, given)?;
        values.push(value)?;
    }
    Ok(values)
}

// Whether a certificate that is put has another name than the file that it is put for.
#[tactic(auto, unfolding(crate::specs::Asked::certificate_apart))]
fn check_certificate(algo: Algorithm, given: &Given<'_>) -> Result<(), UsageCause>
    ensures { result ≡ certificate_apart algo (values_given given.now) }
{
    let option = OptionName::Certificate;
    check_apart(given, option, certified(standing_of(algo, option)))
}

/// What is made of the values; else the first cause why the options aren't as the algorithm asks.
#[tactic(auto, unfolding(crate::specs::Asked::tested))]
pub(crate) fn read_values(
    alloc: Global,
    algo: Algorithm,
    given: &Given<'_>,
) -> Result<Readings, WordsError>
    ensures tested { Gives (λ _. tt {0}) result (tested algo (values_given given.now)) }
    ensures read { IfOk result (λ values. seen values ≡ readings algo (values_given given.now)) }
{
    let values = check_each(alloc, algo, given)?;
    check_certificate(algo, given)?;
    Ok(Readings::new(values))
}
