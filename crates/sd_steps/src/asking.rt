ghost use Rattle.std.specs.Prelude.{◌≡◌, IfOk};
ghost use Rattle.sd_words.specs.Asked.{IsWithinLimits};
ghost use Rattle.sd_steps.specs.Askings.{asking, usage_refusal};
ghost use Rattle.sd_steps.specs.Steps.{Does};

use crate::stop::Stop;
use report::Refusal;
use sd_base::{NoMemory, Text};
use sd_words::{Request, UsageCause, WordsError, parse_words};
use std::alloc::{AllocError, Global};

/// What the words ask for.
pub fn ask(alloc: Global, words: &[Text]) -> Result<Request, Stop>
    ensures does { Does (asking words.now) result }
    ensures states { IfOk result IsWithinLimits }
{
    match parse_words(alloc, words) {
        Ok(request) => Ok(request),
        Err(WordsError::Usage(cause)) => Err(Stop::Refused(usage_refusal(alloc, cause)?)),
        Err(WordsError::NoMemory) => Err(Stop::OutOfMemory),
    }
}

// The refusal of words that aren't those of a command.
fn usage_refusal(alloc: Global, cause: UsageCause) -> Result<Refusal, NoMemory>
    ensures { IfOk result (λ refusal. refusal ≡ usage_refusal cause) }
{
    match cause {
        UsageCause::Words => Ok(Refusal::UsageWords),
        UsageCause::Missing(option) => Ok(Refusal::UsageMissing {
            option: owned(alloc, option.word())?,
        }),
        UsageCause::NotFor(option, algo) => Ok(Refusal::UsageNotFor {
            option: owned(alloc, option.word())?,
            algo: owned(alloc, algo.word())?,
        }),
        UsageCause::BadValue(option) => Ok(Refusal::UsageBadValue {
            option: owned(alloc, option.word())?,
        }),
    }
}

fn owned(alloc: Global, word: &str) -> Result<Text, AllocError>
    ensures { IfOk result (λ t. t ≡ word.now) }
{
    Ok(Text::of(alloc, word)?)
}
