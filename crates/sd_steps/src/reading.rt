ghost use Rattle.std.specs.Prelude.{◌≡◌, ◌≢◌, IfOk, IsTrue, None};
ghost use Rattle.sd_base.specs.Tables.{IsTimed, KeepsRules};
ghost use Rattle.graph_reader.specs.declared.error.ReadError.TheVariants as reading;
ghost use Rattle.graph_reader.specs.Field.{word_of};
ghost use Rattle.sd_base.specs.Limits.{greatest_of};
ghost use Rattle.report.specs.QuantityWords.{quantity_text};
ghost use Rattle.report.specs.declared.refusal.Refusal.TheVariants.{Above};
ghost use Rattle.sd_steps.specs.Readings.{construct_refusal, reading_graph, reading_refusal, text_refusal};
ghost use Rattle.sd_steps.specs.Steps.{Does};

use crate::stop::Stop;
use escapes::escaped;
use file_text::{Construct, TextError};
use graph_reader::{Field, ReadError, read_graph};
use report::{Refusal, quantity_word};
use sd_base::{GraphFile, NoMemory, Quantity, Text};
use std::alloc::Global;

/// Reads a graph file.
pub fn read(alloc: Global, bytes: &[u8], times: bool) -> Result<GraphFile, Stop>
    ensures does { Does (reading_graph bytes.now times) result }
    ensures keeps { IfOk result KeepsRules }
    ensures timed { IfOk result (λ graph. IsTrue times → IsTimed graph) }
{
    match read_graph(alloc, bytes, times) {
        Ok(graph) => Ok(graph),
        Err(error) => Err(Stop::Refused(refusal_of(alloc, &error)?)),
    }
}

// The refusal of a file's first fault. Want of memory has none.
pub(crate) fn refusal_of(alloc: Global, error: &ReadError) -> Result<Refusal, NoMemory>
    ensures { IfOk result (λ refusal. (refusal ≡ reading_refusal error.now) × (error.now ≢ reading.NoMemory)) }
{
    match error {
        ReadError::Text(fault) => refusal_of_text(alloc, *fault),
        ReadError::WrongKind => Ok(Refusal::WrongKind),
        ReadError::Missing { what, of } => Ok(Refusal::Missing {
            what: word(alloc, *what)?,
            of: escaped(alloc, of.as_str())?,
        }),
        ReadError::Unknown { what, name } => Ok(Refusal::Unknown {
            what: word(alloc, *what)?,
            name: escaped(alloc, name.as_str())?,
        }),
        ReadError::Twice { what, name } => Ok(Refusal::Twice {
            what: word(alloc, *what)?,
            name: escaped(alloc, name.as_str())?,
        }),
        ReadError::BadWord { what, of } => Ok(Refusal::BadWord {
            what: word(alloc, *what)?,
            of: escaped(alloc, of.as_str())?,
        }),
        ReadError::BadNumber { what, of } => Ok(Refusal::BadNumber {
            what: word(alloc, *what)?,
            of: escaped(alloc, of.as_str())?,
        }),
        ReadError::PhaseCount { actor } => Ok(Refusal::PhasesDiffer {
            actor: escaped(alloc, actor.as_str())?,
        }),
        ReadError::Limit { what } => above(alloc, *what),
        ReadError::SharedDiffer { channel } => Ok(Refusal::SharedDiffers {
            name: escaped(alloc, channel.as_str())?,
        }),
        ReadError::DeadEnd { state } => Ok(Refusal::NoSuccessor {
            name: escaped(alloc, state.as_str())?,
        }),
        ReadError::NoMemory => Err(NoMemory),
    }
}

/// The refusal of a quantity that passes its greatest number.
pub fn above(alloc: Global, quantity: Quantity) -> Result<Refusal, NoMemory>
    ensures { IfOk result (λ refusal. refusal ≡ Above None (quantity_text quantity) (greatest_of quantity)) }
{
    Ok(Refusal::Above {
        scenario: None,
        quantity: Text::new(String::from_str(alloc, quantity_word(quantity))?),
        number: quantity.greatest(),
    })
}

fn refusal_of_text(alloc: Global, fault: TextError) -> Result<Refusal, NoMemory>
    ensures { IfOk result (λ refusal. refusal ≡ text_refusal fault) }
{
    match fault {
        TextError::Syntax { place } => Ok(Refusal::Text { place }),
        TextError::Unsupported { place, what } => Ok(refusal_of_construct(place, what)),
        TextError::TooDeep { .. } => above(alloc, Quantity::Depth),
        TextError::NoMemory => Err(NoMemory),
    }
}

fn refusal_of_construct(place: u64, what: Construct) -> Refusal
    ensures { result ≡ construct_refusal place what }
{
    match what {
        Construct::Doctype => Refusal::DocumentType { place },
        Construct::Cdata => Refusal::CdataSection { place },
        Construct::Instruction => Refusal::Instruction { place },
        Construct::Reference => Refusal::CharReference { place },
        Construct::Encoding => Refusal::Encoding { place },
    }
}

fn word(alloc: Global, what: Field) -> Result<Text, NoMemory>
    ensures { IfOk result (λ t. t ≡ word_of what) }
{
    Ok(Text::new(String::from_str(alloc, what.word())?))
}
