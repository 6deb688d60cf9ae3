ghost use Rattle.std.specs.Prelude.{◌≡◌, ◌≢◌, IfOk};
ghost use Rattle.graph_reader.specs.declared.error.ReadError.TheVariants.{NoMemory};
ghost use Rattle.graph_reader.specs.Refusal.{text_refusal};

use crate::Field;
use file_text::TextError;
use sd_base::{Quantity, Text};
use std::alloc::{AllocError, AllocFailed, Global};
use thiserror::Error;

/// Why a file has no table: the first rule that it breaks. `of` names what is being read, an actor, a channel, a
/// scenario or a state, or is `file` where none is; names stand as the file has them.
#[derive(Debug, Drop, Error)]
pub enum ReadError {
    /// The bytes spell no tree.
    #[error("{0}")]
    Text(TextError),
    #[error("not a graph of this kind")]
    WrongKind,
    /// An element or attribute that has to be there isn't.
    #[error("an element or attribute is missing")]
    Missing { what: Field, of: Text },
    /// The word stands for nothing.
    #[error("a name stands for nothing")]
    Unknown { what: Field, name: Text },
    /// What may stand once stands again.
    #[error("a name or element stands twice")]
    Twice { what: Field, name: Text },
    #[error("a word is none of those allowed")]
    BadWord { what: Field, of: Text },
    #[error("a number has a bad form or is 0")]
    BadNumber { what: Field, of: Text },
    /// A list of the actor, of rates or of times, has neither a number for each phase nor one for all.
    #[error("the lists of an actor differ in their phases")]
    PhaseCount { actor: Text },
    /// A number or a count above its limit.
    #[error("a limit is passed")]
    Limit { what: Quantity },
    /// A scenario has other tokens between rounds than the first one, on the channel of this name.
    #[error("the tokens that scenarios share differ")]
    SharedDiffer { channel: Text },
    /// No state may come after this one.
    #[error("a state has no successor")]
    DeadEnd { state: Text },
    #[error("out of memory")]
    NoMemory,
}

impl From<AllocError> for ReadError {
    ghost from_gives = { λ _ error. error ≡ NoMemory };

    fn from(_error: AllocError) -> ReadError {
        ReadError::NoMemory
    }
}

impl<T: Drop> From<AllocFailed<T>> for ReadError {
    ghost from_gives = { λ _ error. error ≡ NoMemory };

    fn from(_error: AllocFailed<T>) -> ReadError {
        ReadError::NoMemory
    }
}

impl From<TextError> for ReadError {
    ghost from_gives = { λ fault error. error ≡ text_refusal fault };

    fn from(fault: TextError) -> ReadError {
        match fault {
            TextError::NoMemory => ReadError::NoMemory,
            fault => ReadError::Text(fault),
        }
    }
}

/// A text of its own with these characters.
pub fn copied(alloc: Global, text: &str) -> Result<Text, AllocError>
    ensures { IfOk result (λ copy. copy ≡ text.now) }
{
    Ok(Text::new(String::from_str(alloc, text)?))
}

/// The refusal where what has to be there isn't, or the error for want of memory.
pub fn missing(alloc: Global, what: Field, of: &str) -> ReadError
    ensures { result ≢ ReadError.NoMemory → result ≡ ReadError.Missing what of.now }
{
    match copied(alloc, of) {
        Ok(of) => ReadError::Missing { what, of },
        Err(_) => ReadError::NoMemory,
    }
}

/// The refusal of a name that stands for nothing, or the error for want of memory.
pub fn unknown(alloc: Global, what: Field, name: &str) -> ReadError
    ensures { result ≢ ReadError.NoMemory → result ≡ ReadError.Unknown what name.now }
{
    match copied(alloc, name) {
        Ok(name) => ReadError::Unknown { what, name },
        Err(_) => ReadError::NoMemory,
    }
}

/// The refusal of what stands again and may stand once, or the error for want of memory.
pub fn twice(alloc: Global, what: Field, name: &str) -> ReadError
    ensures { result ≢ ReadError.NoMemory → result ≡ ReadError.Twice what name.now }
{
    match copied(alloc, name) {
        Ok(name) => ReadError::Twice { what, name },
        Err(_) => ReadError::NoMemory,
    }
}

/// The refusal of a word that is none of those allowed, or the error for want of memory.
pub(crate) fn bad_word(alloc: Global, what: Field, of: &str) -> ReadError
    ensures { result ≢ ReadError.NoMemory → result ≡ ReadError.BadWord what of.now }
{
    match copied(alloc, of) {
        Ok(of) => ReadError::BadWord { what, of },
        Err(_) => ReadError::NoMemory,
    }
}

/// The refusal of a number that has a bad form or is 0, or the error for want of memory.
pub(crate) fn bad_number(alloc: Global, what: Field, of: &str) -> ReadError
    ensures { result ≢ ReadError.NoMemory → result ≡ ReadError.BadNumber what of.now }
{
    match copied(alloc, of) {
        Ok(of) => ReadError::BadNumber { what, of },
        Err(_) => ReadError::NoMemory,
    }
}

/// The refusal of lists of the actor that differ in their phases, or the error for want of memory.
pub(crate) fn phase_count(alloc: Global, actor: &str) -> ReadError
    ensures { result ≢ ReadError.NoMemory → result ≡ ReadError.PhaseCount actor.now }
{
    match copied(alloc, actor) {
        Ok(actor) => ReadError::PhaseCount { actor },
        Err(_) => ReadError::NoMemory,
    }
}

/// The refusal of tokens on the channel that differ between scenarios, or the error for want of memory.
pub fn shared_differ(alloc: Global, channel: &str) -> ReadError
    ensures { result ≢ ReadError.NoMemory → result ≡ ReadError.SharedDiffer channel.now }
{
    match copied(alloc, channel) {
        Ok(channel) => ReadError::SharedDiffer { channel },
        Err(_) => ReadError::NoMemory,
    }
}

/// The refusal of a state after which none may come, or the error for want of memory.
pub fn dead_end(alloc: Global, state: &str) -> ReadError
    ensures { result ≢ ReadError.NoMemory → result ≡ ReadError.DeadEnd state.now }
{
    match copied(alloc, state) {
        Ok(state) => ReadError::DeadEnd { state },
        Err(_) => ReadError::NoMemory,
    }
}
