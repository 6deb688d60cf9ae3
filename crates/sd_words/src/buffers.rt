//! The value of `--buffers`.

ghost use Rattle.std.specs.Prelude.{◌≡◌, ◌==◌, ◌++◌, ◌∷◌, [], IfOk, true, not, map};
ghost use Rattle.std.specs.List.{list_any, slice_split};
ghost use Rattle.std.specs.Str.{bytes_eq};
ghost use Rattle.std.specs.String.{string_bytes};
ghost use Rattle.sd_words.specs.Buffers.{buffer_of, buffers_of, named_number};

use crate::form::number_within;
use escapes::unescaped;
use indexmap::IndexSet;
use sd_base::limits::CAPACITY;
use sd_base::{Rows, Text};
use std::alloc::{AllocError, Global};

/// The names of the buffers so far.
struct Names {
    set: IndexSet<String>,
}

// By hand, so that what drops them calls this, and doesn't drop each part of a set.
impl Drop for Names {
    fn drop(self) {
        let Names { set: _set } = self;
    }
}

/// The buffers of a value of `--buffers`, or none where it isn't of its form. Cost: linear in its bytes.
#[tactic(auto, unfolding(crate::specs::Buffers::buffers_of))]
pub(crate) fn buffers_of(
    alloc: Global,
    value: &str,
) -> Result<Option<Rows<(Text, u64)>>, AllocError>
    ensures { IfOk result (λ buffers. buffers ≡ buffers_of value.now) }
{
    let parts = parts_of(alloc, value)?;
    let mut names = Names {
        set: IndexSet::new(alloc),
    };
    let mut buffers = Vec::new(alloc);
    for part in &parts {
        let Some(buffer) = buffer_of(alloc, part)? else {
            return Ok(None);
        };
        if !is_new(alloc, &mut names, buffer.0.as_str())? {
            return Ok(None);
        }
        buffers.push(buffer)?;
    }
    Ok(Some(Rows::from_vec(buffers)))
}

// Whether a name is none of those so far, among which it then is.
fn is_new(alloc: Global, names: &mut Names, name: &str) -> Result<bool, AllocError>
    ensures new { IfOk result (λ new. new ≡ not (list_any (λ k. bytes_eq name.now (string_bytes k)) names.old.set.keys)) }
    ensures more { IfOk result (λ new. new ≡ true → map string_bytes names.new.set.keys ≡ map string_bytes names.old.set.keys ++ name.now ∷ []) }
{
    let copy = String::from_str(alloc, name)?;
    Ok(names.set.insert(copy)?)
}

// The parts of a value between commas.
fn parts_of<'a>(alloc: Global, value: &'a str) -> Result<Vec<&'a str>, AllocError>
    ensures { IfOk result (λ parts. map (λ p. p.now) parts.items ≡ slice_split (λ b. b == 44) value.now) }
{
    value.split(',').collect(alloc)
}

// One part of a value.
#[tactic(auto, unfolding(crate::specs::Buffers::buffer_of))]
fn buffer_of(alloc: Global, part: &str) -> Result<Option<(Text, u64)>, AllocError>
    ensures { IfOk result (λ buffer. buffer ≡ buffer_of part.now) }
{
    match part.split_once('=') {
        None => Ok(None),
        Some((name, number)) => named_number(alloc, name, number),
    }
}

// A name and a number.
fn named_number(alloc: Global, name: &str, number: &str) -> Result<Option<(Text, u64)>, AllocError>
    ensures { IfOk result (λ buffer. buffer ≡ named_number name.now number.now) }
{
    let Some(channel) = unescaped(alloc, name)? else {
        return Ok(None);
    };
    match number_within(number, 0, CAPACITY) {
        None => Ok(None),
        Some(capacity) => Ok(Some((channel, capacity))),
    }
}
