ghost use Rattle.std.specs.Prelude.{◌≡◌, IfOk, Some, None, if◌then◌else◌};
ghost use Rattle.std.specs.Str.{is_utf8};
ghost use Rattle.percent_encoding.specs.Percent.{percent_decode};
ghost use Rattle.escapes.specs.SpelledNames.{is_escaped, unescaped};

use crate::names::is_bare_byte;
use percent_encoding::{DecodeError, percent_decode};
use sd_base::Text;
use std::alloc::{AllocError, Global};

/// The name that a text spells: any byte may be escaped, by hexadecimal digits of either case, and those that aren't
/// printed bare must be. None where the text is empty, isn't spelled so, or what it spells isn't UTF-8.
/// Cost: linear in the text.
#[tactic(auto, unfolding(crate::specs::SpelledNames::unescaped))]
pub fn unescaped(alloc: Global, text: &str) -> Result<Option<Text>, AllocError>
    ensures { IfOk result (λ name. name ≡ unescaped text.now) }
{
    if text.is_empty() || !is_escaped(text.as_bytes()) {
        return Ok(None);
    }
    decoded(alloc, text)
}

// What a text spells whose escapes are well formed, if that is UTF-8.
fn decoded(alloc: Global, text: &str) -> Result<Option<Text>, AllocError>
    ensures { IfOk result (λ name. name ≡ (if is_utf8 (percent_decode text.now) then Some (percent_decode text.now) else None)) }
{
    match percent_decode(text.as_bytes()).decode_utf8(alloc) {
        Ok(name) => Ok(Some(Text::of(alloc, name.as_str())?)),
        Err(DecodeError::Utf8(_)) => Ok(None),
        Err(DecodeError::OutOfMemory) => Err(AllocError),
    }
}

// Whether each byte is printed bare or is one of an escape.
#[tactic(auto, unfolding(crate::specs::SpelledNames::is_escaped))]
fn is_escaped(text: &[u8]) -> bool
    ensures { result ≡ is_escaped text.now }
{
    let mut rest = text;
    loop {
        match rest {
            [] => return true,
            [b'%', high, low, after @ ..] if high.is_ascii_hexdigit() && low.is_ascii_hexdigit() =>
                {
                    rest = after;
                }
            [byte, after @ ..] => {
                if !is_bare_byte(*byte) {
                    return false;
                }
                rest = after;
            }
        }
    }
}
