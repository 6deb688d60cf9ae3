ghost use Rattle.std.specs.Prelude.{◌≡◌, ◌<◌, ◌++◌, IfOk, IsTrue, OnOk};
ghost use Rattle.std.specs.String.{string_bytes};
ghost use Rattle.escapes.specs.EscapedNames.{escaped_byte, escaped_name, hex_digit, is_bare};

use sd_base::{NoMemory, Text};
use std::alloc::{AllocError, Global};

/// A name as lines show it: letters, digits, `_`, `-`, `.` and `:` stand for themselves, and each
/// other byte is `%` with its two hexadecimal digits in upper case. So a printed name holds no space, comma or line feed.
pub fn escaped(alloc: Global, name: &str) -> Result<Text, NoMemory>
    ensures { IfOk result (λ t. t ≡ escaped_name name.now) }
{
    let mut text = String::new(alloc);
    put_escaped(&mut text, name)?;
    Ok(Text::new(text))
}

/// Puts a name at the end of a text, as lines show it.
#[tactic(auto, unfolding(crate::specs::EscapedNames::escaped_name))]
pub fn put_escaped(text: &mut String, name: &str) -> Result<(), AllocError>
    ensures { OnOk result (string_bytes text.new ≡ string_bytes text.old ++ escaped_name name.now) }
{
    for byte in name.as_bytes() {
        push_escaped(text, *byte)?;
    }
    Ok(())
}

#[tactic(auto, unfolding(crate::specs::EscapedNames::escaped_byte))]
fn push_escaped(text: &mut String, byte: u8) -> Result<(), AllocError>
    ensures { OnOk result (string_bytes text.new ≡ string_bytes text.old ++ escaped_byte byte) }
{
    if is_bare_byte(byte) {
        return text.push(byte as char);
    }
    text.push('%')?;
    text.push(hex(byte / 16))?;
    text.push(hex(byte % 16))
}

pub(crate) fn is_bare_byte(byte: u8) -> bool
    ensures bare { result ≡ is_bare byte }
    ensures ascii { IsTrue result → byte < 128 }
{
    (byte >= b'a' && byte <= b'z')
        || (byte >= b'A' && byte <= b'Z')
        || (byte >= b'0' && byte <= b'9')
        || (byte == b'_' || byte == b'-')
        || (byte == b'.' || byte == b':')
}

fn hex(digit: u8) -> char
    requires { digit < 16 }
    ensures value { result ≡ hex_digit digit }
    ensures ascii { result < 128 }
{
    if digit < 10 {
        (b'0' + digit) as char
    } else {
        (b'A' + (digit - 10)) as char
    }
}
