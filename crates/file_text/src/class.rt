ghost use Rattle.std.specs.Prelude.{◌≡◌};
ghost use Rattle.file_text.specs.inside.Machine.{class_of};

/// The part that a byte plays.
#[derive(Clone, Copy)]
pub(crate) enum Class {
    /// A byte of a character from U+0080 up.
    Wide,
    White,
    /// A control character that may not stand in a text.
    Control,
    /// A letter, `_` or `:`.
    Letter,
    /// A digit or `.`.
    Digit,
    Hyphen,
    Less,
    Greater,
    Slash,
    Bang,
    Question,
    Equals,
    Quote,
    Ampersand,
    Other,
}

#[inline(never)]
pub(crate) fn class_at(b: u8) -> Class
    ensures { result ≡ class_of b }
{
    match b {
        128.. => Class::Wide,
        b' ' | b'\t' | b'\n' | b'\r' => Class::White,
        0..=31 => Class::Control,
        b'A'..=b'Z' | b'a'..=b'z' | b'_' | b':' => Class::Letter,
        b'0'..=b'9' | b'.' => Class::Digit,
        b'-' => Class::Hyphen,
        b'<' => Class::Less,
        b'>' => Class::Greater,
        b'/' => Class::Slash,
        b'!' => Class::Bang,
        b'?' => Class::Question,
        b'=' => Class::Equals,
        b'"' | b'\'' => Class::Quote,
        b'&' => Class::Ampersand,
        _ => Class::Other,
    }
}
