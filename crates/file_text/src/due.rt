ghost use Rattle.std.specs.Prelude.{◌≡◌};
ghost use Rattle.std.specs.Str.Lossy.{second_byte_min, second_byte_max};
ghost use Rattle.file_text.specs.inside.Utf8.{due_after, due_after_first, first_due};

/// The bytes that a character still needs.
#[derive(Clone, Copy)]
pub(crate) enum Due {
    Nothing,
    /// A byte from `low` to `high`, and then `more` bytes from 0x80 to 0xBF.
    Byte { low: u8, high: u8, more: u8 },
}

impl Due {
    /// What is due after a further byte, or `None` where it breaks UTF-8.
    #[inline(always)]
    pub(crate) fn after(self, b: u8) -> Option<Due>
        ensures { result ≡ due_after self b }
    {
        match self {
            Due::Nothing => Due::after_first(b),
            Due::Byte { low, high, more } => {
                if b < low || high < b {
                    None
                } else if more == 0 {
                    Some(Due::Nothing)
                } else {
                    Some(Due::Byte {
                        low: 0x80,
                        high: 0xBF,
                        more: more - 1,
                    })
                }
            }
        }
    }

    #[inline(always)]
    fn after_first(b: u8) -> Option<Due>
        ensures { result ≡ due_after_first b }
    {
        match b {
            0..=0x7F => Some(Due::Nothing),
            0xC2..=0xDF => Some(Due::begun(b, 0)),
            0xE0..=0xEF => Some(Due::begun(b, 1)),
            0xF0..=0xF4 => Some(Due::begun(b, 2)),
            _ => None,
        }
    }

    /// What is due after the first byte of a character that has `more` bytes behind the second.
    fn begun(b: u8, more: u8) -> Due
        ensures { result ≡ first_due b more }
    {
        Due::Byte {
            low: second_min(b),
            high: second_max(b),
            more,
        }
    }
}

/// The least second byte of a character that begins so.
#[inline(always)]
pub(crate) fn second_min(first: u8) -> u8
    ensures { result ≡ second_byte_min first }
{
    match first {
        0xE0 => 0xA0,
        0xF0 => 0x90,
        _ => 0x80,
    }
}

/// The greatest one.
#[inline(always)]
pub(crate) fn second_max(first: u8) -> u8
    ensures { result ≡ second_byte_max first }
{
    match first {
        0xED => 0x9F,
        0xF4 => 0x8F,
        _ => 0xBF,
    }
}
