//! Texts, of which short ones take no memory of their own.
//!
//! Short texts take no memory of their own. A text of up to 16 bytes stands in its value, and the attribute of an element
//! that has one stands in the element. Names and most values are as short, so a tag costs no allocation but its share of
//! the vector that it stands in.
ghost use Rattle.std.specs.Prelude.{◌≡◌, ◌↔◌, ◌≤◌, IfOk, MatchResult, IsTrue, length};
ghost use Rattle.std.specs.String.{string_bytes};
ghost use Rattle.std.specs.Str.{IsUtf8};

use arrayvec::ArrayString;
use std::alloc::{AllocError, Global};
use std::marker::Model;

/// Texts of up to so many bytes take no memory of their own.
pub const SHORT_TEXT: usize = 16;

/// A text in a table, as a name; contracts see its UTF-8 bytes. A short one takes no memory besides.
#[derive(Debug, Drop)]
pub struct Text {
    form: Form,
}

/// Where the bytes of a text stand.
#[derive(Debug, Drop)]
enum Form {
    Short(ArrayString<SHORT_TEXT>),
    Long(String),
}

impl Model for Text {
    ghost use Rattle.std.specs.Prelude.{List, ℕ};
    ghost use Rattle.sd_base.specs.inside.Texts.{bytes_of};

    ghost Value = { List ℕ };

    ghost view = { λ t. bytes_of t.form };
}

impl Text {
    /// Takes a text as it is, without memory.
    pub fn new(text: String) -> Text
        ensures { result ≡ string_bytes text }
    {
        Text {
            form: Form::Long(text),
        }
    }

    /// A text of the same bytes. Cost: linear in them.
    pub fn of(alloc: Global, text: &str) -> Result<Text, AllocError>
        ensures { IfOk result (λ t. t ≡ text.now) }
    {
        let form = if text.len() <= SHORT_TEXT {
            let mut short = ArrayString::new();
            short.push_str(text);
            Form::Short(short)
        } else {
            Form::Long(String::from_str(alloc, text)?)
        };
        Ok(Text { form })
    }

    /// Gives the string back, without memory. A short text that was copied has none and comes back whole.
    pub fn into_string(self) -> Result<String, Text>
        ensures { MatchResult result (λ s. string_bytes s ≡ self) (λ t. (t ≡ self) × (length self ≤ SHORT_TEXT)) }
    {
        if let Form::Short(text) = &self.form {
            // That it is within the bound is its type's invariant, which only its calls tell.
            let _length = text.len();
        }
        match self {
            Text {
                form: Form::Long(text),
            } => Ok(text),
            short => Err(short),
        }
    }

    /// The characters, without a copy.
    pub fn as_str(&self) -> &str
        ensures { result.now ≡ self.now }
    {
        match &self.form {
            Form::Short(text) => text.as_str(),
            Form::Long(text) => text.as_str(),
        }
    }

    /// The same text again. Cost: linear in its bytes.
    pub fn copy(&self, alloc: Global) -> Result<Text, AllocError>
        ensures { IfOk result (λ t. t ≡ self.now) }
    {
        Text::of(alloc, self.as_str())
    }

    /// Whether both are the same bytes.
    pub fn is_same(&self, other: &Text) -> bool
        ensures { IsTrue result ↔ (self.now ≡ other.now) }
    {
        self.as_str() == other.as_str()
    }
}
