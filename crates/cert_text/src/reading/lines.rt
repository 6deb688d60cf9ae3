ghost use Rattle.std.specs.Prelude.{◌≡◌, ◌≢◌, ℕ, ◌+◌, ◌-◌, ◌<◌, ◌≤◌, ◌++◌, [], ◌∷◌, IfOk, MatchResult, length, slice_index};
ghost use Rattle.cert_text.specs.declared.reading.fault.Fault.TheVariants.{Form};
ghost use Rattle.cert_text.specs.Fields.{is_digit};
ghost use Rattle.cert_text.specs.Reads.{lines_of};
ghost use Rattle.cert_text.specs.Sections.{at_digit, begins_with_digit};

use crate::reading::fault::Fault;
use crate::reading::line::Line;

/// The lines that are left of a text. After a fault it is what stands behind the faulty line.
#[derive(Drop)]
pub(crate) struct Lines<'a> {
    pub(crate) rest: &'a [u8],
}

impl<'a> Lines<'a> {
    /// The next line, with its line feed; the last one may lack it.
    pub(crate) fn next(&mut self) -> Result<Line<'a>, Fault>
        ensures text { IfOk result (λ l. (self.old.rest.now ≡ l.rest.now ++ self.new.rest.now) × (0 < length l.rest.now)) }
        ensures exact { MatchResult result (λ l. lines_of self.old.rest.now ≡ l.rest.now ∷ lines_of self.new.rest.now) (λ e. (e ≡ Form) × (lines_of self.old.rest.now ≡ []) × (lines_of self.new.rest.now ≡ [])) }
    {
        if self.rest.is_empty() {
            return Err(Fault::Form);
        }
        let (line, rest) = self.rest.split_at(first_line(self.rest));
        self.rest = rest;
        Ok(Line { rest: line })
    }

    /// Whether the next line begins with a digit.
    pub(crate) fn is_at_number(&self) -> bool
        ensures { result ≡ at_digit (lines_of self.now.rest.now) }
    {
        begins_with_digit(self.rest)
    }
}

fn begins_with_digit(text: &[u8]) -> bool
    ensures { result ≡ begins_with_digit text.now }
{
    match text {
        [byte, ..] => is_digit(*byte),
        [] => false,
    }
}

fn is_digit(byte: u8) -> bool
    ensures { result ≡ is_digit byte }
{
    byte >= b'0' && byte <= b'9'
}

/// The length of the first line of a text that has some.
fn first_line(text: &[u8]) -> usize
    requires { 0 < length text.now }
    ensures some { 0 < result }
    ensures within { result ≤ length text.now }
    ensures before { (k : ℕ) → k + 1 < result → slice_index text.now k ≢ 10 }
    ensures closed { result < length text.now → slice_index text.now (result - 1) ≡ 10 }
{
    for (i, byte) in text.iter().enumerate() {
        if *byte == b'\n' {
            return i + 1;
        }
    }
    text.len()
}
