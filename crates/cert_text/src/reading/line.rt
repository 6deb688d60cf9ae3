ghost use Rattle.std.specs.Prelude.{◌≡◌, ◌++◌, ◌∷◌, [], ◌<◌, ◌≤◌, ◌^◌, ◌/◌, ◌==◌, IfOk, IfErr, OnOk, MatchResult, IsTrue, count_by, length, min};
ghost use Rattle.std.specs.Fmt.{decimal};
ghost use Rattle.cert_text.specs.declared.reading.fault.Fault.TheVariants.{Large};
ghost use Rattle.cert_text.specs.Digits.{IsNumeral};
ghost use Rattle.cert_text.specs.Fields.{behind, ended, limited, number_in, number_value, worded_in};
ghost use Rattle.cert_text.specs.LineForms.{limited_long, limited_short, same};

use crate::reading::digits::{digits_before, is_numeral, value_of};
use crate::reading::fault::Fault;

/// What is left of a line, with its line feed.
#[derive(Clone, Copy)]
pub(crate) struct Line<'a> {
    pub(crate) rest: &'a [u8],
}

impl<'a> Line<'a> {
    /// Passes a word.
    pub(crate) fn word(&mut self, word: &[u8]) -> Result<(), Fault>
        ensures text { OnOk result (self.old.rest.now ≡ word.now ++ self.new.rest.now) }
        ensures exact { MatchResult result (λ _. behind word.now self.old.rest.now ≡ Ok self.new.rest.now) (λ e. behind word.now self.old.rest.now ≡ Err e) }
    {
        if self.rest.len() < word.len() {
            return Err(Fault::Form);
        }
        let (front, rest) = self.rest.split_at(word.len());
        if front != word {
            return Err(Fault::Form);
        }
        self.rest = rest;
        Ok(())
    }

    /// Passes the digits of a number.
    pub(crate) fn digits(&mut self) -> Result<&'a [u8], Fault>
        ensures text { IfOk result (λ d. (self.old.rest.now ≡ d.now ++ self.new.rest.now) × IsNumeral d.now × (length self.new.rest.now < length self.old.rest.now)) }
        ensures exact { MatchResult result (λ d. number_in self.old.rest.now ≡ Ok (number_value d.now, self.new.rest.now)) (λ e. number_in self.old.rest.now ≡ Err e) }
    {
        let (digits, rest) = self.rest.split_at(digits_before(self.rest));
        if !is_numeral(digits) {
            return Err(Fault::Form);
        }
        self.rest = rest;
        Ok(digits)
    }

    /// Passes a word, and the digits of the number behind it.
    #[tactic(auto, unfolding(crate::specs::Fields::worded_in))]
    pub(crate) fn worded(&mut self, word: &[u8]) -> Result<&'a [u8], Fault>
        ensures text { IfOk result (λ d. self.old.rest.now ≡ word.now ++ (d.now ++ self.new.rest.now)) }
        ensures numeral { IfOk result (λ d. IsNumeral d.now × (length self.new.rest.now < length self.old.rest.now)) }
        ensures exact { MatchResult result (λ d. worded_in word.now self.old.rest.now ≡ Ok (number_value d.now, self.new.rest.now)) (λ e. worded_in word.now self.old.rest.now ≡ Err e) }
    {
        self.word(word)?;
        self.digits()
    }

    /// How many spaces are left, up to one for each two bytes, since a number stands behind each in a line of its form.
    pub(crate) fn spaces(&self) -> usize
        ensures { result ≡ min (count_by (λ b. b == 32) self.now.rest.now) (length self.now.rest.now / 2) }
    {
        let spaces = self.rest.iter().filter(|byte| **byte == b' ').count();
        spaces.min(self.rest.len() / 2)
    }

    /// Whether just this is left.
    pub(crate) fn is(&self, text: &[u8]) -> bool
        ensures text { IsTrue result → self.now.rest.now ≡ text.now }
        ensures exact { result ≡ same self.now.rest.now text.now }
    {
        self.rest == text
    }

    /// Nothing but the line feed is left.
    pub(crate) fn end(&self) -> Result<(), Fault>
        ensures text { OnOk result (self.now.rest.now ≡ 10 ∷ []) }
        ensures exact { MatchResult result (λ _. ended self.now.rest.now ≡ Ok []) (λ e. ended self.now.rest.now ≡ Err e) }
    {
        match self.rest {
            [b'\n'] => Ok(()),
            _ => Err(Fault::Form),
        }
    }
}

/// The number that digits spell, up to a limit.
pub(crate) fn within(digits: &[u8], limit: u128) -> Result<u128, Fault>
    requires { IsNumeral digits.now }
    ensures text { IfOk result (λ n. (digits.now ≡ decimal n) × (n ≤ limit)) }
    ensures exact { result ≡ limited limit (number_value digits.now) }
    ensures large { IfErr result (λ e. e ≡ Large) }
{
    match value_of(digits, limit) {
        Some(number) => Ok(number),
        None => Err(Fault::Large),
    }
}

/// The number of 64 bits that digits spell.
pub(crate) fn long(digits: &[u8]) -> Result<u64, Fault>
    requires { IsNumeral digits.now }
    ensures text { IfOk result (λ n. digits.now ≡ decimal n) }
    ensures exact { result ≡ limited_long (number_value digits.now) }
    ensures large { IfErr result (λ e. e ≡ Large) }
{
    let number = within(digits, u64::MAX as u128)?;
    Ok(number as u64)
}

/// The number of 32 bits that digits spell.
pub(crate) fn short(digits: &[u8]) -> Result<u32, Fault>
    requires { IsNumeral digits.now }
    ensures text { IfOk result (λ n. digits.now ≡ decimal n) }
    ensures exact { result ≡ limited_short (number_value digits.now) }
    ensures large { IfErr result (λ e. e ≡ Large) }
{
    let number = within(digits, u32::MAX as u128)?;
    Ok(number as u32)
}
