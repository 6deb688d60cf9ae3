ghost use Rattle.std.specs.Prelude.{◌≡◌, ℕ, ◌<◌, ◌≤◌, IfSome, MatchOption, length, slice_index};
ghost use Rattle.std.specs.List.{position_or_len};
ghost use Rattle.std.specs.Fmt.{decimal};
ghost use Rattle.cert_text.specs.Digits.{IsDigit, IsNumeral};
ghost use Rattle.cert_text.specs.Fields.{is_numeral, is_other, number_value};

/// How many decimal digits a text begins with.
pub(crate) fn digits_before(text: &[u8]) -> usize
    ensures within { result ≤ length text.now }
    ensures digits { (k : ℕ) → k < result → IsDigit (slice_index text.now k) }
    ensures place { result ≡ position_or_len is_other text.now }
{
    for (i, byte) in text.iter().enumerate() {
        if *byte < b'0' || *byte > b'9' {
            return i;
        }
    }
    text.len()
}

/// Whether digits are some, without leading zeros.
#[tactic(auto, unfolding(crate::specs::Fields::is_numeral))]
pub(crate) fn is_numeral(digits: &[u8]) -> bool
    ensures { result ≡ is_numeral digits.now }
{
    match digits {
        [] => false,
        [_] => true,
        [first, _, ..] => *first != b'0',
    }
}

/// The number that digits spell, if it is at most a limit.
pub(crate) fn value_of(digits: &[u8], limit: u128) -> Option<u128>
    requires { IsNumeral digits.now }
    ensures text { IfSome result (λ n. (digits.now ≡ decimal n) × (n ≤ limit)) }
    ensures exact { MatchOption result (limit < number_value digits.now) (λ n. n ≡ number_value digits.now) }
{
    let mut number: u128 = 0;
    for byte in digits {
        let digit = u128::from(*byte - b'0');
        if digit > limit || number > (limit - digit) / 10 {
            return None;
        }
        number = number * 10 + digit;
    }
    Some(number)
}
