ghost use Rattle.std.specs.Prelude.{ℕ, ◌≡◌, ◌==◌, ◌*◌, ◌≤◌, MatchOption};
ghost use Rattle.std.specs.Ordering.{nat_cmp};
ghost use Rattle.std.specs.Int.{IsGcd};
ghost use Rattle.sd_base.specs.Numbers.{IsLcm, IsAboveLimit};

use std::cmp::Ordering;

/// The greatest common divisor; `gcd(0, 0)` is 0. Cost: that of `gcd_wide`.
pub fn gcd(a: u64, b: u64) -> u64
    ensures { IsGcd a b result }
{
    gcd_wide(u128::from(a), u128::from(b)) as u64
}

/// The greatest common divisor of wide numbers, by Euclid's algorithm: steps logarithmic in the lesser number.
pub fn gcd_wide(a: u128, b: u128) -> u128
    ensures { IsGcd a b result }
{
    let mut high = a;
    let mut low = b;
    'euclid: while low > 0 {
        let rest = high % low;
        high = low;
        low = rest;
    }
    high
}

/// The least common multiple, where it is at most `limit`. Cost: that of one `gcd`.
pub fn lcm_within(a: u64, b: u64, limit: u64) -> Option<u64>
    requires first { 1 ≤ a }
    requires second { 1 ≤ b }
    ensures { MatchOption result (IsAboveLimit a b limit) (λ m. IsLcm a b m × (m ≤ limit)) }
{
    let part = a / gcd(a, b);
    if part > limit / b {
        return None;
    }
    Some(part * b)
}

/// A fraction in lowest terms; zero is 0/1.
#[derive(Clone, Copy, Debug, PartialEq, Eq)]
pub struct Fraction {
    pub num: u64,
    pub den: u64,
    pub ghost positive: { 1 ≤ den },
    pub ghost lowest: { IsGcd num den 1 },
}

impl Fraction {
    /// The fraction n/d in lowest terms. Cost: that of one `gcd`.
    pub fn new(n: u64, d: u64) -> Fraction
        requires { 1 ≤ d }
        ensures same { result.num * d ≡ n * result.den }
        ensures common { (g : ℕ) × (n ≡ g * result.num) × (d ≡ g * result.den) }
    {
        let common = gcd(n, d);
        Fraction {
            num: n / common,
            den: d / common,
        }
    }

    /// The numerator: of a rate, the rounds.
    pub fn num(&self) -> u64
        ensures { result ≡ self.now.num }
    {
        self.num
    }

    /// The denominator, which is not 0: of a rate, the time units.
    pub fn den(&self) -> u64
        ensures { result ≡ self.now.den }
    {
        self.den
    }

    /// The order of the two numbers; the products are below 2^128.
    pub fn compare(&self, other: &Fraction) -> Ordering
        ensures { result ≡ nat_cmp (self.now.num * other.now.den) (other.now.num * self.now.den) }
    {
        let left = u128::from(self.num) * u128::from(other.den);
        let right = u128::from(other.num) * u128::from(self.den);
        left.cmp(&right)
    }

    /// Whether it is 0/1.
    pub fn is_zero(&self) -> bool
        ensures { result ≡ (self.now.num == 0) }
    {
        self.num == 0
    }
}
