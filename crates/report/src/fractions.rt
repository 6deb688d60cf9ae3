ghost use Rattle.std.specs.Prelude.{◌≡◌, ◌≤◌, ◌++◌, OnOk};
ghost use Rattle.std.specs.String.{string_bytes};
ghost use Rattle.report.specs.FractionTexts.{fraction_text, lowest_text};

use sd_base::Fraction;
use std::alloc::AllocError;

/// Puts the fraction n/d in lowest terms at the end of a text.
pub(crate) fn put_lowest(text: &mut String, n: u64, d: u64) -> Result<(), AllocError>
    requires { 1 ≤ d }
    ensures { OnOk result (string_bytes text.new ≡ string_bytes text.old ++ lowest_text n d) }
{
    put_fraction(text, Fraction::new(n, d))
}

#[tactic(auto, unfolding(crate::specs::FractionTexts::fraction_text))]
pub(crate) fn put_fraction(text: &mut String, fraction: Fraction) -> Result<(), AllocError>
    ensures { OnOk result (string_bytes text.new ≡ string_bytes text.old ++ fraction_text fraction.num fraction.den) }
{
    let num = fraction.num();
    let den = fraction.den();
    write!(text, "{num}/{den}")
}
