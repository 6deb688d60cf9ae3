ghost use Rattle.std.specs.Prelude.{◌≡◌, ◌++◌, OnOk, All};
ghost use Rattle.cert_text.specs.Limits.{IsLong, IsRateWithin};
ghost use Rattle.std.specs.String.{string_bytes};
ghost use Rattle.std.specs.List.{flat_map};
ghost use Rattle.cert_text.specs.NumberLines.{cycles_line, limit_line, members_line, numbers_line, overlap_line, points_line, potentials_line, rate_line, spaced, version_line};

use std::alloc::AllocError;

#[tactic(auto, unfolding(crate::specs::NumberLines::version_line))]
pub(crate) fn put_version(text: &mut String, version: u32) -> Result<(), AllocError>
    ensures { OnOk result (string_bytes text.new ≡ string_bytes text.old ++ version_line version) }
{
    write!(text, "sdf3-certificate {version}\n")
}

#[tactic(auto, unfolding(crate::specs::NumberLines::overlap_line))]
pub(crate) fn put_overlap(text: &mut String, no_overlap: bool) -> Result<(), AllocError>
    ensures { OnOk result (string_bytes text.new ≡ string_bytes text.old ++ overlap_line no_overlap) }
{
    if no_overlap {
        text.push_str("no-overlap yes\n")
    } else {
        text.push_str("no-overlap no\n")
    }
}

#[tactic(auto, unfolding(crate::specs::NumberLines::rate_line))]
pub(crate) fn put_rate(text: &mut String, rate: (u64, u64)) -> Result<(), AllocError>
    ensures text { OnOk result (string_bytes text.new ≡ string_bytes text.old ++ rate_line rate) }
    ensures within { IsRateWithin rate }
{
    let (num, den) = rate;
    write!(text, "rate {num}/{den}\n")
}

#[tactic(auto, unfolding(crate::specs::NumberLines::limit_line))]
pub(crate) fn put_limit(text: &mut String, limit: u64) -> Result<(), AllocError>
    ensures text { OnOk result (string_bytes text.new ≡ string_bytes text.old ++ limit_line limit) }
    ensures within { IsLong limit }
{
    write!(text, "limit {limit}\n")
}

#[tactic(auto, unfolding(crate::specs::NumberLines::cycles_line))]
pub(crate) fn put_cycles_line(text: &mut String, number: usize) -> Result<(), AllocError>
    ensures text { OnOk result (string_bytes text.new ≡ string_bytes text.old ++ cycles_line number) }
    ensures within { IsLong number }
{
    write!(text, "cycles {number}\n")
}

#[tactic(auto, unfolding(crate::specs::NumberLines::members_line))]
pub(crate) fn put_members_line(text: &mut String, number: usize) -> Result<(), AllocError>
    ensures text { OnOk result (string_bytes text.new ≡ string_bytes text.old ++ members_line number) }
    ensures within { IsLong number }
{
    write!(text, "members {number}\n")
}

#[tactic(auto, unfolding(crate::specs::NumberLines::points_line))]
pub(crate) fn put_points_line(text: &mut String, number: usize) -> Result<(), AllocError>
    ensures text { OnOk result (string_bytes text.new ≡ string_bytes text.old ++ points_line number) }
    ensures within { IsLong number }
{
    write!(text, "points {number}\n")
}

#[tactic(auto, unfolding(crate::specs::NumberLines::potentials_line))]
pub(crate) fn put_potentials_line(text: &mut String, number: usize) -> Result<(), AllocError>
    ensures text { OnOk result (string_bytes text.new ≡ string_bytes text.old ++ potentials_line number) }
    ensures within { IsLong number }
{
    write!(text, "potentials {number}\n")
}

/// Puts the starts of an actor.
#[tactic(auto, unfolding(crate::specs::NumberLines::numbers_line))]
pub(crate) fn put_starts(text: &mut String, starts: &[u128]) -> Result<(), AllocError>
    ensures { OnOk result (string_bytes text.new ≡ string_bytes text.old ++ numbers_line starts.now) }
{
    match starts {
        [] => text.push_str("\n"),
        [first, rest @ ..] => {
            write!(text, "{first}")?;
            put_more_starts(text, rest)?;
            text.push_str("\n")
        }
    }
}

fn put_more_starts(text: &mut String, starts: &[u128]) -> Result<(), AllocError>
    ensures { OnOk result (string_bytes text.new ≡ string_bytes text.old ++ flat_map spaced starts.now) }
{
    for start in starts {
        put_spaced(text, *start)?;
    }
    Ok(())
}

/// Puts the firings of each actor.
#[tactic(auto, unfolding(crate::specs::NumberLines::numbers_line))]
pub(crate) fn put_counts(text: &mut String, counts: &[u64]) -> Result<(), AllocError>
    ensures text { OnOk result (string_bytes text.new ≡ string_bytes text.old ++ numbers_line counts.now) }
    ensures within { OnOk result (All IsLong counts.now) }
{
    match counts {
        [] => text.push_str("\n"),
        [first, rest @ ..] => {
            write!(text, "{first}")?;
            put_more_counts(text, rest)?;
            text.push_str("\n")
        }
    }
}

fn put_more_counts(text: &mut String, counts: &[u64]) -> Result<(), AllocError>
    ensures text { OnOk result (string_bytes text.new ≡ string_bytes text.old ++ flat_map spaced counts.now) }
    ensures within { OnOk result (All IsLong counts.now) }
{
    for count in counts {
        put_spaced(text, u128::from(*count))?;
    }
    Ok(())
}

/// Puts a number after a space.
#[tactic(auto, unfolding(crate::specs::NumberLines::spaced))]
pub(crate) fn put_spaced(text: &mut String, number: u128) -> Result<(), AllocError>
    ensures { OnOk result (string_bytes text.new ≡ string_bytes text.old ++ spaced number) }
{
    write!(text, " {number}")
}
