ghost use Rattle.std.specs.Prelude.{◌≡◌, ◌++◌, IfErr, OnOk};
ghost use Rattle.cert_text.specs.Limits.{IsLong, IsPointWithin, IsRateWithin};
ghost use Rattle.std.specs.String.{string_bytes};
ghost use Rattle.cert_text.specs.Overlong.{GivesUp};
ghost use Rattle.cert_text.specs.MemberLines.{point_line, point_lines};

use crate::certificates::PointLine;
use crate::error::CertError;
use crate::writing::schedules::put_schedule;
use std::alloc::AllocError;

/// Puts the lines of a point.
#[tactic(auto, unfolding(crate::specs::MemberLines::point_lines))]
pub(crate) fn put_point(text: &mut String, point: &PointLine) -> Result<(), CertError>
    ensures text { OnOk result (string_bytes text.new ≡ string_bytes text.old ++ point_lines point.now) }
    ensures long { IfErr result (GivesUp (string_bytes text.old) (point_lines point.now)) }
    ensures within { OnOk result (IsPointWithin point.now) }
{
    put_header(text, point.total, point.rate, point.member)?;
    put_schedule(text, &point.schedule)
}

#[tactic(auto, unfolding(crate::specs::MemberLines::point_line))]
fn put_header(
    text: &mut String,
    total: u64,
    rate: (u64, u64),
    member: u64,
) -> Result<(), AllocError>
    ensures text { OnOk result (string_bytes text.new ≡ string_bytes text.old ++ point_line total rate member) }
    ensures within { IsLong total × IsRateWithin rate × IsLong member }
{
    let (num, den) = rate;
    write!(text, "point {total} {num}/{den} {member}\n")
}
