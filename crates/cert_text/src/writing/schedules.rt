ghost use Rattle.std.specs.Prelude.{◌≡◌, ◌++◌, IfErr, OnOk};
ghost use Rattle.cert_text.specs.Limits.{IsLong, IsScheduleWithin};
ghost use Rattle.std.specs.String.{string_bytes};
ghost use Rattle.std.specs.List.{flat_map};
ghost use Rattle.cert_text.specs.NumberLines.{numbers_line};
ghost use Rattle.cert_text.specs.Overlong.{GivesUp};
ghost use Rattle.cert_text.specs.ScheduleLines.{schedule_header, schedule_lines};

use crate::error::CertError;
use crate::writing::limit::keep_within;
use crate::writing::numbers::put_starts;
use periodic::Periodic;
use sd_base::Rows;
use std::alloc::AllocError;

/// Puts the lines of a schedule.
#[tactic(auto, unfolding(crate::specs::ScheduleLines::schedule_lines))]
pub(crate) fn put_schedule(text: &mut String, schedule: &Periodic) -> Result<(), CertError>
    ensures text { OnOk result (string_bytes text.new ≡ string_bytes text.old ++ schedule_lines schedule.now) }
    ensures long { IfErr result (GivesUp (string_bytes text.old) (schedule_lines schedule.now)) }
    ensures within { OnOk result (IsScheduleWithin schedule.now) }
{
    put_header(text, schedule.period, schedule.rounds)?;
    put_actors(text, schedule.starts.as_slice())
}

fn put_actors(text: &mut String, starts: &[Rows<u128>]) -> Result<(), CertError>
    ensures text { OnOk result (string_bytes text.new ≡ string_bytes text.old ++ flat_map numbers_line starts.now) }
    ensures long { IfErr result (GivesUp (string_bytes text.old) (flat_map numbers_line starts.now)) }
{
    for row in starts {
        put_starts(text, row.as_slice())?;
        keep_within(text)?;
    }
    Ok(())
}

#[tactic(auto, unfolding(crate::specs::ScheduleLines::schedule_header))]
fn put_header(text: &mut String, period: u64, rounds: u64) -> Result<(), AllocError>
    ensures text { OnOk result (string_bytes text.new ≡ string_bytes text.old ++ schedule_header period rounds) }
    ensures within { IsLong period × IsLong rounds }
{
    write!(text, "schedule {period} {rounds}\n")
}
