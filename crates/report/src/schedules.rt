ghost use Rattle.std.specs.Prelude.{◌≡◌, ◌++◌, OnOk, length};
ghost use Rattle.std.specs.String.{string_bytes};
ghost use Rattle.report.specs.ScheduleTexts.{schedule_header, schedule_lines, starts_line};

use crate::numbers::{ROOM, put_spaced};
use escapes::put_escaped;
use periodic::Periodic;
use sd_base::GraphFile;
use std::alloc::AllocError;

/// Puts the lines of a schedule at the end of a text: `schedule P r` with its period and rounds, then for
/// each actor its name and its starts.
pub(crate) fn put_schedule(
    text: &mut String,
    graph: &GraphFile,
    schedule: &Periodic,
) -> Result<(), AllocError>
    requires { length schedule.now.starts ≡ length graph.now.actors }
    ensures { OnOk result (string_bytes text.new ≡ string_bytes text.old ++ schedule_lines graph.now schedule.now) }
{
    let actors = graph.actors.as_slice();
    let mut room = [0; ROOM];
    put_header(text, schedule.period, schedule.rounds)?;
    for (i, starts) in schedule.starts.as_slice().iter().enumerate() {
        put_starts(text, actors[i].name.as_str(), starts.as_slice(), &mut room)?;
    }
    Ok(())
}

#[tactic(auto, unfolding(crate::specs::ScheduleTexts::schedule_header))]
fn put_header(text: &mut String, period: u64, rounds: u64) -> Result<(), AllocError>
    ensures { OnOk result (string_bytes text.new ≡ string_bytes text.old ++ schedule_header period rounds) }
{
    write!(text, "schedule {period} {rounds}\n")
}

#[tactic(auto, unfolding(crate::specs::ScheduleTexts::starts_line))]
fn put_starts(
    text: &mut String,
    name: &str,
    starts: &[u128],
    room: &mut [u8; ROOM],
) -> Result<(), AllocError>
    ensures { OnOk result (string_bytes text.new ≡ string_bytes text.old ++ starts_line name.now starts.now) }
{
    put_escaped(text, name)?;
    put_spaced(text, starts, room)?;
    text.push_str("\n")
}
