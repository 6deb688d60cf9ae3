//! The starts of an execution, collected as it goes.
ghost use Rattle.std.specs.Prelude.{◌≡◌, ℕ, ◌+◌, ◌-◌, ◌≤◌, ◌<◌, ◌++◌, OnOk, length, replicate};
ghost use Rattle.sd_base.specs.Schedules.{count_of};
ghost use Rattle.sd_base.specs.SelfTimed.{earliest};
ghost use Rattle.selftimed.specs.declared.engine.Stage.TheVariants.{Running};
ghost use Rattle.event_loops.specs.inside.Collecting.{AddsStarts};

use firing::Firing;
use sd_base::{NoMemory, Rows};
use selftimed::Engine;

/// Adds the starts of the last event to the actors' rows, which have all those before it. Cost: linear in these starts.
pub(crate) fn add_starts<F: Firing>(
    engine: &Engine<F>,
    starts: &mut [Rows<u64>],
) -> Result<(), NoMemory>
    requires running { engine.now.stage ≡ Running }
    requires rows { length starts.old ≡ length (F.net engine.now.net.now).times }
    requires before { (a : ℕ) → a < length (F.net engine.now.net.now).times →
        count_of starts.old a ≡ count_of (earliest (F.net engine.now.net.now) engine.now.moment) a }
    requires fewer { (a : ℕ) → a < length (F.net engine.now.net.now).times →
        count_of starts.old a ≤ count_of (earliest (F.net engine.now.net.now) (engine.now.moment + 1)) a }
    ensures { OnOk result (AddsStarts (F.net engine.now.net.now) engine.now.moment starts.old starts.new) }
{
    let starters = engine.starters();
    let moment = engine.moment();
    for actor in starters {
        let count = engine.started(*actor);
        fill(&mut starts[*actor as usize], count, moment)?;
    }
    Ok(())
}

/// Lengthens a row to a number of starts by starts at a moment.
fn fill(row: &mut Rows<u64>, count: u64, moment: u64) -> Result<(), NoMemory>
    requires { length row.old ≤ count }
    ensures { OnOk result (row.new ≡ row.old ++ replicate (count - length row.old) moment) }
{
    for _start in row.len() as u64..count {
        row.push(moment)?;
    }
    Ok(())
}
