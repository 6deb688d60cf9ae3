//! The starts of self-timed execution up to one of its events.
ghost use Rattle.std.specs.Prelude.{◌≡◌, ◌+◌, ◌≤◌, IfOk};
ghost use Rattle.sd_base.specs.declared.limits.TheConstants.{STARTS};
ghost use Rattle.sd_base.specs.Schedules.{HasInputs};
ghost use Rattle.sd_base.specs.SelfTimed.{IsEvent, earliest, starts_by};
ghost use Rattle.sd_base.specs.Untimed.{IsLive};

use crate::collect::add_starts;
use crate::steps::next_event;
use firing::{Firing, Wired};
use loops::empty_rows;
use sd_base::limits::STARTS;
use sd_base::{NoMemory, Rows};
use selftimed::Engine;
use std::alloc::Global;

/// By actor the starts of self-timed execution up to and with one of its events. Cost: an execution up to there.
pub fn starts_until<F: Firing>(
    alloc: Global,
    wired: &Wired<F>,
    event: u64,
) -> Result<Vec<Rows<u64>>, NoMemory>
    requires live { IsLive (F.net wired.now.net.now) }
    requires inputs { HasInputs (F.net wired.now.net.now) }
    requires event { IsEvent (F.net wired.now.net.now) event }
    requires few { starts_by (F.net wired.now.net.now) event ≤ STARTS }
    ensures { IfOk result (λ rows. rows.items ≡ earliest (F.net wired.now.net.now) (event + 1)) }
{
    let mut engine = Engine::of_wired(alloc, wired, STARTS)?;
    let mut rows = empty_rows(alloc, wired.net)?;
    next_event(&mut engine)?;
    add_starts(&engine, rows.as_mut_slice())?;
    'events: while engine.moment() < event {
        next_event(&mut engine)?;
        add_starts(&engine, rows.as_mut_slice())?;
    }
    Ok(rows)
}
