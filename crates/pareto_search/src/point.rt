//! Points of what was told.
ghost use Rattle.std.specs.Prelude.{◌≡◌, ◌<◌, All, Contains, IfOk, Some, length, slice_get};
ghost use Rattle.walks.specs.declared.telling.Telling.{Telling as ATelling};
ghost use Rattle.pareto_search.specs.declared.known.Looped.{Looped as ALooped};
ghost use Rattle.pareto_search.specs.inside.Knowledge.{IsKept, IsLooped};
ghost use Rattle.pareto_search.specs.inside.Turns.{IsPointOf};

use crate::evaluating::Ground;
use crate::grid::distribution_of;
use crate::known::{Known, Looped};
use crate::searching::Due;
use firing::{Firing, LoopTable};
use pareto_front::Point;
use sd_base::NoMemory;

/// The point of the telling at a place, whose loop is taken out. Cost: linear in the channels and in the loops.
pub(crate) fn point_at<F: Firing>(
    base: &Ground<F>,
    due: Due,
    place: usize,
    known: &mut Known,
) -> Result<Point, NoMemory>
    requires place { place < length known.old.tellings.items }
    requires kept { IsKept known.old.loops.items place }
    requires loops { All (IsLooped (F.net base.now.exploring.now.net.now) base.now.exploring.now.limits.states base.now.corner.now.capacities known.old.tellings.items) known.old.loops.items }
    ensures point { IfOk result (λ p. (t : ATelling) → slice_get known.old.tellings.items place ≡ Some t → IsPointOf (F.net base.now.exploring.now.net.now) base.now.exploring.now.limits.states base.now.corner.now.capacities due.total t p) }
    ensures tellings { known.new.tellings ≡ known.old.tellings }
{
    let telling = &known.tellings[place];
    let rate = telling.rate;
    let capacities = distribution_of(
        base.exploring.alloc,
        base.corner,
        telling.capacities.as_slice(),
    )?;
    let table = take_loop(&mut known.loops, place);
    Ok(Point {
        total: due.total,
        rate,
        capacities,
        table,
    })
}

/// Takes the loop of the telling at a place out.
fn take_loop(loops: &mut Vec<Looped>, place: usize) -> LoopTable
    requires { IsKept loops.old.items place }
    ensures { (l : ALooped) × Contains loops.old.items l × (l.place ≡ place) × (l.table ≡ result) }
{
    let mut at = 0;
    while loops[at].place != place {
        at += 1;
    }
    let Looped { place: _, table } = loops.swap_remove(at);
    table
}
