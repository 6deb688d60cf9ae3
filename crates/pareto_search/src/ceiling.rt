//! How it is seen that no distribution has a greater rate than what is due.
ghost use Rattle.std.specs.Prelude.{◌≡◌, ◌*◌, ◌<◌, ℕ, true, All, Contains, IfOk, IfSome, OnOk, length};
ghost use Rattle.sd_base.specs.declared.numbers.Fraction.{Fraction as AFraction};
ghost use Rattle.lasso.specs.LoopAnswers.{IsFound};
ghost use Rattle.storage.specs.BoundedNets.{bound};
ghost use Rattle.pareto_search.specs.inside.Ceilings.{BoundsAll};
ghost use Rattle.pareto_search.specs.inside.Grounds.{IsGround};
ghost use Rattle.pareto_search.specs.inside.Knowledge.{IsKnown, IsTold};
ghost use Rattle.pareto_search.specs.inside.Turns.{IsStanding};
ghost use Rattle.pareto_search.specs.inside.Vectors.{bounded_by};

use crate::evaluating::Ground;
use crate::grid::distribution_of;
use crate::known::{Known, Looped};
use crate::searching::{Searching, is_above};
use crate::unspaced::may_bound;
use covers::Bound;
use critical::laws::cycles_bound_the_rate;
use critical::{NeedCycle, cycle_without_spaces};
use firing::{Firing, LoopTable, Wired, know_laws};
use sd_base::{Fraction, NoMemory, Rows};
use std::cmp::Ordering;
use storage::Bounded;
use walks::Telling;

/// Where the greatest rate so far is above an earlier one, and a need cycle on no free space has it, no distribution of whatever
/// storage has a greater rate: then a bound on no channel is kept, which covers all. That one has it where no distribution has a
/// greater rate isn't promised. Cost: that of `cycle_without_spaces`, and linear in the loops.
pub(crate) fn keep_ceiling<F: Firing>(
    base: &Ground<F>,
    earlier: Fraction,
    searching: &mut Searching,
) -> Result<(), NoMemory>
    requires stands { IsGround (F.net base.now.exploring.now.net.now) base.now.exploring.now.limits base.now.corner.now.capacities base.now.lattice.now }
    requires standing { (floor : ℕ) × IsStanding (F.net base.now.exploring.now.net.now) base.now.exploring.now.limits base.now.corner.now.capacities base.now.lattice.now floor searching.old }
    ensures standing { OnOk result ((floor : ℕ) → IsStanding (F.net base.now.exploring.now.net.now) base.now.exploring.now.limits base.now.corner.now.capacities base.now.lattice.now floor searching.old →
        IsStanding (F.net base.now.exploring.now.net.now) base.now.exploring.now.limits base.now.corner.now.capacities base.now.lattice.now floor searching.new) }
    ensures known { searching.new.known ≡ searching.old.known }
{
    let rate = searching.greatest();
    if !is_above(rate, earlier) {
        return Ok(());
    }
    if !may_bound(base.exploring.net, rate) {
        return Ok(());
    }
    if is_greatest(base, &searching.known, rate)? {
        let caps = Rows::new(base.exploring.alloc);
        searching.bounds.add(Bound { caps, rate })?;
    }
    Ok(())
}

/// Whether the loop of what was told with this rate has a need cycle on no free space with it.
fn is_greatest<F: Firing>(base: &Ground<F>, known: &Known, rate: Fraction) -> Result<bool, NoMemory>
    requires stands { IsGround (F.net base.now.exploring.now.net.now) base.now.exploring.now.limits base.now.corner.now.capacities base.now.lattice.now }
    requires known { (best : AFraction) × IsKnown (F.net base.now.exploring.now.net.now) base.now.exploring.now.limits base.now.corner.now.capacities base.now.lattice.now best known.now }
    ensures { IfOk result (λ greatest. greatest ≡ true → BoundsAll (F.net base.now.exploring.now.net.now) rate) }
{
    let Some(looped) = loop_of(known, rate) else {
        return Ok(false);
    };
    has_cycle(base, &known.tellings[looped.place], &looped.table, rate)
}

/// The loop of what was told with this rate, if one is kept. Cost: linear in the loops.
fn loop_of(known: &Known, rate: Fraction) -> Option<&Looped>
    requires { All (λ l. l.place < length known.now.tellings.items) known.now.loops.items }
    ensures { IfSome result (λ l. Contains known.now.loops.items l.now) }
{
    for looped in known.loops.as_slice() {
        let told = known.tellings[looped.place].rate;
        if matches!(told.compare(&rate), Ordering::Equal) {
            return Some(looped);
        }
    }
    None
}

/// Whether the loop of a telling has a need cycle on no free space with this rate.
fn has_cycle<F: Firing>(
    base: &Ground<F>,
    telling: &Telling,
    table: &LoopTable,
    rate: Fraction,
) -> Result<bool, NoMemory>
    requires stands { IsGround (F.net base.now.exploring.now.net.now) base.now.exploring.now.limits base.now.corner.now.capacities base.now.lattice.now }
    requires told { IsTold (F.net base.now.exploring.now.net.now) base.now.exploring.now.limits base.now.corner.now.capacities base.now.lattice.now telling.now }
    requires found { IsFound (bound (F.net base.now.exploring.now.net.now) (bounded_by base.now.corner.now.capacities telling.now.capacities)) base.now.exploring.now.limits.states table.now }
    ensures { IfOk result (λ has. has ≡ true → BoundsAll (F.net base.now.exploring.now.net.now) rate) }
{
    know_laws(base.exploring.net);
    cycles_bound_the_rate();
    let alloc = base.exploring.alloc;
    let capacities = distribution_of(alloc, base.corner, telling.capacities.as_slice())?;
    let bounded = Bounded::new(alloc, base.exploring.net, &capacities)?;
    let wired = Wired {
        net: &bounded,
        wiring: base.exploring.wiring,
    };
    match cycle_without_spaces(alloc, &wired, table)? {
        Some(cycle) => Ok(is_bound(&cycle, rate)),
        None => Ok(false),
    }
}

/// Whether the bound of a need cycle is a rate.
fn is_bound(cycle: &NeedCycle, rate: Fraction) -> bool
    ensures { result ≡ true → cycle.now.rounds * rate.den ≡ rate.num * cycle.now.time }
{
    u128::from(cycle.rounds) * u128::from(rate.den) == u128::from(rate.num) * u128::from(cycle.time)
}
