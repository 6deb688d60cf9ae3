//! How the answers of a level become members.
ghost use Rattle.std.specs.Prelude.{◌≡◌, ◌+◌, ◌⊎◌, ◌++◌, ℕ, [], ◌∷◌, All, Option, List, IfErr, IfOk, OnOk, length, map, Contains};
ghost use Rattle.sd_base.specs.declared.limits.Limits.{Limits as SomeLimits};
ghost use Rattle.sd_base.specs.Net.{Net};
ghost use Rattle.pareto_front.specs.declared.point.Point.{Point as APoint};
ghost use Rattle.pareto_front.specs.Offers.{Offer};
ghost use Rattle.pareto_front.specs.Points.{IsFrontOf, offer_of};
ghost use Rattle.storage.specs.ClosedLists.{Entry};
ghost use Rattle.storage.specs.Distributions.{storage_of};
ghost use Rattle.guide.specs.Evaluations.{IsEvaluated, IsRefused};
ghost use Rattle.evaluations.specs.Evaluating.{least_loops, most_loops, sum_of};
ghost use Rattle.evaluations.specs.Rated.{IsRated};
ghost use Rattle.explore.specs.declared.exploration.Member.{Member as AMember};
ghost use Rattle.explore.specs.Explorations.{IsRefusal, capacities_of, cycles_in};
ghost use Rattle.explore.specs.Reachable.{IsReachable};
ghost use Rattle.sd_base.specs.declared.numbers.Fraction.{Fraction as AFraction};
ghost use Rattle.guide.specs.declared.rating.Evaluation.{Evaluation as AnEvaluation};
ghost use Rattle.explore.specs.inside.Members.{IsBest, evaluated_member, member_of};
ghost use Rattle.explore.specs.inside.Searches.{AreKnown, IsAnswerOf, IsExploring, IsMemberAdded, IsSearch, answered_of, entry_of, offers_at};

use crate::error::ExploreError;
use crate::exploration::Member;
use crate::search::Search;
use evaluations::{Answered, Exploring, Rated};
use firing::{Firing, LoopTable, know_laws};
use lasso::RunError;
use pareto_front::{Front, Point};
use sd_base::{Fraction, NoMemory};
use std::alloc::Global;
use storage::Distribution;

/// Takes in the answers of a level, one after another.
pub(crate) fn take_in_all<F: Firing>(
    exploring: &Exploring<F>,
    total: u64,
    answers: Vec<Answered>,
    search: &mut Search,
) -> Result<(), ExploreError>
    requires exploring { IsExploring (F.net exploring.now.net.now) exploring.now.starts.now exploring.now.limits }
    requires answers { (best : AFraction) × IsBest (F.net exploring.now.net.now) best total search.old.members.items × All (IsAnswerOf (F.net exploring.now.net.now) exploring.now.limits total best) answers.items }
    requires search { IsSearch (F.net exploring.now.net.now) exploring.now.limits (total + 1) (answered_of answers.items) search.old }
    ensures search { OnOk result (IsSearch (F.net exploring.now.net.now) exploring.now.limits (total + 1) [] search.new) }
    ensures capacities { OnOk result (capacities_of search.new.members.items ≡ capacities_of search.old.members.items ++ answered_of answers.items) }
    ensures many { OnOk result (length search.new.members.items ≡ length search.old.members.items + length answers.items) }
    ensures least { OnOk result (cycles_in search.new.members.items ≡ cycles_in search.old.members.items + sum_of least_loops answers.items) }
    ensures most { OnOk result (cycles_in search.new.members.items ≡ cycles_in search.old.members.items + sum_of most_loops answers.items) }
    ensures refused { IfErr result (IsRefusal (F.net exploring.now.net.now) exploring.now.limits) }
{
    for answered in answers {
        take_answer(exploring, total, answered, search)?;
    }
    Ok(())
}

/// Takes in one answer.
fn take_answer<F: Firing>(
    exploring: &Exploring<F>,
    total: u64,
    answered: Answered,
    search: &mut Search,
) -> Result<(), ExploreError>
    requires exploring { IsExploring (F.net exploring.now.net.now) exploring.now.starts.now exploring.now.limits }
    requires answer { (best : AFraction) × IsBest (F.net exploring.now.net.now) best total search.old.members.items × IsAnswerOf (F.net exploring.now.net.now) exploring.now.limits total best answered }
    requires search { (rest : List (List (Option ℕ))) × IsSearch (F.net exploring.now.net.now) exploring.now.limits (total + 1) (answered.capacities.capacities ∷ rest) search.old }
    ensures search { OnOk result ((rest : List (List (Option ℕ))) → IsSearch (F.net exploring.now.net.now) exploring.now.limits (total + 1) (answered.capacities.capacities ∷ rest) search.old →
        IsSearch (F.net exploring.now.net.now) exploring.now.limits (total + 1) rest search.new) }
    ensures member { OnOk result (IsMemberAdded answered search.old.members.items search.new.members.items) }
    ensures refused { IfErr result (IsRefusal (F.net exploring.now.net.now) exploring.now.limits) }
{
    let Answered { capacities, answer } = answered;
    match answer {
        Ok(rated) => {
            take_in(exploring, total, capacities, rated, search)?;
            Ok(())
        }
        Err(error) => Err(refusal(error, capacities)),
    }
}

/// Why a distribution ends the exploration.
fn refusal(error: RunError, at: Distribution) -> ExploreError
    ensures { (net : Net) (limits : SomeLimits) → IsReachable net limits.total at.capacities → IsRefused net at.capacities limits.states error → IsRefusal net limits result }
{
    match error {
        RunError::StatesSpent => ExploreError::StatesSpent { at },
        RunError::TooManyStarts => ExploreError::TooManyStarts { at },
        RunError::NoMemory => ExploreError::NoMemory,
    }
}

/// Takes in a member: those by which it leads on wait with its place for a hint, it is offered to the front, and it stands
/// last.
fn take_in<F: Firing>(
    exploring: &Exploring<F>,
    total: u64,
    capacities: Distribution,
    rated: Rated,
    search: &mut Search,
) -> Result<(), ExploreError>
    requires exploring { IsExploring (F.net exploring.now.net.now) exploring.now.starts.now exploring.now.limits }
    requires rated { (best : AFraction) × IsBest (F.net exploring.now.net.now) best total search.old.members.items × ((e : AnEvaluation) × IsEvaluated (F.net exploring.now.net.now) capacities.capacities exploring.now.limits.states e × IsRated best e rated) }
    requires total { storage_of (F.net exploring.now.net.now).channels capacities.capacities ≡ total }
    requires search { (rest : List (List (Option ℕ))) × IsSearch (F.net exploring.now.net.now) exploring.now.limits (total + 1) (capacities.capacities ∷ rest) search.old }
    ensures search { OnOk result ((rest : List (List (Option ℕ))) → IsSearch (F.net exploring.now.net.now) exploring.now.limits (total + 1) (capacities.capacities ∷ rest) search.old →
        IsSearch (F.net exploring.now.net.now) exploring.now.limits (total + 1) rest search.new) }
    ensures members { OnOk result (search.new.members.items ≡ search.old.members.items ++ member_of capacities rated ∷ []) }
    ensures refused { IfErr result (IsRefusal (F.net exploring.now.net.now) exploring.now.limits) }
{
    know_laws(exploring.net);
    let hint = Some(search.members.len());
    search.levels.lead_on(
        exploring.alloc,
        &capacities,
        total,
        rated.enlarge.as_slice(),
        hint,
    )?;
    let member = offered(exploring, total, capacities, rated, &mut search.front)?;
    search.members.push(member)?;
    Ok(())
}

/// The member that is made of what was kept of a distribution, which is offered to the front if its loop was kept.
fn offered<F: Firing>(
    exploring: &Exploring<F>,
    total: u64,
    capacities: Distribution,
    rated: Rated,
    front: &mut Front,
) -> Result<Member, NoMemory>
    requires { storage_of (F.net exploring.now.net.now).channels capacities.capacities ≡ total }
    ensures member { IfOk result (λ m. m ≡ member_of capacities rated) }
    ensures known { IfOk result (λ m. (states : ℕ) (ms : List AMember) (es : List Entry) (best : AFraction) (e : AnEvaluation) → IsEvaluated (F.net exploring.now.net.now) capacities.capacities states e → IsRated best e rated →
        IsBest (F.net exploring.now.net.now) best total ms → AreKnown (F.net exploring.now.net.now) states ms es front.old →
        AreKnown (F.net exploring.now.net.now) states (ms ++ evaluated_member capacities e ∷ []) (es ++ entry_of (evaluated_member capacities e) e.enlarge ∷ []) front.new) }
{
    let Rated {
        rate,
        enlarge: _,
        shown,
        table,
    } = rated;
    match table {
        Some(table) => {
            offer(exploring.alloc, total, rate, &capacities, table, front)?;
            Ok(Member {
                capacities,
                rate,
                shown,
            })
        }
        None => Ok(Member {
            capacities,
            rate,
            shown,
        }),
    }
}

/// Offers the point of a distribution, if its rate is above 0.
fn offer(
    alloc: Global,
    total: u64,
    rate: Fraction,
    capacities: &Distribution,
    table: LoopTable,
    front: &mut Front,
) -> Result<(), NoMemory>
    ensures front { OnOk result ((os : List Offer) → IsFrontOf os (map offer_of front.old) → IsFrontOf (os ++ offers_at total rate capacities.now.capacities) (map offer_of front.new)) }
    ensures points { OnOk result ((p : APoint) → Contains front.new p → ((p.capacities ≡ capacities.now) × (p.table ≡ table)) ⊎ Contains front.old p) }
{
    if rate.is_zero() {
        return Ok(());
    }
    let capacities = capacities.copy(alloc)?;
    front.offer(Point {
        total,
        rate,
        capacities,
        table,
    })?;
    Ok(())
}
