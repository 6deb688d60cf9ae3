//! How the answers of a level are taken in.
ghost use Rattle.std.specs.Prelude.{◌≡◌, ◌+◌, ◌++◌, [], ◌∷◌, ℕ, All, IfErr, List, OnOk, Option, ◌⊎◌, true};
ghost use Rattle.sd_base.specs.declared.numbers.Fraction.{Fraction as AFraction};
ghost use Rattle.sd_base.specs.declared.tables.ScenarioFile.{ScenarioFile as AFile};
ghost use Rattle.storage.specs.ClosedLists.{Entry};
ghost use Rattle.storage.specs.Distributions.{storage_of};
ghost use Rattle.bounded_scenarios.specs.SharedChannels.{shared_channels};
ghost use Rattle.bounded_scenarios.specs.ScenarioGuides.{IsReachable};
ghost use Rattle.scenario_storage.specs.declared.point.ScenarioLimits.{ScenarioLimits as SomeLimits};
ghost use Rattle.scenario_storage.specs.ScenarioPoints.{IsRefusal};
ghost use Rattle.scenario_storage.specs.inside.Levels.{IsBlocked, IsPlan, IsRateRefusal, IsRated};
ghost use Rattle.scenario_storage.specs.inside.Searches.{AreKnown, IsAnswerOf, IsBest, IsOffered, IsPointWith, IsSearch, IsSearchOf, KeepsEarlier, ShowsNone, answered_of, entry_of, taken_off};

use crate::blocked::{Blocked, keep};
use crate::error::ScenarioStorageError;
use crate::level::Answered;
use crate::plan::Plan;
use crate::point::ScenarioPoint;
use crate::rated::{RateError, Rated, Witness};
use crate::rising::take_point;
use crate::search::Search;
use sd_base::{Fraction, NoMemory};
use storage::Distribution;

/// Takes in the answers of a level, one after another.
pub(crate) fn take_in_all(
    plan: &Plan,
    total: u64,
    answers: Vec<Answered>,
    search: &mut Search,
) -> Result<(), ScenarioStorageError>
    requires plan { IsPlan plan.now.file.now plan.now.gammas.now plan.now.limits }
    requires answers { (best : AFraction) × IsBest best total search.old.points.items × All (IsAnswerOf plan.now.file.now plan.now.limits total best) answers.items }
    requires search { IsSearch plan.now.file.now plan.now.limits (total + 1) (answered_of answers.items) search.old }
    ensures search { OnOk result ((all : List (List (Option ℕ))) → IsSearchOf plan.now.file.now plan.now.limits (total + 1) all (answered_of answers.items) search.old →
        IsSearchOf plan.now.file.now plan.now.limits (total + 1) all [] search.new) }
    ensures off { OnOk result (taken_off search.new ≡ taken_off search.old) }
    ensures refused { IfErr result (IsRefusal plan.now.file.now plan.now.limits) }
{
    for answered in answers {
        take_answer(plan, total, answered, search)?;
    }
    Ok(())
}

/// Takes in one answer.
fn take_answer(
    plan: &Plan,
    total: u64,
    answered: Answered,
    search: &mut Search,
) -> Result<(), ScenarioStorageError>
    requires plan { IsPlan plan.now.file.now plan.now.gammas.now plan.now.limits }
    requires answer { (best : AFraction) × IsBest best total search.old.points.items × IsAnswerOf plan.now.file.now plan.now.limits total best answered }
    requires search { (rest : List (List (Option ℕ))) × IsSearch plan.now.file.now plan.now.limits (total + 1) (answered.capacities.capacities ∷ rest) search.old }
    ensures search { OnOk result ((rest all : List (List (Option ℕ))) → IsSearchOf plan.now.file.now plan.now.limits (total + 1) all (answered.capacities.capacities ∷ rest) search.old →
        IsSearchOf plan.now.file.now plan.now.limits (total + 1) all rest search.new) }
    ensures keeps { OnOk result (KeepsEarlier total search.old.points.items search.new.points.items) }
    ensures off { OnOk result (taken_off search.new ≡ taken_off search.old) }
    ensures refused { IfErr result (IsRefusal plan.now.file.now plan.now.limits) }
{
    let Answered { capacities, answer } = answered;
    match answer {
        Ok(rated) => {
            take_in(plan, total, capacities, rated, search)?;
            Ok(())
        }
        Err(error) => Err(refusal(error, capacities)),
    }
}

/// Why a distribution ends the search.
fn refusal(error: RateError, at: Distribution) -> ScenarioStorageError
    ensures { (file : AFile) (limits : SomeLimits) → IsReachable file limits.total at.capacities → IsRateRefusal file at.capacities error → IsRefusal file limits result }
{
    match error {
        RateError::Edges => ScenarioStorageError::Edges { at },
        RateError::NoMemory => ScenarioStorageError::NoMemory,
    }
}

/// Takes in a distribution that was rated: those to which it leads on wait, and its point is taken in, if it has one.
fn take_in(
    plan: &Plan,
    total: u64,
    capacities: Distribution,
    rated: Rated,
    search: &mut Search,
) -> Result<(), ScenarioStorageError>
    requires plan { IsPlan plan.now.file.now plan.now.gammas.now plan.now.limits }
    requires rated { (best : AFraction) × IsBest best total search.old.points.items × IsRated plan.now.file.now plan.now.limits.total best capacities.capacities rated }
    requires total { storage_of (shared_channels plan.now.file.now) capacities.capacities ≡ total }
    requires search { (rest : List (List (Option ℕ))) × IsSearch plan.now.file.now plan.now.limits (total + 1) (capacities.capacities ∷ rest) search.old }
    ensures search { OnOk result ((rest all : List (List (Option ℕ))) → IsSearchOf plan.now.file.now plan.now.limits (total + 1) all (capacities.capacities ∷ rest) search.old →
        IsSearchOf plan.now.file.now plan.now.limits (total + 1) all rest search.new) }
    ensures keeps { OnOk result (KeepsEarlier total search.old.points.items search.new.points.items) }
    ensures off { OnOk result (taken_off search.new ≡ taken_off search.old) }
    ensures refused { IfErr result (IsRefusal plan.now.file.now plan.now.limits) }
{
    search.levels.lead_on(plan.alloc, &capacities, total, rated.enlarge.as_slice(), ())?;
    search.topped = is_topped(search.topped, &rated);
    offer(
        total,
        capacities,
        rated,
        &mut search.points,
        &mut search.blocked,
    )?;
    Ok(())
}

/// Whether a rate was met that bounds all: one so far, or that of a distribution that runs and shows no channel.
fn is_topped(so_far: bool, rated: &Rated) -> bool
    ensures { result ≡ true → (so_far ≡ true) ⊎ ShowsNone rated.now }
{
    so_far || (rated.enlarge.is_empty() && rated.rate.num > 0)
}

/// Takes in the point of a distribution, if its witness was kept, and keeps it where it was evaluated and is blocked.
fn offer(
    total: u64,
    capacities: Distribution,
    rated: Rated,
    points: &mut Vec<ScenarioPoint>,
    blocked: &mut Vec<Blocked>,
) -> Result<(), NoMemory>
    requires { (file : AFile) × (limit : ℕ) × (es : List Entry) × (best : AFraction) × IsOffered file limit es best total capacities.capacities rated points.old.items }
    ensures known { OnOk result ((file : AFile) (limit : ℕ) (es : List Entry) (best : AFraction) → IsOffered file limit es best total capacities.capacities rated points.old.items →
        AreKnown file limit (es ++ entry_of capacities.capacities rated ∷ []) points.new.items) }
    ensures keeps { OnOk result (KeepsEarlier total points.old.items points.new.items) }
    ensures blocked { OnOk result ((file : AFile) (limit : ℕ) (es : List Entry) (best : AFraction) → IsOffered file limit es best total capacities.capacities rated points.old.items →
        All (IsBlocked file limit) blocked.old.items → All (IsBlocked file limit) blocked.new.items) }
{
    let Rated {
        rate,
        enlarge,
        blocks,
        witness,
    } = rated;
    match witness {
        Some(witness) => take_point(point_of(total, rate, capacities, witness), points),
        None if blocks => keep(
            Blocked {
                capacities,
                enlarge,
            },
            blocked,
        ),
        None => Ok(()),
    }
}

/// A point with its witness.
fn point_of(total: u64, rate: Fraction, capacities: Distribution, witness: Witness) -> ScenarioPoint
    ensures { IsPointWith total rate capacities witness result }
{
    let Witness {
        shared,
        graph,
        worst,
    } = witness;
    ScenarioPoint {
        total,
        rate,
        capacities,
        shared,
        graph,
        worst,
    }
}
