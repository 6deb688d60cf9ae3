ghost use Rattle.std.specs.Prelude.{◌≡◌, ◌+◌, ◌≤◌, ◌<◌, ◌++◌, ℕ, [], ◌∷◌, All, IfErr, IfOk, List, MatchOption, OnOk, Option, length, slice_index_or};
ghost use Rattle.sd_base.specs.Net.{Channel};
ghost use Rattle.storage.specs.Distributions.{storage_of};
ghost use Rattle.storage.specs.StorageOrder.{stepped};
ghost use Rattle.levels.specs.Visits.{AreVisits, Visit, led_by};
ghost use Rattle.levels.specs.Frontiers.{AreLedOn, IsFrontier, IsOver, IsLevelTaken, IsSame, IsSpent, Rises, distributions_of};
ghost use Rattle.levels.specs.inside.Waiting.{EndsAdding, EndsWaiting, IsAdded};

use crate::channel::ChannelStep;
use crate::error::LevelsError;
use crate::found::{Found, Level};
use crate::head::head;
use crate::raising::{stepped_up, with_room};
use crate::sets::Waiting;
use sd_base::{NoMemory, Rows};
use std::alloc::Global;
use storage::Distribution;

/// How far a search goes: the storage within which distributions are visited, and how many may be found.
#[derive(Clone, Copy, Debug)]
pub struct Bounds {
    pub total: u64,
    pub distributions: u64,
}

/// The distributions that wait to be visited, and how many were found. By channel it knows the size of the tokens and the
/// step of the capacity.
#[derive(Drop)]
pub struct Levels<H> {
    pub(crate) channels: Rows<ChannelStep>,
    pub(crate) bounds: Bounds,
    pub(crate) waiting: Waiting<H>,
    pub(crate) found: u64,
}

impl<H: Copy + Drop> Levels<H> {
    /// A search in which the start waits, if its storage is within the bounds.
    pub fn begin(
        alloc: Global,
        channels: Rows<ChannelStep>,
        bounds: Bounds,
        start: Distribution,
        total: u64,
        hint: H,
    ) -> Result<Levels<H>, NoMemory>
        requires { 1 ≤ bounds.distributions }
        ensures frontier { IfOk result (λ l. (cs : List Channel) → IsOver cs channels → total ≡ storage_of cs start.capacities → IsFrontier cs start.capacities 0 [] [] l) }
        ensures hints { IfOk result (λ l. All (λ f. f.hint ≡ hint) l.waiting) }
        ensures bounds { IfOk result (λ l. l.bounds ≡ bounds) }
    {
        let mut waiting = Waiting::new(alloc);
        if total > bounds.total {
            return Ok(Levels {
                channels,
                bounds,
                waiting,
                found: 0,
            });
        }
        let head = head(start.capacities.as_slice());
        let found = Found {
            capacities: start,
            hint,
            total,
            head,
        };
        waiting.put(alloc, found)?;
        Ok(Levels {
            channels,
            bounds,
            waiting,
            found: 1,
        })
    }

    /// Takes off all that wait with the least storage, if any waits: they are the next visits, and each is to lead on before
    /// the next level is taken. Cost: that of a sort of them.
    pub fn next(&mut self, alloc: Global) -> Result<Option<Level<H>>, NoMemory>
        ensures level { IfOk result (λ found. MatchOption found (self.old.waiting ≡ []) (λ level. IsLevelTaken level.total level.visits.items self.old.waiting self.new.waiting)) }
        ensures frontier { IfOk result (λ found. (cs : List Channel) (start : List (Option ℕ)) (floor : ℕ) (visits : List Visit) → IsFrontier cs start floor visits [] self.old →
            MatchOption found (AreVisits cs start self.old.bounds.total visits) (λ level. IsFrontier cs start (level.total + 1) visits (distributions_of level.visits.items) self.new)) }
        ensures same { IsSame self.old self.new }
    {
        let found = self.waiting.next(alloc)?;
        Ok(found)
    }

    /// Lets those wait with the hint that have a step more room than a visit on one of some channels, unless they do so
    /// already or aren't within the bounds. Cost: a copy of the capacities for the visit and for each that is new, and for
    /// each channel a hash of them and a logarithm of the levels that wait.
    pub fn lead_on(
        &mut self,
        alloc: Global,
        from: &Distribution,
        total: u64,
        enlarge: &[u32],
        hint: H,
    ) -> Result<(), LevelsError>
        requires channels { All (λ c. c < length self.old.channels) enlarge.now }
        requires within { total ≤ self.old.bounds.total }
        requires few { self.old.found ≤ self.old.bounds.distributions }
        ensures waiting { OnOk result ((cs : List Channel) → IsOver cs self.old.channels → total ≡ storage_of cs from.now.capacities → Rises cs (led_by from.now.capacities enlarge.now) →
            AreLedOn cs self.old.bounds.total (led_by from.now.capacities enlarge.now) hint self.old.waiting self.new.waiting) }
        ensures frontier { OnOk result ((cs : List Channel) (start : List (Option ℕ)) (visits : List Visit) (taken : List (List (Option ℕ))) →
            IsFrontier cs start (total + 1) visits (from.now.capacities ∷ taken) self.old → total ≡ storage_of cs from.now.capacities → Rises cs (led_by from.now.capacities enlarge.now) →
            IsFrontier cs start (total + 1) (visits ++ led_by from.now.capacities enlarge.now ∷ []) taken self.new) }
        ensures spent { IfErr result (λ e. (cs : List Channel) (start : List (Option ℕ)) (visits : List Visit) (taken : List (List (Option ℕ))) →
            IsFrontier cs start (total + 1) visits (from.now.capacities ∷ taken) self.old → total ≡ storage_of cs from.now.capacities → Rises cs (led_by from.now.capacities enlarge.now) →
            IsSpent cs start self.old.bounds (visits ++ led_by from.now.capacities enlarge.now ∷ []) e) }
        ensures same { IsSame self.old self.new }
    {
        let mut scratch = from.copy(alloc)?;
        for channel in enlarge {
            scratch = self.lead_by(alloc, scratch, total, *channel, hint)?;
        }
        Ok(())
    }

    /// Lets the distribution with a step more room on one channel wait, unless it does so already or isn't within the bounds,
    /// and gives the distribution back.
    fn lead_by(
        &mut self,
        alloc: Global,
        from: Distribution,
        total: u64,
        channel: u32,
        hint: H,
    ) -> Result<Distribution, LevelsError>
        requires channel { channel < length self.old.channels }
        requires within { total ≤ self.old.bounds.total }
        requires few { self.old.found ≤ self.old.bounds.distributions }
        ensures back { IfOk result (λ d. d.capacities ≡ from.capacities) }
        ensures led { OnOk result ((cs : List Channel) → IsOver cs self.old.channels → total ≡ storage_of cs from.capacities → Rises cs (led_by from.capacities (channel ∷ [])) →
            AreLedOn cs self.old.bounds.total (led_by from.capacities (channel ∷ [])) hint self.old.waiting self.new.waiting) }
        ensures count { OnOk result (self.new.found + length self.old.waiting ≡ self.old.found + length self.new.waiting) }
        ensures few { OnOk result (self.new.found ≤ self.old.bounds.distributions) }
        ensures same { IsSame self.old self.new }
        ensures ended { IfErr result (EndsWaiting self.old.channels self.old.bounds total (led_by from.capacities (channel ∷ [])) hint self.old.found self.old.waiting) }
    {
        let Some(room) = from.capacity_of(channel) else {
            return Ok(from);
        };
        let of_channel = self.channel(channel);
        let Some(raised) = stepped_up(of_channel, room, total, self.bounds.total) else {
            return Ok(from);
        };
        let capacities = with_room(from, channel, raised.room);
        let child = Found {
            head: head(capacities.capacities.as_slice()),
            capacities,
            hint,
            total: raised.total,
        };
        self.admit(alloc, &child)?;
        let Found {
            capacities,
            hint: _,
            total: _,
            head: _,
        } = child;
        Ok(with_room(capacities, channel, room))
    }

    /// What is known of a channel.
    fn channel(&self, channel: u32) -> ChannelStep
        requires { channel < length self.now.channels }
        ensures { result ≡ slice_index_or self.now.channels channel result }
    {
        self.channels.as_slice()[channel as usize]
    }

    /// Lets a copy of one that was found wait, unless its distribution does so already.
    fn admit(&mut self, alloc: Global, child: &Found<H>) -> Result<(), LevelsError>
        requires { self.old.found ≤ self.old.bounds.distributions }
        ensures added { OnOk result (IsAdded child.now self.old.waiting self.new.waiting) }
        ensures count { OnOk result (self.new.found + length self.old.waiting ≡ self.old.found + length self.new.waiting) }
        ensures few { OnOk result (self.new.found ≤ self.old.bounds.distributions) }
        ensures same { IsSame self.old self.new }
        ensures ended { IfErr result (EndsAdding child.now self.old.bounds self.old.found self.old.waiting) }
    {
        if self.waiting.has(child) {
            return Ok(());
        }
        if self.found == self.bounds.distributions {
            return Err(LevelsError::Spent);
        }
        let found = child.copy(alloc)?;
        self.waiting.put(alloc, found)?;
        self.found += 1;
        Ok(())
    }
}
