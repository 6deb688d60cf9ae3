//! Self-timed execution of a net, event by event.
//!
//! An engine borrows the net, and makes its wiring or borrows it, so that engines of one net can share one. A wiring depends on
//! the ends of the channels alone, so an engine that is set back keeps its own for each net with the same ends.
ghost use Rattle.std.specs.Prelude.{◌≡◌, ◌↔◌, IsTrue, ◌+◌, ◌<◌, ◌≤◌, ◌⊎◌, ℕ, length, IfOk, IfErr, OnErr, OnOk};
ghost use Rattle.sd_base.specs.Ranges.{RUN_START_BOUND};
ghost use Rattle.sd_base.specs.Schedules.{count_of};
ghost use Rattle.sd_base.specs.SelfTimed.{earliest, shape_at, starts_by};
ghost use Rattle.selftimed.specs.inside.Plans.{Plans};
ghost use Rattle.selftimed.specs.inside.PortRates.{AreRates};
ghost use Rattle.selftimed.specs.inside.Ports.{ArePorts, StillPorts};
ghost use Rattle.std.proofs.Props.{props};
ghost use Rattle.selftimed.specs.EngineShapes.{first_shape, form};
ghost use Rattle.selftimed.specs.Fingerprints.{fingerprint_of, running_fingerprint_of};
ghost use Rattle.selftimed.specs.Moves.{AreAlike, AreStarters, IsMove, IsStuck, IsSpent};
ghost use Rattle.firing.specs.Wiring.{IsWiringOf};
ghost use Rattle.selftimed.specs.declared.engine.Stage.{Stage};
ghost use Rattle.selftimed.specs.declared.engine.Move.{Move};
ghost use Rattle.selftimed.specs.inside.Stands.{IsFresh, Stands};
ghost use Rattle.selftimed.specs.inside.Wirings.{wiring_in};

use crate::actors::{ActorState, refresh};
use crate::compare::{running_fingerprint, same_running, same_stands};
use crate::event::Event;
use crate::event_queue::EventQueue;
use crate::ports::Ports;
use crate::rates::{Rates, rates_of, reset_rates};
use crate::shape::{
    Shape, phases_of, remaining_of, same_phases, same_remaining, same_tokens, tokens_of,
};
use crate::tokens::Tokens;
use crate::wiring::EngineWiring;
use firing::{Firing, Wired, Wiring};
use sd_base::NoMemory;
use std::alloc::Global;

/// Where an engine is in its run.
#[derive(Clone, Copy, Debug, PartialEq, Eq)]
pub enum Stage {
    /// Nothing has started.
    Fresh,
    /// All firings that self-timed execution starts by the moment have started, and no others.
    Running,
    /// More starts were due than the engine may make.
    Spent,
    /// Memory ran out in a step.
    OutOfMemory,
}

/// What a step of an engine did.
#[derive(Clone, Copy, Debug, PartialEq, Eq)]
pub enum Move {
    /// It went to the next event and made its starts.
    Stepped,
    /// Nothing runs and nothing can start.
    Stuck,
    /// The starts of the next event would pass the engine's bound.
    Spent,
}

/// Self-timed execution of a net, event by event, of at most `most` starts (Ghamarian et al. 2006). What
/// it is asked after it was spent, or memory ran out, has no meaning.
pub struct Engine<'a, F: Firing> {
    /// The net that is executed.
    pub net: &'a F,
    /// Where the engine is in its run.
    pub stage: Stage,
    /// The moment of the last event, in time units.
    pub moment: u64,
    /// How many firings may start in all.
    pub most: u64,
    wiring: EngineWiring<'a>,
    ports: Ports,
    rates: Vec<Rates>,
    all: u64,
    actors: Vec<ActorState>,
    tokens: Tokens,
    event_queue: EventQueue,
    ghost few: { most ≤ RUN_START_BOUND },
    ghost wired: { IsWiringOf (F.net net.now) (wiring_in wiring) },
    ghost rated: { AreRates (F.net net.now) rates.items },
    ghost ported: { StillPorts stage (F.net net.now) ports } by { Prim.hlevel props },
    ghost fresh: { stage ≡ Stage.Fresh → IsFresh (F.net net.now) most actors.items tokens all },
    ghost waits: { stage ≡ Stage.Fresh → Plans (F.net net.now) actors.items event_queue },
    ghost starters: { stage ≡ Stage.Running → AreStarters (F.net net.now) moment event_queue.starters.items } by { Prim.hlevel props },
    ghost goes: { stage ≡ Stage.Running → Plans (F.net net.now) actors.items event_queue },
    ghost stands: { stage ≡ Stage.Running → Stands (F.net net.now) moment most actors.items tokens all },
}

// By hand, so that what drops one calls this, and does not drop each of its parts.
impl<F: Firing> Drop for Engine<'_, F> {
    fn drop(self) {
        let Engine {
            net: _net,
            stage: _stage,
            moment: _moment,
            most: _most,
            wiring: _wiring,
            ports: _ports,
            rates: _rates,
            all: _all,
            actors: _actors,
            tokens: _tokens,
            event_queue: _event_queue,
        } = self;
    }
}

impl<'a, F: Firing> Engine<'a, F> {
    /// An engine that stands before the first event. Cost: linear in the actors and channels of the net.
    pub fn new(alloc: Global, net: &'a F, most: u64) -> Result<Engine<'a, F>, NoMemory>
        requires { most ≤ RUN_START_BOUND }
        ensures net { IfOk result (λ e. e.net.now ≡ net.now) }
        ensures stage { IfOk result (λ e. e.stage ≡ Stage.Fresh) }
        ensures moment { IfOk result (λ e. e.moment ≡ 0) }
        ensures most { IfOk result (λ e. e.most ≡ most) }
    {
        let wiring = Wiring::new(alloc, net)?;
        Engine::with_wiring(alloc, net, EngineWiring::Made(wiring), most)
    }

    /// An engine over a net whose wiring is there already: engines of one net, or of nets whose channels have the same ends,
    /// share one. Cost: as of `new`.
    pub fn of_wired(
        alloc: Global,
        wired: &Wired<'a, F>,
        most: u64,
    ) -> Result<Engine<'a, F>, NoMemory>
        requires { most ≤ RUN_START_BOUND }
        ensures net { IfOk result (λ e. e.net.now ≡ wired.now.net.now) }
        ensures stage { IfOk result (λ e. e.stage ≡ Stage.Fresh) }
        ensures moment { IfOk result (λ e. e.moment ≡ 0) }
        ensures most { IfOk result (λ e. e.most ≡ most) }
    {
        Engine::with_wiring(alloc, wired.net, EngineWiring::Lent(wired.wiring), most)
    }

    fn with_wiring(
        alloc: Global,
        net: &'a F,
        wiring: EngineWiring<'a>,
        most: u64,
    ) -> Result<Engine<'a, F>, NoMemory>
        requires most { most ≤ RUN_START_BOUND }
        requires wired { IsWiringOf (F.net net.now) (wiring_in wiring) }
        ensures net { IfOk result (λ e. e.net.now ≡ net.now) }
        ensures stage { IfOk result (λ e. e.stage ≡ Stage.Fresh) }
        ensures moment { IfOk result (λ e. e.moment ≡ 0) }
        ensures most { IfOk result (λ e. e.most ≡ most) }
    {
        let rates = rates_of(alloc, net)?;
        let mut ports = Ports::with_room(alloc, net.actors(), net.channels())?;
        let mut actors = Vec::new(alloc);
        let mut tokens = Tokens::new(alloc);
        let mut event_queue = EventQueue::new(alloc);
        let wired = Wired {
            net,
            wiring: wiring.get(),
        };
        begin_anew(
            alloc,
            &wired,
            &mut actors,
            &mut tokens,
            &mut event_queue,
            &mut ports,
        )?;
        Ok(Engine {
            net,
            stage: Stage::Fresh,
            moment: 0,
            most,
            wiring,
            ports,
            rates,
            all: 0,
            actors,
            tokens,
            event_queue,
        })
    }

    /// Sets the engine back before the first event, of a net with as many actors and channels with the same ends, which may have
    /// other tokens. It allocates nothing but for running firings. Cost: linear in the actors and channels of the net.
    pub fn restart(&mut self, alloc: Global, net: &'a F, most: u64) -> Result<(), NoMemory>
        requires alike { AreAlike (F.net net.now) (F.net self.old.net.now) }
        requires most { most ≤ RUN_START_BOUND }
        ensures net { OnOk result (self.new.net.now ≡ net.now) }
        ensures stage { OnOk result (self.new.stage ≡ Stage.Fresh) }
        ensures moment { OnOk result (self.new.moment ≡ 0) }
        ensures most { OnOk result (self.new.most ≡ most) }
        ensures lost { OnErr result (self.new.stage ≡ Stage.OutOfMemory) }
    {
        self.stage = Stage::OutOfMemory;
        let wired = Wired {
            net,
            wiring: self.wiring.get(),
        };
        begin_anew(
            alloc,
            &wired,
            &mut self.actors,
            &mut self.tokens,
            &mut self.event_queue,
            &mut self.ports,
        )?;
        reset_rates(net, self.rates.as_mut_slice());
        self.net = net;
        self.moment = 0;
        self.most = most;
        self.all = 0;
        self.stage = Stage::Fresh;
        Ok(())
    }

    /// Goes to the next event, which is moment 0 at first, and makes its starts. Of an actor without an input
    /// endlessly many firings could start, so a net with one spends the engine at once.
    ///
    /// Cost: a step for each run of an actor's firings that end together, and for each actor that starts firings, or
    /// each of them where it has more than one phase; the channels of the actors that end, and the channels
    /// into those that lacked the tokens made; for each of these actors also the logarithm of the actors that
    /// run. Actors at whose channels nothing changes cost nothing.
    pub fn advance(&mut self) -> Result<Move, NoMemory>
        ensures net { self.new.net ≡ self.old.net }
        ensures most { self.new.most ≡ self.old.most }
        ensures moved { IfOk result (λ move. IsMove (F.net self.old.net.now) self.old.most self.old.stage self.old.moment move self.new.stage self.new.moment) }
        ensures lost { IfErr result (λ e. self.new.stage ≡ Stage.OutOfMemory) }
        ensures stuck { IfOk result (λ move. (move ≡ Move.Stuck) ↔ IsStuck (F.net self.old.net.now) self.old.stage self.old.moment) }
        ensures spent { IfOk result (λ move. (move ≡ Move.Spent) ↔ IsSpent (F.net self.old.net.now) self.old.most self.old.stage self.old.moment) }
    {
        match self.stage {
            Stage::Fresh => self.go_to_start(),
            Stage::Running => self.go_on(),
            Stage::Spent => Ok(Move::Spent),
            Stage::OutOfMemory => Err(NoMemory),
        }
    }

    /// Makes the starts of moment 0.
    fn go_to_start(&mut self) -> Result<Move, NoMemory>
        requires { self.old.stage ≡ Stage.Fresh }
        ensures net { self.new.net ≡ self.old.net }
        ensures most { self.new.most ≡ self.old.most }
        ensures moved { IfOk result (λ move. IsMove (F.net self.old.net.now) self.old.most self.old.stage self.old.moment move self.new.stage self.new.moment) }
        ensures lost { IfErr result (λ e. self.new.stage ≡ Stage.OutOfMemory) }
    {
        self.stage = Stage::OutOfMemory;
        let event = Event {
            net: self.net,
            ports: &self.ports,
            rates: self.rates.as_slice(),
            moment: 0,
            most: self.most,
        };
        let fits = event.begin(
            &mut self.all,
            self.actors.as_mut_slice(),
            &mut self.tokens,
            &mut self.event_queue,
        )?;
        if !fits {
            self.stage = Stage::Spent;
            return Ok(Move::Spent);
        }
        if self.all == 0 {
            self.stage = Stage::Fresh;
            return Ok(Move::Stuck);
        }
        self.moment = 0;
        self.stage = Stage::Running;
        Ok(Move::Stepped)
    }

    /// Goes to the next end and makes its starts.
    fn go_on(&mut self) -> Result<Move, NoMemory>
        requires { self.old.stage ≡ Stage.Running }
        ensures net { self.new.net ≡ self.old.net }
        ensures most { self.new.most ≡ self.old.most }
        ensures moved { IfOk result (λ move. IsMove (F.net self.old.net.now) self.old.most self.old.stage self.old.moment move self.new.stage self.new.moment) }
        ensures lost { IfErr result (λ e. self.new.stage ≡ Stage.OutOfMemory) }
    {
        let Some(moment) = self.event_queue.soonest() else {
            return Ok(Move::Stuck);
        };
        self.stage = Stage::OutOfMemory;
        let event = Event {
            net: self.net,
            ports: &self.ports,
            rates: self.rates.as_slice(),
            moment,
            most: self.most,
        };
        let fits = event.follow(
            &mut self.all,
            self.actors.as_mut_slice(),
            &mut self.tokens,
            &mut self.event_queue,
        )?;
        if !fits {
            self.stage = Stage::Spent;
            return Ok(Move::Spent);
        }
        self.moment = moment;
        self.stage = Stage::Running;
        Ok(Move::Stepped)
    }
}

impl<'a, F: Firing> Engine<'a, F> {
    /// How many firings of an actor have started.
    pub fn started(&self, actor: u32) -> u64
        requires { actor < length (F.net self.now.net.now).times }
        ensures fresh { self.now.stage ≡ Stage.Fresh → result ≡ 0 }
        ensures running { self.now.stage ≡ Stage.Running → result ≡ count_of (earliest (F.net self.now.net.now) (self.now.moment + 1)) actor }
    {
        match self.actors.as_slice().get(actor as usize) {
            Some(state) => state.started,
            None => 0,
        }
    }

    /// The moment of the last event.
    pub fn moment(&self) -> u64
        ensures { result ≡ self.now.moment }
    {
        self.moment
    }

    /// How many firings have started up to and with the last event.
    pub fn starts(&self) -> u64
        requires { self.now.stage ≡ Stage.Running }
        ensures { result ≡ starts_by (F.net self.now.net.now) self.now.moment }
    {
        self.all
    }

    /// The actors of which firings started at the last event, each once, in no order that matters.
    pub fn starters(&self) -> &[u32]
        requires { self.now.stage ≡ Stage.Running }
        ensures { AreStarters (F.net self.now.net.now) self.now.moment result.now }
    {
        self.event_queue.starters.as_slice()
    }

    /// The fingerprint of the tokens that stand after the starts of the last event: equal shapes have equal fingerprints.
    pub fn fingerprint(&self) -> u64
        requires { self.now.stage ≡ Stage.Running }
        ensures { result ≡ fingerprint_of (shape_at (F.net self.now.net.now) self.now.moment).tokens }
    {
        self.tokens.fingerprint()
    }

    /// The fingerprint of the remaining times of the firings that run after the last event: equal shapes have equal
    /// fingerprints. Cost: linear in the actors.
    pub fn running_fingerprint(&self) -> u64
        requires { self.now.stage ≡ Stage.Running }
        ensures { result ≡ running_fingerprint_of (shape_at (F.net self.now.net.now) self.now.moment).remaining }
    {
        running_fingerprint(self.moment, self.actors.as_slice())
    }

    /// What stands after the starts of the last event; before the first event, what stands then.
    pub fn shape(&self, alloc: Global) -> Result<Shape, NoMemory>
        requires { (self.now.stage ≡ Stage.Fresh) ⊎ (self.now.stage ≡ Stage.Running) }
        ensures fresh { IfOk result (λ shape. self.now.stage ≡ Stage.Fresh → form shape ≡ first_shape (F.net self.now.net.now)) }
        ensures running { IfOk result (λ shape. self.now.stage ≡ Stage.Running → form shape ≡ shape_at (F.net self.now.net.now) self.now.moment) }
    {
        Ok(Shape {
            tokens: tokens_of(alloc, self.tokens.as_slice())?,
            phases: phases_of(alloc, self.net, self.actors.as_slice())?,
            remaining: remaining_of(alloc, self.moment, self.actors.as_slice())?,
        })
    }

    /// Whether a shape is what `shape` gives.
    pub fn same_shape(&self, other: &Shape) -> bool
        requires { (self.now.stage ≡ Stage.Fresh) ⊎ (self.now.stage ≡ Stage.Running) }
        ensures fresh { self.now.stage ≡ Stage.Fresh → (IsTrue result ↔ (first_shape (F.net self.now.net.now) ≡ form other.now)) }
        ensures running { self.now.stage ≡ Stage.Running → (IsTrue result ↔ (shape_at (F.net self.now.net.now) self.now.moment ≡ form other.now)) }
    {
        if !same_tokens(self.tokens.as_slice(), other.tokens.as_slice()) {
            return false;
        }
        if !same_phases(self.net, self.actors.as_slice(), other.phases.as_slice()) {
            return false;
        }
        same_remaining(
            self.moment,
            self.actors.as_slice(),
            other.remaining.as_slice(),
        )
    }

    /// Whether the same stands after the last event of another execution of the net. Cost: mostly constant where the
    /// tokens differ, linear in the actors where the running firings do, and else linear in the channels, the actors
    /// and the runs of firings that end together.
    pub fn same_as(&self, other: &Engine<'a, F>) -> bool
        requires net { other.now.net.now ≡ self.now.net.now }
        requires here { self.now.stage ≡ Stage.Running }
        requires there { other.now.stage ≡ Stage.Running }
        ensures { IsTrue result ↔ (shape_at (F.net self.now.net.now) self.now.moment ≡ shape_at (F.net self.now.net.now) other.now.moment) }
    {
        if !self.tokens.same_as(&other.tokens) {
            return false;
        }
        if self.running_fingerprint() != other.running_fingerprint() {
            return false;
        }
        if !same_stands(self.net, self.actors.as_slice(), other.actors.as_slice()) {
            return false;
        }
        same_running(
            self.moment,
            self.actors.as_slice(),
            other.moment,
            other.actors.as_slice(),
        )
    }
}

/// Makes the parts of an engine those of one of a net that stands before the first event, whatever they were.
fn begin_anew<F: Firing>(
    alloc: Global,
    wired: &Wired<F>,
    actors: &mut Vec<ActorState>,
    tokens: &mut Tokens,
    event_queue: &mut EventQueue,
    ports: &mut Ports,
) -> Result<(), NoMemory>
    ensures fresh { OnOk result ((most : ℕ) → IsFresh (F.net wired.now.net.now) most actors.new.items tokens.new 0) }
    ensures waits { OnOk result (Plans (F.net wired.now.net.now) actors.new.items event_queue.new) }
    ensures ported { OnOk result (ArePorts (F.net wired.now.net.now) ports.new) }
{
    let count = wired.net.actors();
    refresh(alloc, actors, count)?;
    tokens.refill(wired.net)?;
    event_queue.refill(count)?;
    ports.refill(wired)?;
    Ok(())
}
