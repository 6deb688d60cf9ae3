//! Steps of engines of live nets.
ghost use Rattle.std.specs.Prelude.{◌≡◌, ℕ, ◌≤◌, ◌⊎◌, IfOk, OnOk};
ghost use Rattle.sd_base.specs.SelfTimed.{starts_by};
ghost use Rattle.selftimed.specs.declared.engine.Stage.TheVariants.{Fresh, Running};
ghost use Rattle.selftimed.specs.Moves.{ComesNext};
ghost use Rattle.event_loops.specs.inside.Going.{GoesOn, NeverStops};

use firing::Firing;
use sd_base::NoMemory;
use selftimed::{Engine, Move};

/// Goes to the next event, which every live net has, and tells whether its starts are within the bound.
pub(crate) fn go_on<F: Firing>(engine: &mut Engine<F>) -> Result<bool, NoMemory>
    requires runs { NeverStops (F.net engine.old.net.now) }
    requires stage { (engine.old.stage ≡ Fresh) ⊎ (engine.old.stage ≡ Running) }
    ensures net { engine.new.net ≡ engine.old.net }
    ensures most { engine.new.most ≡ engine.old.most }
    ensures goes { IfOk result (λ goes. GoesOn (F.net engine.old.net.now) engine.old.most engine.old.stage engine.old.moment goes engine.new.stage engine.new.moment) }
{
    match engine.advance()? {
        Move::Stepped => Ok(true),
        Move::Spent => Ok(false),
        Move::Stuck => unreachable!(),
    }
}

/// Goes to an event whose starts are known to be within the bound.
pub(crate) fn next_event<F: Firing>(engine: &mut Engine<F>) -> Result<(), NoMemory>
    requires runs { NeverStops (F.net engine.old.net.now) }
    requires stage { (engine.old.stage ≡ Fresh) ⊎ (engine.old.stage ≡ Running) }
    requires few { (t : ℕ) → ComesNext (F.net engine.old.net.now) engine.old.stage engine.old.moment t → starts_by (F.net engine.old.net.now) t ≤ engine.old.most }
    ensures net { engine.new.net ≡ engine.old.net }
    ensures most { engine.new.most ≡ engine.old.most }
    ensures running { OnOk result (engine.new.stage ≡ Running) }
    ensures next { OnOk result (ComesNext (F.net engine.old.net.now) engine.old.stage engine.old.moment engine.new.moment) }
{
    if !go_on(engine)? {
        unreachable!()
    }
    Ok(())
}
