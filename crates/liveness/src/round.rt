ghost use Rattle.std.specs.Prelude.{◌≡◌, ◌≤◌, ◌<◌, ◌↔◌, ℕ, IsTrue, IfOk, MatchOption, length, slice_index};
ghost use Rattle.sd_base.specs.Untimed.{IsLive, Closed};
ghost use Rattle.firing.specs.Wiring.{IsLevel};

use crate::note::Note;
use crate::run::run_out;
use firing::{Firing, Wired, Wiring, first_lack, initial_tokens};
use sd_base::{NoMemory, Rows};
use std::alloc::Global;

/// What it comes to to fire one actor after another, none more often than in a round.
#[derive(Debug, Drop)]
pub enum Round {
    /// A round, with its firings in an order in which they can fire.
    Live {
        order: Rows<u32>,
    },
    /// No round can be completed. By actor the firings after which none can go on, and the first channel
    /// in the net's order on which an actor below its round lacks tokens.
    Blocked {
        counts: Rows<u64>,
        lacks: Rows<Option<u32>>,
    },
}

ghost use Rattle.sd_base.specs.Untimed.{IsFirstLacking, NamesLacks};
ghost use Rattle.liveness.specs.RoundAnswers.{IsRoundAnswer, is_live};
ghost use Rattle.liveness.specs.inside.UntimedRuns.{IsHalt, IsNoted, IsWhole};

/// Fires a round, or as much of it as can fire. Cost: linear in the actors and channels, and for each firing in
/// the channels of its actor and of those that it makes tokens for.
pub fn one_round<F: Firing>(alloc: Global, net: &F) -> Result<Round, NoMemory>
    ensures answer { IfOk result (IsRoundAnswer (F.net net.now)) }
    ensures exact { IfOk result (λ round. IsTrue (is_live round) ↔ IsLive (F.net net.now)) }
{
    let wiring = Wiring::new(alloc, net)?;
    let wired = Wired {
        net,
        wiring: &wiring,
    };
    fire_round(alloc, &wired)
}

/// A round of a net whose wiring is there already, as `one_round` fires it.
pub fn fire_round<F: Firing>(alloc: Global, wired: &Wired<F>) -> Result<Round, NoMemory>
    ensures answer { IfOk result (IsRoundAnswer (F.net wired.now.net.now)) }
    ensures exact { IfOk result (λ round. IsTrue (is_live round) ↔ IsLive (F.net wired.now.net.now)) }
{
    let net = wired.net;
    let mut counts = vec![in alloc; 0u64; net.actors() as usize]?;
    let mut tokens = initial_tokens(alloc, net)?;
    let mut order = Vec::new(alloc);
    let end = run_to_end(
        alloc,
        wired,
        counts.as_mut_slice(),
        tokens.as_mut_slice(),
        &mut order,
    )?;
    match end {
        None => Ok(Round::Live {
            order: Rows::from_vec(order),
        }),
        Some(lacks) => Ok(Round::Blocked {
            counts: Rows::from_vec(counts),
            lacks,
        }),
    }
}

/// Fires actors one after another until none can fire within its round. Names by actor the first channel on which it lacks
/// tokens, if it is below its round, unless each has fired its round.
pub(crate) fn run_to_end<F: Firing, N: Note>(
    alloc: Global,
    wired: &Wired<F>,
    counts: &mut [u64],
    tokens: &mut [u128],
    note: &mut N,
) -> Result<Option<Rows<Option<u32>>>, NoMemory>
    requires { IsNoted (N.holds note.old) (F.net wired.now.net.now) counts.old tokens.old }
    ensures run { IfOk result (λ _. IsNoted (N.holds note.new) (F.net wired.now.net.now) counts.new tokens.new) }
    ensures closed { IfOk result (λ _. Closed (F.net wired.now.net.now) (slice_index counts.new)) }
    ensures end { IfOk result (λ end. MatchOption end (IsWhole (F.net wired.now.net.now) counts.new) (IsHalt (F.net wired.now.net.now) counts.new)) }
{
    run_out(alloc, wired, counts, tokens, note)?;
    if is_whole(wired.net, counts) {
        return Ok(None);
    }
    let lacks = lacking_channels(alloc, wired, counts, tokens)?;
    Ok(Some(lacks))
}

/// Whether each actor has fired its round.
fn is_whole<F: Firing>(net: &F, counts: &[u64]) -> bool
    requires { length counts.now ≡ length (F.net net.now).times }
    ensures { IsTrue result ↔ IsWhole (F.net net.now) counts.now }
{
    for actor in 0..net.actors() {
        if counts[actor as usize] != net.round(actor) {
            return false;
        }
    }
    true
}

/// By actor the first channel on which it lacks tokens, if it is below its round.
fn lacking_channels<F: Firing>(
    alloc: Global,
    wired: &Wired<F>,
    counts: &[u64],
    tokens: &[u128],
) -> Result<Rows<Option<u32>>, NoMemory>
    requires actors { length counts.now ≡ length (F.net wired.now.net.now).times }
    requires level { IsLevel (F.net wired.now.net.now) (slice_index counts.now) (slice_index counts.now) tokens.now }
    requires closed { Closed (F.net wired.now.net.now) (slice_index counts.now) }
    ensures { IfOk result (NamesLacks (F.net wired.now.net.now) (slice_index counts.now)) }
{
    let mut lacks = Vec::with_capacity(alloc, wired.net.actors() as usize)?;
    for actor in 0..wired.net.actors() {
        lacks.push(lacking_channel(wired, actor, counts, tokens))?;
    }
    Ok(Rows::from_vec(lacks))
}

/// The first channel on which an actor lacks tokens, if it is below its round.
fn lacking_channel<F: Firing>(
    wired: &Wired<F>,
    actor: u32,
    counts: &[u64],
    tokens: &[u128],
) -> Option<u32>
    requires actor { actor < length (F.net wired.now.net.now).times }
    requires actors { length counts.now ≡ length (F.net wired.now.net.now).times }
    requires level { IsLevel (F.net wired.now.net.now) (slice_index counts.now) (slice_index counts.now) tokens.now }
    requires closed { Closed (F.net wired.now.net.now) (slice_index counts.now) }
    ensures { MatchOption result (slice_index (F.net wired.now.net.now).round actor ≤ slice_index counts.now actor)
        (λ i. (slice_index counts.now actor < slice_index (F.net wired.now.net.now).round actor)
        × IsFirstLacking (F.net wired.now.net.now) (slice_index counts.now) actor i) }
{
    let count = counts[actor as usize];
    if count >= wired.net.round(actor) {
        return None;
    }
    first_lack(wired.net, wired.inputs_of(actor), tokens, actor, count)
}
