ghost use Rattle.std.specs.Prelude.{◌≡◌, ◌≢◌, ℕ, ◌<◌, IfOk, OnOk, MatchBool, length, slice_index};
ghost use Rattle.sd_base.specs.Untimed.{Closed};
ghost use Rattle.sd_base.proofs.FiringOrdersEnd.{left_of};
ghost use Rattle.liveness.specs.inside.UntimedRuns.{IsNoted, IsStopped};

use crate::flags::Flags;
use crate::note::Note;
use crate::series::fire_series;
use firing::{Firing, Wired, first_lack, know_laws, put_tokens, take_tokens};
use sd_base::NoMemory;
use std::alloc::Global;

/// Fires actors one after another until none can fire within its round. An actor is looked at again only when
/// a channel into it has gained tokens.
pub(crate) fn run_out<F: Firing, N: Note>(
    alloc: Global,
    wired: &Wired<F>,
    counts: &mut [u64],
    tokens: &mut [u128],
    note: &mut N,
) -> Result<(), NoMemory>
    requires { IsNoted (N.holds note.old) (F.net wired.now.net.now) counts.old tokens.old }
    ensures run { OnOk result (IsNoted (N.holds note.new) (F.net wired.now.net.now) counts.new tokens.new) }
    ensures closed { OnOk result (Closed (F.net wired.now.net.now) (slice_index counts.new)) }
{
    let mut flags = Flags::new(alloc, wired.net.actors())?;
    'looks: while let Some(actor) = flags.pop() {
        if fire_while_able(wired, actor, counts, tokens, note)? {
            flags.flag_targets(wired.net, actor, wired.outputs_of(actor))?;
        }
    }
    Ok(())
}

/// Fires an actor as often as it can within its round, and tells whether it fired.
fn fire_while_able<F: Firing, N: Note>(
    wired: &Wired<F>,
    actor: u32,
    counts: &mut [u64],
    tokens: &mut [u128],
    note: &mut N,
) -> Result<bool, NoMemory>
    requires actor { actor < length (F.net wired.now.net.now).times }
    requires run { IsNoted (N.holds note.old) (F.net wired.now.net.now) counts.old tokens.old }
    ensures run { OnOk result (IsNoted (N.holds note.new) (F.net wired.now.net.now) counts.new tokens.new) }
    ensures stopped { IfOk result (λ b. IsStopped (F.net wired.now.net.now) (slice_index counts.new) actor) }
    ensures others { IfOk result (λ b. (a : ℕ) → a ≢ actor → slice_index counts.new a ≡ slice_index counts.old a) }
    ensures fired { IfOk result (λ b. MatchBool b
        (left_of (F.net wired.now.net.now) (slice_index counts.new) < left_of (F.net wired.now.net.now) (slice_index counts.old))
        (counts.new ≡ counts.old)) }
{
    if wired.net.phases(actor) == 1 {
        return fire_series(wired, actor, counts, tokens, note);
    }
    let mut fired = false;
    'firings: while fire_if_able(wired, actor, counts, tokens, note)? {
        fired = true;
    }
    Ok(fired)
}

/// Fires an actor once if it can within its round, and tells whether it did.
fn fire_if_able<F: Firing, N: Note>(
    wired: &Wired<F>,
    actor: u32,
    counts: &mut [u64],
    tokens: &mut [u128],
    note: &mut N,
) -> Result<bool, NoMemory>
    requires actor { actor < length (F.net wired.now.net.now).times }
    requires run { IsNoted (N.holds note.old) (F.net wired.now.net.now) counts.old tokens.old }
    ensures run { OnOk result (IsNoted (N.holds note.new) (F.net wired.now.net.now) counts.new tokens.new) }
    ensures others { IfOk result (λ b. (a : ℕ) → a ≢ actor → slice_index counts.new a ≡ slice_index counts.old a) }
    ensures fired { IfOk result (λ b. MatchBool b
        (left_of (F.net wired.now.net.now) (slice_index counts.new) < left_of (F.net wired.now.net.now) (slice_index counts.old))
        ((counts.new ≡ counts.old) × IsStopped (F.net wired.now.net.now) (slice_index counts.new) actor)) }
{
    let net = wired.net;
    know_laws(net);
    let count = counts[actor as usize];
    if count >= net.round(actor) {
        return Ok(false);
    }
    let inputs = wired.inputs_of(actor);
    if let Some(_lacking) = first_lack(net, inputs, tokens, actor, count) {
        return Ok(false);
    }
    note.fired(actor)?;
    put_tokens(net, wired.outputs_of(actor), tokens, actor, count, 1);
    take_tokens(net, inputs, tokens, actor, count, 1);
    counts[actor as usize] = count + 1;
    Ok(true)
}
