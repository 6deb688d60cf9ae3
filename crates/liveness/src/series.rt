//! A series of firings: those of an actor of one phase that follow each other, with none of another actor between.
ghost use Rattle.std.specs.Prelude.{◌≡◌, ◌≢◌, ℕ, List, ◌+◌, ◌*◌, ◌++◌, ◌^◌, ◌<◌, ◌≤◌, IfOk, OnOk, MatchBool, length, replicate, slice_index};
ghost use Rattle.sd_base.specs.Ranges.{WIDE_TOKEN_BOUND};
ghost use Rattle.sd_base.specs.declared.limits.TheConstants.{RATE};
ghost use Rattle.sd_base.specs.Net.{channel_at, total};
ghost use Rattle.sd_base.specs.Schedules.{phases_at};
ghost use Rattle.sd_base.proofs.FiringOrdersEnd.{left_of};
ghost use Rattle.firing.specs.declared.sums.Port.TheVariants.{Made, Taken};
ghost use Rattle.firing.specs.Wiring.{IsListed, PutsTokens, TakesTokens};
ghost use Rattle.liveness.specs.inside.Series.{EndsSeries, Feeds, FeedsSeries};
ghost use Rattle.liveness.specs.inside.UntimedRuns.{IsNoted, IsStopped};

use crate::note::Note;
use firing::{Firing, Wired, know_laws};
use sd_base::NoMemory;

/// Fires an actor of one phase as often as it can within its round, and tells whether it fired. Cost: linear in its
/// channels, and where notes are taken in the firings.
pub(crate) fn fire_series<F: Firing, N: Note>(
    wired: &Wired<F>,
    actor: u32,
    counts: &mut [u64],
    tokens: &mut [u128],
    note: &mut N,
) -> Result<bool, NoMemory>
    requires actor { actor < length (F.net wired.now.net.now).times }
    requires single { phases_at (F.net wired.now.net.now) actor ≡ 1 }
    requires run { IsNoted (N.holds note.old) (F.net wired.now.net.now) counts.old tokens.old }
    ensures run { OnOk result (IsNoted (N.holds note.new) (F.net wired.now.net.now) counts.new tokens.new) }
    ensures stopped { IfOk result (λ b. IsStopped (F.net wired.now.net.now) (slice_index counts.new) actor) }
    ensures others { IfOk result (λ b. (a : ℕ) → a ≢ actor → slice_index counts.new a ≡ slice_index counts.old a) }
    ensures fired { IfOk result (λ b. MatchBool b
        (left_of (F.net wired.now.net.now) (slice_index counts.new) < left_of (F.net wired.now.net.now) (slice_index counts.old))
        (counts.new ≡ counts.old)) }
{
    let net = wired.net;
    know_laws(net);
    let count = counts[actor as usize];
    let round = net.round(actor);
    if count >= round {
        return Ok(false);
    }
    let inputs = wired.inputs_of(actor);
    let firings = fed_in_series(net, inputs, tokens, actor, count, round - count);
    if firings == 0 {
        return Ok(false);
    }
    note_series(note, actor, firings)?;
    put_series(net, wired.outputs_of(actor), tokens, actor, count, firings);
    take_series(net, inputs, tokens, actor, count, firings);
    counts[actor as usize] = count + firings;
    Ok(true)
}

/// Takes note of so many firings of an actor.
fn note_series<N: Note>(note: &mut N, actor: u32, firings: u64) -> Result<(), NoMemory>
    ensures { OnOk result ((order : List ℕ) → N.holds note.old order → N.holds note.new (order ++ replicate firings actor)) }
{
    for _firing in 0..firings {
        note.fired(actor)?;
    }
    Ok(())
}

/// How many of so many firings of an actor of one phase, from number `count` on, can follow each other. Where these are
/// fewer, a channel from another actor lacks tokens for the next one.
fn fed_in_series<F: Firing>(
    net: &F,
    inputs: &[u32],
    tokens: &[u128],
    actor: u32,
    count: u64,
    most: u64,
) -> u64
    requires actor { actor < length (F.net net.now).times }
    requires single { phases_at (F.net net.now) actor ≡ 1 }
    requires listed { IsListed (F.net net.now) Taken actor inputs.now }
    requires tokens { length tokens.now ≡ length (F.net net.now).channels }
    requires small { (i : ℕ) → i < length (F.net net.now).channels → slice_index tokens.now i < 2 ^ 64 }
    requires some { 0 < most }
    ensures few { result ≤ most }
    ensures fed { FeedsSeries (F.net net.now) tokens.now actor count result }
    ensures ends { result < most → EndsSeries (F.net net.now) tokens.now actor count result }
{
    know_laws(net);
    let mut firings = most;
    for channel in inputs {
        let fed = fed_by(net, *channel, tokens[*channel as usize], firings);
        if fed == 0 {
            return 0;
        }
        firings = fed;
    }
    firings
}

/// How many of so many firings of its target a channel with these tokens feeds, where the target has one phase and no
/// other actor fires between. On a self-loop each firing puts what the next one takes.
fn fed_by<F: Firing>(net: &F, channel: u32, tokens: u128, most: u64) -> u64
    requires channel { channel < length (F.net net.now).channels }
    requires single { length (channel_at (F.net net.now) channel).taken ≡ 1 }
    requires small { tokens < 2 ^ 64 }
    requires some { 0 < most }
    ensures few { result ≤ most }
    ensures fed { (from : ℕ) → Feeds (channel_at (F.net net.now) channel) tokens from result }
    ensures ends { result < most → (from : ℕ) → tokens + total (channel_at (F.net net.now) channel).taken from < total (channel_at (F.net net.now) channel).taken (from + (result + 1)) }
    ensures apart { 0 < result → result < most → (channel_at (F.net net.now) channel).source ≢ (channel_at (F.net net.now) channel).target }
{
    know_laws(net);
    let rate = net.taken(channel, 0);
    let tokens = tokens as u64;
    if tokens < rate {
        return 0;
    }
    if net.source(channel) == net.target(channel) {
        return most;
    }
    most.min(tokens / rate)
}

/// Puts the tokens of `firings` firings of an actor of one phase, from number `from` on, on the channels out of it.
fn put_series<F: Firing>(
    net: &F,
    outputs: &[u32],
    tokens: &mut [u128],
    actor: u32,
    from: u64,
    firings: u64,
)
    requires actor { actor < length (F.net net.now).times }
    requires single { phases_at (F.net net.now) actor ≡ 1 }
    requires listed { IsListed (F.net net.now) Made actor outputs.now }
    requires tokens { length tokens.old ≡ length (F.net net.now).channels }
    requires small { (i : ℕ) → i < length (F.net net.now).channels → slice_index tokens.old i ≤ WIDE_TOKEN_BOUND }
    ensures { PutsTokens (F.net net.now) actor from firings tokens.old tokens.new }
{
    know_laws(net);
    for channel in outputs {
        let all = series_tokens(firings, net.made(*channel, 0));
        tokens[*channel as usize] += all;
    }
}

/// Takes the tokens of `firings` firings of an actor of one phase, from number `from` on, off the channels into it.
fn take_series<F: Firing>(
    net: &F,
    inputs: &[u32],
    tokens: &mut [u128],
    actor: u32,
    from: u64,
    firings: u64,
)
    requires actor { actor < length (F.net net.now).times }
    requires single { phases_at (F.net net.now) actor ≡ 1 }
    requires listed { IsListed (F.net net.now) Taken actor inputs.now }
    requires tokens { length tokens.old ≡ length (F.net net.now).channels }
    requires enough { (i : ℕ) → i < length (F.net net.now).channels → (channel_at (F.net net.now) i).target ≡ actor →
        total (channel_at (F.net net.now) i).taken (from + firings)
        ≤ slice_index tokens.old i + total (channel_at (F.net net.now) i).taken from }
    ensures { TakesTokens (F.net net.now) actor from firings tokens.old tokens.new }
{
    know_laws(net);
    for channel in inputs {
        let all = series_tokens(firings, net.taken(*channel, 0));
        tokens[*channel as usize] -= all;
    }
}

/// The tokens of so many firings at a rate.
fn series_tokens(firings: u64, rate: u64) -> u128
    requires { rate ≤ RATE }
    ensures sum { result ≡ firings * rate }
    ensures small { result ≤ firings * RATE }
{
    u128::from(firings) * u128::from(rate)
}
