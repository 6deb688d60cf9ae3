//! A chain of actors whose numbers are drawn by a linear congruence.

ghost use Rattle.std.specs.Prelude.{◌≡◌, ◌≤◌, ◌<◌, ◌+◌, IfOk, length, [], ◌∷◌, All};
ghost use Rattle.sd_base.specs.declared.limits.TheConstants.{ACTORS};
ghost use Rattle.sd_base.specs.Numbers.{IsLcm};
ghost use Rattle.sd_base.specs.Tables.{KeepsRules, IsTimed};
ghost use Rattle.gen_graph.specs.MadeGraphs.{modulus, next, number_below, IsDrawn, drawn_after, drawn_for, made_actor, made_actors, common_multiple, made_channel, made_channels, chain_of, made_graph};
ghost use Rattle.gen_graph.specs.Writable.{IsWritable};

use sd_base::{ActorRow, ChannelRow, GraphFile, Kind, NoMemory, Rows, Text};
use std::alloc::Global;

/// The graph of a number: a chain of 2 to 128 actors `a0`, `a1`, .. with times from 1 to 9 and the channels `c0`, `c1`, ..
/// from each to the next, without tokens. Each actor has a weight from 1 to 3, in proportion to which it fires; weights
/// and times are drawn by the linear congruence of ANSI C's example of `rand`. Cost: linear in the actors.
pub fn make(alloc: Global, seed: u64, actors: u32) -> Result<GraphFile, NoMemory>
    requires some { 2 ≤ actors }
    requires few { actors ≤ ACTORS }
    ensures made { IfOk result (λ g. g ≡ made_graph seed actors) }
    ensures keeps { IfOk result KeepsRules }
    ensures timed { IfOk result IsTimed }
    ensures writable { IfOk result IsWritable }
{
    let graph = chain(alloc, seed, actors)?;
    Ok(graph)
}

#[tactic(auto, unfolding(crate::specs::MadeGraphs::made_graph))]
fn chain(alloc: Global, seed: u64, actors: u32) -> Result<GraphFile, NoMemory>
    requires { actors ≤ ACTORS }
    ensures { IfOk result (λ g. g ≡ made_graph seed actors) }
{
    let drawn = draw(alloc, seed % MODULUS, actors)?;
    let actors = actor_rows(alloc, drawn.as_slice())?;
    let channels = channel_rows(alloc, drawn.as_slice())?;
    Ok(GraphFile {
        kind: Kind::Sdf,
        actors,
        channels,
    })
}

/// States are below this.
const MODULUS: u64 = 0x8000_0000;

/// The next state is so many times the last one, and `INCREMENT`.
const MULTIPLIER: u64 = 1_103_515_245;

/// What is added for the next state.
const INCREMENT: u64 = 12_345;

/// How many values the lower bits of a state have, which are left out where a number is drawn.
const LOWER: u64 = 65_536;

/// What is drawn for an actor.
#[derive(Clone, Copy)]
pub(crate) struct Drawn {
    /// The actor fires in proportion to it.
    pub(crate) weight: u64,
    /// Its execution time in time units.
    pub(crate) time: u64,
}

#[tactic(auto, unfolding(crate::specs::MadeGraphs::next))]
fn next(state: u64) -> u64
    requires { state < modulus }
    ensures value { result ≡ next state }
    ensures below { result < modulus }
{
    (MULTIPLIER * state + INCREMENT) % MODULUS
}

#[tactic(auto, unfolding(crate::specs::MadeGraphs::number_below))]
fn number_below(limit: u64, state: u64) -> u64
    requires { 0 < limit }
    ensures value { result ≡ number_below limit state }
    ensures below { result < limit }
{
    (state / LOWER) % limit
}

/// Draws for one actor, and leaves the state after it.
#[tactic(auto, unfolding(crate::specs::MadeGraphs::drawn_after))]
fn draw_one(state: &mut u64) -> Drawn
    requires { state.old < modulus }
    ensures value { result ≡ drawn_after state.old }
    ensures next { state.new ≡ next (next state.old) }
    ensures below { state.new < modulus }
    ensures within { IsDrawn result }
{
    *state = next(*state);
    let weight = 1 + number_below(3, *state);
    *state = next(*state);
    let time = 1 + number_below(9, *state);
    Drawn { weight, time }
}

fn draw(alloc: Global, seed: u64, actors: u32) -> Result<Rows<Drawn>, NoMemory>
    requires { seed < modulus }
    ensures drawn { IfOk result (λ ds. ds ≡ drawn_for seed actors) }
    ensures within { IfOk result (All IsDrawn) }
    ensures length { IfOk result (λ ds. length ds ≡ actors) }
{
    let mut state = seed;
    let mut drawn = Rows::new(alloc);
    for _ in 0..actors {
        drawn.push(draw_one(&mut state))?;
    }
    Ok(drawn)
}

fn actor_rows(alloc: Global, drawn: &[Drawn]) -> Result<Rows<ActorRow>, NoMemory>
    ensures { IfOk result (λ rows. rows ≡ made_actors 0 drawn.now) }
{
    let mut rows = Rows::new(alloc);
    for (i, one) in drawn.iter().enumerate() {
        rows.push(actor_row(alloc, i, *one)?)?;
    }
    Ok(rows)
}

#[tactic(auto, unfolding(crate::specs::MadeGraphs::made_actor))]
fn actor_row(alloc: Global, i: usize, drawn: Drawn) -> Result<ActorRow, NoMemory>
    ensures { IfOk result (λ row. row ≡ made_actor i drawn) }
{
    let name = format!(in alloc; "a{i}")?;
    Ok(ActorRow {
        name: Text::new(name),
        phases: 1,
        times: one_number(alloc, drawn.time)?,
    })
}

fn one_number(alloc: Global, number: u64) -> Result<Rows<u64>, NoMemory>
    ensures { IfOk result (λ rows. rows ≡ number ∷ []) }
{
    let mut rows = Rows::new(alloc);
    rows.push(number)?;
    Ok(rows)
}

fn channel_rows(alloc: Global, drawn: &[Drawn]) -> Result<Rows<ChannelRow>, NoMemory>
    requires few { length drawn.now ≤ ACTORS }
    requires within { All IsDrawn drawn.now }
    ensures { IfOk result (λ rows. rows ≡ chain_of drawn.now) }
{
    match drawn.split_first() {
        None => Ok(Rows::new(alloc)),
        Some((first, rest)) => rows_behind(alloc, first.weight, rest),
    }
}

/// The channels of a chain that begins with an actor of this weight.
fn rows_behind(alloc: Global, first: u64, rest: &[Drawn]) -> Result<Rows<ChannelRow>, NoMemory>
    requires first { (1 ≤ first) × (first ≤ 3) }
    requires few { length rest.now < ACTORS }
    requires within { All IsDrawn rest.now }
    ensures { IfOk result (λ rows. rows ≡ made_channels 0 first rest.now) }
{
    let mut weight = first;
    let mut rows = Rows::new(alloc);
    for (i, one) in rest.iter().enumerate() {
        rows.push(channel_row(alloc, i, weight, one.weight)?)?;
        weight = one.weight;
    }
    Ok(rows)
}

#[tactic(auto, unfolding(crate::specs::MadeGraphs::made_channel))]
fn channel_row(alloc: Global, i: usize, v: u64, w: u64) -> Result<ChannelRow, NoMemory>
    requires index { i < ACTORS }
    requires v { (1 ≤ v) × (v ≤ 3) }
    requires w { (1 ≤ w) × (w ≤ 3) }
    ensures { IfOk result (λ row. row ≡ made_channel i v w) }
{
    let common = common_multiple(v, w);
    let name = format!(in alloc; "c{i}")?;
    Ok(ChannelRow {
        name: Text::new(name),
        source: i as u32,
        target: i as u32 + 1,
        made: one_number(alloc, common / v)?,
        taken: one_number(alloc, common / w)?,
        tokens: 0,
        size: 1,
    })
}

/// Of two different weights up to 3 that aren't 1 one is 2 and the other 3.
#[tactic(auto, unfolding(crate::specs::MadeGraphs::common_multiple))]
fn common_multiple(v: u64, w: u64) -> u64
    requires v { (1 ≤ v) × (v ≤ 3) }
    requires w { (1 ≤ w) × (w ≤ 3) }
    ensures value { result ≡ common_multiple v w }
    ensures least { IsLcm v w result }
{
    if v == w { v } else { v * w }
}
