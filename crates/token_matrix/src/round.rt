//! One round of a net in which each actor has one phase, carried out on rows in place of stamps.
//!
//! A scenario's round is carried out on rows. In place of stamps each token has a row, which says how long after each
//! shared token it comes; tokens that a firing puts together have one row. The rows of the tokens that are left are the
//! matrix.
ghost use Rattle.std.specs.Prelude.{◌≡◌, ◌<◌, ◌+◌, ℕ, [], IfOk, OnOk, length, take};
ghost use Rattle.firing.specs.declared.sums.Port.TheVariants.{Made, Taken};
ghost use Rattle.firing.specs.Wiring.{IsListed};
ghost use Rattle.token_matrix.specs.inside.Lines.{HasOnePhase, AreReady, AreTaken, IsLatest, ArePut};
ghost use Rattle.token_matrix.specs.inside.RoundRows.{IsStart, IsDue, StandsAfter};

use crate::entries::{Entry, delay, free_row};
use crate::line::Line;
use firing::{Firing, Wired, Wiring, know_laws};
use sd_base::{NoMemory, Rows};
use std::alloc::Global;
use std::rc::Rc;

/// Fires a whole round in an order. Cost: linear in the firings times the channels of the actors fired times the
/// shared tokens.
pub(crate) fn run_round<F: Firing>(
    alloc: Global,
    net: &F,
    order: &[u32],
    size: usize,
    lines: &mut [Line],
) -> Result<(), NoMemory>
    requires { (first : (ℕ → ℕ)) × IsStart (F.net net.now) first size order.now lines.old }
    ensures { OnOk result ((first : (ℕ → ℕ)) → StandsAfter (F.net net.now) first size [] lines.old → StandsAfter (F.net net.now) first size order.now lines.new) }
{
    let wiring = Wiring::new(alloc, net)?;
    let wired = Wired {
        net,
        wiring: &wiring,
    };
    for place in 0..order.len() {
        fire(alloc, &wired, order, place, size, lines)?;
    }
    Ok(())
}

/// Fires the actor at a place of an order: its row is the latest of the rows of the tokens that it takes.
fn fire<F: Firing>(
    alloc: Global,
    wired: &Wired<F>,
    order: &[u32],
    place: usize,
    size: usize,
    lines: &mut [Line],
) -> Result<(), NoMemory>
    requires { (first : (ℕ → ℕ)) × IsDue (F.net wired.now.net.now) first size order.now place lines.old }
    ensures { OnOk result ((first : (ℕ → ℕ)) → StandsAfter (F.net wired.now.net.now) first size (take place order.now) lines.old
        → StandsAfter (F.net wired.now.net.now) first size (take (place + 1) order.now) lines.new) }
{
    let net = wired.net;
    know_laws(net);
    let actor = order[place];
    let mut row = take_row(alloc, net, wired.inputs_of(actor), actor, size, lines)?;
    delay(row.as_mut_slice(), net.time(actor, 0));
    let row = Rc::new(alloc, Rows::from_vec(row))?;
    put_tokens(net, wired.outputs_of(actor), actor, &row, lines)
}

/// Takes the tokens of a firing, and gives the latest of their rows.
fn take_row<F: Firing>(
    alloc: Global,
    net: &F,
    inputs: &[u32],
    actor: u32,
    size: usize,
    lines: &mut [Line],
) -> Result<Vec<Entry>, NoMemory>
    requires actor { actor < length (F.net net.now).times }
    requires phases { HasOnePhase (F.net net.now) }
    requires listed { IsListed (F.net net.now) Taken actor inputs.now }
    requires ready { AreReady (F.net net.now) actor size lines.old }
    ensures taken { OnOk result (AreTaken (F.net net.now) actor lines.old lines.new) }
    ensures latest { IfOk result (λ row. IsLatest (F.net net.now) actor size lines.old row.items) }
{
    know_laws(net);
    let mut row = free_row(alloc, size)?;
    for channel in inputs {
        let tokens = net.taken(*channel, 0);
        lines[*channel as usize].take(tokens, row.as_mut_slice())?;
    }
    Ok(row)
}

/// Puts the tokens of a firing, all with one row.
fn put_tokens<F: Firing>(
    net: &F,
    outputs: &[u32],
    actor: u32,
    row: &Rc<Rows<Entry>>,
    lines: &mut [Line],
) -> Result<(), NoMemory>
    requires actor { actor < length (F.net net.now).times }
    requires phases { HasOnePhase (F.net net.now) }
    requires listed { IsListed (F.net net.now) Made actor outputs.now }
    requires long { length lines.old ≡ length (F.net net.now).channels }
    ensures { OnOk result (ArePut (F.net net.now) actor row.now.value lines.old lines.new) }
{
    know_laws(net);
    for channel in outputs {
        let tokens = net.made(*channel, 0);
        lines[*channel as usize].put(row.clone()?, tokens)?;
    }
    Ok(())
}
