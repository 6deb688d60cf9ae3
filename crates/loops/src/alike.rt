//! Two moments between which rows of starts look as they do where a shape comes again.
ghost use Rattle.std.specs.Prelude.{◌≡◌, ◌<◌, length};

use crate::settled::{end_of, is_after};
use firing::{Firing, know_laws};
use sd_base::Rows;

/// Two moments, at which equal shapes stand or may stand.
#[derive(Clone, Copy, Debug)]
pub struct Pair {
    pub earlier: u64,
    pub later: u64,
}

/// Whether all actors' last starts are as they are where the shape at the earlier moment comes again at the later one, so many
/// rounds after it. A quick test, since unlike shapes are mostly unlike in this: no proof rests on it. Cost: linear in the actors.
pub fn all_end_alike<F: Firing>(net: &F, starts: &[Rows<u64>], pair: Pair, rounds: u64) -> bool
    requires order { pair.earlier < pair.later }
    requires rows { length starts.now ≡ length (F.net net.now).times }
{
    know_laws(net);
    for actor in 0..net.actors() {
        let row = starts[actor as usize].as_slice();
        if !ends_alike(net, actor, row, pair, rounds) {
            return false;
        }
    }
    true
}

/// Whether the last start of an actor is a period after the one so many rounds before it, or both firings are over.
fn ends_alike<F: Firing>(net: &F, actor: u32, row: &[u64], pair: Pair, rounds: u64) -> bool
    requires actor { actor < length (F.net net.now).times }
    requires order { pair.earlier < pair.later }
{
    let more = rounds.saturating_mul(net.round(actor)) as usize;
    if row.len() <= more {
        return true;
    }
    let last = row.len() - 1;
    let like = last - more;
    is_after(row[like], row[last], pair.later - pair.earlier)
        || (end_of(net, actor, row, like) <= u128::from(pair.earlier)
            && end_of(net, actor, row, last) <= u128::from(pair.later))
}
