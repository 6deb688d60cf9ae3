//! Which bounds act: those that no other leaves out.
ghost use Rattle.std.specs.Prelude.{◌≡◌, ◌<◌, ◌∷◌, ◌++◌, [], All, IfOk, IsTrue, length};
ghost use Rattle.covers.specs.Bounds.{AreEnough, StandsAt};
ghost use Rattle.covers.specs.inside.Leaving.{AreLeft, Dominates};

use crate::bound::Bound;
use sd_base::{Fraction, NoMemory};
use std::alloc::Global;

/// The places of the bounds that act once one more stands behind all others: its own, unless a bound that acts dominates it, and
/// those of bounds that it doesn't dominate. Cost: a pass over the bounds that act, and at each one over the channels of both at
/// most.
pub(crate) fn acting_with(
    alloc: Global,
    bounds: &[Bound],
    best: &Fraction,
    acting: &[usize],
    bound: &Bound,
) -> Result<Vec<usize>, NoMemory>
    requires enough { AreEnough bounds.now best.now acting.now }
    ensures { IfOk result (λ new. AreEnough (bounds.now ++ bound.now ∷ []) best.now new.items) }
{
    if is_needless(bounds, best, acting, bound) {
        let same = acting.to_vec(alloc)?;
        return Ok(same);
    }
    let mut new = left_beside(alloc, bounds, best, acting, bound)?;
    new.push(bounds.len())?;
    Ok(new)
}

/// Whether a bound that acts dominates the bound.
fn is_needless(bounds: &[Bound], best: &Fraction, acting: &[usize], bound: &Bound) -> bool
    requires below { All (λ place. place < length bounds.now) acting.now }
    ensures { IsTrue result → StandsAt bounds.now acting.now (λ other. Dominates best.now other bound.now) }
{
    for place in acting {
        if bounds[*place].dominates(best, bound) {
            return true;
        }
    }
    false
}

/// The places of those that act and that the bound doesn't dominate.
fn left_beside(
    alloc: Global,
    bounds: &[Bound],
    best: &Fraction,
    acting: &[usize],
    bound: &Bound,
) -> Result<Vec<usize>, NoMemory>
    requires below { All (λ place. place < length bounds.now) acting.now }
    ensures { IfOk result (λ left. AreLeft best.now bounds.now bound.now acting.now left.items) }
{
    let mut left = Vec::new(alloc);
    for place in acting {
        if !bound.dominates(best, &bounds[*place]) {
            left.push(*place)?;
        }
    }
    Ok(left)
}
