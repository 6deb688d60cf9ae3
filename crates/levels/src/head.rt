//! A number that tells most distributions apart in their order.
ghost use Rattle.std.specs.Prelude.{◌≡◌};
ghost use Rattle.levels.specs.inside.Heads.{code_of, first_code, head_of};

use std::cmp::min;

/// The greatest code of a capacity.
const GREATEST: u64 = 4_294_967_295;

/// The codes of the first two capacities as one number, which never falls as distributions rise in lexicographic order.
pub(crate) fn head(capacities: &[Option<u64>]) -> u64
    ensures { result ≡ head_of capacities.now }
{
    match capacities {
        [] => 0,
        [first, rest @ ..] => {
            let code = code(*first);
            let next = if code == GREATEST { 0 } else { second(rest) };
            code * (GREATEST + 1) + next
        }
    }
}

/// The code of the first capacity that is left, 0 where none is.
fn second(rest: &[Option<u64>]) -> u64
    ensures { result ≡ first_code rest.now }
{
    match rest {
        [] => 0,
        [second, ..] => code(*second),
    }
}

/// The code of a capacity: one more than it, the greatest for all large ones, and 0 for none.
pub(crate) fn code(capacity: Option<u64>) -> u64
    ensures { result ≡ code_of capacity }
{
    match capacity {
        Some(room) => min(room, GREATEST - 1) + 1,
        None => 0,
    }
}
