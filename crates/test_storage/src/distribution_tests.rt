use crate::checks::{enlarged, needs_more, step_at, total_of};
use crate::nets::{chain, even_rates};
use firing::SdfNet;
use sd_base::Rows;
use std::alloc::{AllocError, Global};
use std::cmp::Ordering;
use std::process::Abort;
use std::test::Fail;
use storage::{Distribution, corner};

/// The distribution with these capacities.
pub(crate) fn distribution(
    alloc: Global,
    capacities: &[Option<u64>],
) -> Result<Distribution, AllocError> {
    Ok(Distribution {
        capacities: Rows::from_vec(Vec::from_slice(alloc, capacities)?),
    })
}

/// The distributions with these capacities.
fn distributions(alloc: Global, lines: &[&[Option<u64>]]) -> Result<Vec<Distribution>, AllocError> {
    let mut all = Vec::new(alloc);
    for line in lines {
        all.push(distribution(alloc, line)?)?;
    }
    Ok(all)
}

/// Asserts the capacities and the storage of a distribution.
fn check(
    rt: &impl Abort,
    net: &SdfNet,
    distribution: &Distribution,
    capacities: &[Option<u64>],
    total: u64,
) {
    assert_eq!(rt; distribution.capacities.as_slice(), capacities);
    assert_eq!(rt; total_of(rt, net, distribution), total);
}

// The rates 2 and 3 have divisor 1 and maximum 3, and the rates 1 and 2 have 1 and 2. From the corner (3, 2), one step on
// beta gives (3, 3).
#[test]
fn the_corner_of_a_chain_has_its_greatest_rates(rt: HostRuntime) -> Result<(), Fail> {
    let net = chain(rt.alloc())?;
    let least = corner(rt.alloc(), &net)?;
    check(&rt, &net, &least, &[Some(3), Some(2)], 5);
    assert_eq!(rt; (step_at(&rt, &net, 0), step_at(&rt, &net, 1)), (1, 1));
    assert!(rt; needs_more(&rt, &net, &least, 4));
    let more = enlarged(&rt, rt.alloc(), &least, 1, 1)?;
    check(&rt, &net, &more, &[Some(3), Some(3)], 6);
    Ok(())
}

// The divisor of 4 and 6 is 2, so the capacities that tell apart are 1, 3, 5, 7 and so on, and the first that is at least
// 6 is 7; tokens of size 5 make it 35. A self-loop has no capacity.
#[test]
fn steps_begin_at_the_tokens_and_sizes_count(rt: HostRuntime) -> Result<(), Fail> {
    let net = even_rates(rt.alloc())?;
    let least = corner(rt.alloc(), &net)?;
    check(&rt, &net, &least, &[Some(7), None], 35);
    assert_eq!(rt; step_at(&rt, &net, 0), 2);
    let more = enlarged(&rt, rt.alloc(), &least, 0, 2)?;
    check(&rt, &net, &more, &[Some(9), None], 45);
    let same = enlarged(&rt, rt.alloc(), &least, 1, 2)?;
    check(&rt, &net, &same, &[Some(7), None], 35);
    Ok(())
}

#[test]
fn a_copy_of_a_distribution_equals_it(rt: HostRuntime) -> Result<(), Fail> {
    let one = distribution(rt.alloc(), &[Some(7), None])?;
    assert_eq!(rt; one.copy(rt.alloc())?, one);
    Ok(())
}

#[test]
fn distributions_are_in_lexicographic_order(rt: HostRuntime) -> Result<(), Fail> {
    let lines: [&[Option<u64>]; 6] = [
        &[None, Some(9)],
        &[Some(4), None],
        &[Some(4), Some(2)],
        &[Some(4), Some(2), None],
        &[Some(4), Some(3)],
        &[Some(5), Some(1)],
    ];
    let rising = distributions(rt.alloc(), &lines)?;
    assert_eq!(rt; rising.len(), 6);
    check_order(&rt, rising.as_slice());
    Ok(())
}

/// Asserts that each distribution comes before all later ones.
fn check_order(rt: &impl Abort, rising: &[Distribution]) {
    for i in 0..rising.len() {
        for j in 0..rising.len() {
            let order = rising[i].order(&rising[j]);
            let expected = i.cmp(&j);
            assert!(rt; order == expected, "{} {}", i, j);
            assert_eq!(rt;
                rising[i].is_no_later(&rising[j]),
                order != Ordering::Greater
            );
        }
    }
}
