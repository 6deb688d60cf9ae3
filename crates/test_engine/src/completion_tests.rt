use crate::checks::completed;
use std::test::Fail;
use test_nets::ring_of_two;

// x, which takes 2 time units, and y, which takes 3, wait for each other: each round takes 5, and all firings are on the way.
#[test]
fn rounds_of_a_ring_follow_each_other(rt: HostRuntime) -> Result<(), Fail> {
    let net = ring_of_two(rt.alloc())?;
    let four = completed(&rt, rt.alloc(), &net, 4)?;
    assert_eq!(rt; (four.time, four.firings), (20, 8));
    assert_eq!(rt; four.parts.len(), 2);
    assert!(rt; four.parts.as_slice()[0].firings == 4);
    assert!(rt; four.parts.as_slice()[0].time == 8);
    assert!(rt; four.parts.as_slice()[1].firings == 4);
    assert!(rt; four.parts.as_slice()[1].time == 12);
    Ok(())
}
