use crate::compare_tests::compare;
use crate::engine_tests::{Event, fires, follow};
use crate::phase_net::two_phases;
use std::test::Fail;

/// An event of the net of two actors, of which the first one has phases.
fn at<'a>(
    moment: u64,
    started: &'a [u64],
    tokens: &'a [u128],
    phases: &'a [u32],
    left: &'a [&'a [u64]],
) -> Event<'a> {
    Event {
        moment,
        started,
        tokens,
        left,
        phases,
    }
}

// By hand: the first firing of a takes two of the three tokens, and ends at 1. The second takes the third one, and ends at 5
// with two tokens for b, whose firings end at 7. Then there are three tokens again.
#[test]
fn phases_take_turns(rt: HostRuntime) -> Result<(), Fail> {
    let events = [
        at(0, &[1, 0], &[0, 1, 0], &[1, 0], &[&[1], &[]]),
        at(1, &[2, 1], &[0, 0, 0], &[0, 0], &[&[4], &[2]]),
        at(3, &[2, 1], &[0, 1, 0], &[0, 0], &[&[2], &[]]),
        at(5, &[2, 3], &[0, 1, 1], &[0, 0], &[&[], &[2, 2]]),
        at(7, &[3, 3], &[0, 1, 0], &[1, 0], &[&[1], &[]]),
    ];
    follow(&rt, rt.alloc(), &two_phases(rt.alloc())?, &events)
}

// With the three tokens a can fire both phases before b.
#[test]
fn phases_run_as_in_the_plain_program(rt: HostRuntime) -> Result<(), Fail> {
    let net = two_phases(rt.alloc())?;
    let goes_on = compare(&rt, rt.alloc(), &net, 60)?;
    assert!(rt; goes_on);
    let fires = fires(rt.alloc(), &net, &[0, 0, 1, 1, 1])?;
    assert!(rt; fires);
    Ok(())
}
