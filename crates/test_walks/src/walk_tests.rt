use crate::fixtures::{are_on, is_on, lattice, telling};
use covers::Lattice;
use sd_base::NoMemory;
use std::alloc::Global;
use std::process::Abort;
use std::test::Fail;
use walks::{Telling, Walk, held_by, walk};

/// What a walk came to, with a comma after each capacity, and the telling by which it took its last step; or the one that holds
/// it back.
fn shown(alloc: Global, end: &Walk) -> Result<String, NoMemory> {
    match end {
        Walk::Stopped { capacities, by } => {
            let mut text = String::new(alloc);
            for capacity in capacities.as_slice() {
                let part = format!(in alloc; "{},", capacity)?;
                text.push_str(part.as_str())?;
            }
            let last = match by {
                Some(place) => format!(in alloc; " by {}", place)?,
                None => String::from_str(alloc, " at the corner")?,
            };
            text.push_str(last.as_str())?;
            Ok(text)
        }
        Walk::Held { place } => Ok(format!(in alloc; "held by {}", place)?),
    }
}

fn walked(
    rt: &impl Abort,
    alloc: Global,
    lattice: &Lattice,
    tellings: &[Telling],
    goal: &[u64],
) -> Result<String, NoMemory> {
    let are_tellings = are_on(lattice, tellings);
    assert!(rt; are_tellings);
    let is_goal = is_on(lattice, goal);
    assert!(rt; is_goal);
    let end = walk(alloc, lattice, tellings, goal)?;
    shown(alloc, &end)
}

/// Two channels: the first from 1 in steps of 1, the second from 2 in steps of 2.
fn two(rt: &impl Abort, alloc: Global) -> Result<Lattice, NoMemory> {
    lattice(rt, alloc, &[(1, 1), (2, 2)])
}

/// So many of these tellings.
fn first_tellings(alloc: Global, many: usize) -> Result<Vec<Telling>, NoMemory> {
    let mut tellings = Vec::new(alloc);
    tellings.push(telling(alloc, &[1, 2], &[0, 1])?)?;
    tellings.push(telling(alloc, &[2, 2], &[1])?)?;
    tellings.push(telling(alloc, &[1, 4], &[1])?)?;
    tellings.push(telling(alloc, &[2, 6], &[1])?)?;
    tellings.push(telling(alloc, &[3, 2], &[])?)?;
    tellings.truncate(many);
    Ok(tellings)
}

// Each walk towards (3, 6) begins at the last one of these. Two steps lack on each channel of (1, 2), so with the first telling
// the first one is enlarged. The second telling shows the second channel alone, and so does the third one, of (1, 4), to which no
// walk from the corner comes by the first two. At 6 on it the goal has no more, so the fourth one ends the walk; the fifth one,
// of (3, 2), does, since it shows nothing.

#[test]
fn walks_by_what_was_told(rt: HostRuntime) -> Result<(), Fail> {
    let alloc = rt.alloc();
    let lattice = two(&rt, alloc)?;
    for (many, wanted) in [
        (0usize, "1,2, at the corner"),
        (1, "2,2, by 0"),
        (2, "2,4, by 1"),
        (3, "1,6, by 2"),
        (4, "held by 3"),
        (5, "held by 4"),
    ] {
        let tellings = first_tellings(alloc, many)?;
        let text = walked(&rt, alloc, &lattice, tellings.as_slice(), &[3, 6])?;
        assert_eq!(rt; text.as_str(), wanted);
    }
    Ok(())
}

// The newest ones have more than these goals: (3, 2) than (2, 6), (2, 6) than (1, 8) too, and all but (1, 2) than (1, 2). So the
// walks begin at (2, 6), at (1, 4), which lacks steps on the second channel, and at (1, 2).

#[test]
fn begins_at_the_newest_under_the_goal(rt: HostRuntime) -> Result<(), Fail> {
    let alloc = rt.alloc();
    let lattice = two(&rt, alloc)?;
    let tellings = first_tellings(alloc, 5)?;
    for (goal, wanted) in [
        ([2u64, 6], "held by 3"),
        ([1, 8], "1,6, by 2"),
        ([1, 2], "held by 0"),
    ] {
        let text = walked(&rt, alloc, &lattice, tellings.as_slice(), &goal)?;
        assert_eq!(rt; text.as_str(), wanted);
    }
    Ok(())
}

// Where each has more than the goal, a walk begins at the corner, which none holds back.

#[test]
fn begins_at_the_corner_below_all(rt: HostRuntime) -> Result<(), Fail> {
    let alloc = rt.alloc();
    let lattice = two(&rt, alloc)?;
    let mut tellings = Vec::new(alloc);
    tellings.push(telling(alloc, &[2, 2], &[1])?)?;
    let text = walked(&rt, alloc, &lattice, tellings.as_slice(), &[1, 4])?;
    assert_eq!(rt; text.as_str(), "1,2, at the corner");
    Ok(())
}

// With the first telling alone, which shows both channels.

#[test]
fn enlarges_where_most_lacks(rt: HostRuntime) -> Result<(), Fail> {
    let alloc = rt.alloc();
    let lattice = two(&rt, alloc)?;
    let tellings = first_tellings(alloc, 1)?;
    for (goal, wanted) in [
        ([2u64, 8], "1,4, by 0"),
        ([4, 4], "2,2, by 0"),
        ([3, 6], "2,2, by 0"),
        ([1, 4], "1,4, by 0"),
        ([1, 2], "held by 0"),
    ] {
        let text = walked(&rt, alloc, &lattice, tellings.as_slice(), &goal)?;
        assert_eq!(rt; text.as_str(), wanted);
    }
    Ok(())
}

// The last one of no more capacities that has the same on what it shows; the very last one shows nothing, so it holds back all
// from (3, 2) on.

#[test]
fn finds_what_holds_back(rt: HostRuntime) -> Result<(), Fail> {
    let alloc = rt.alloc();
    let tellings = first_tellings(alloc, 5)?;
    for (capacities, wanted) in [
        ([1u64, 2], Some(0usize)),
        ([1, 3], None),
        ([2, 2], Some(1)),
        ([0, 4], None),
        ([1, 4], Some(2)),
        ([2, 4], Some(2)),
        ([1, 6], None),
        ([2, 6], Some(3)),
        ([3, 6], Some(4)),
        ([3, 2], Some(4)),
        ([3, 3], Some(4)),
    ] {
        assert_eq!(rt; held_by(tellings.as_slice(), &capacities), wanted);
    }
    Ok(())
}
