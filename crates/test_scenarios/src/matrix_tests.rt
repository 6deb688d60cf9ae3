use crate::graphs::{graph_of, shared_rows};
use crate::shared::matrix;
use sd_base::NoMemory;
use std::alloc::Global;
use std::process::Abort;
use std::test::Fail;
use test_nets::{Line, channel};
use token_matrix::{Entry, Matrix, MatrixError};

/// The matrix of a graph by its times and channels, of which the first are shared, or why it has none.
fn made(
    rt: &impl Abort,
    alloc: Global,
    times: &[u64],
    channels: &[(&str, Line)],
    shared: &[(&str, u64)],
) -> Result<Result<Matrix, MatrixError>, NoMemory> {
    let graph = graph_of(alloc, times, channels)?;
    let tokens = shared_rows(alloc, shared)?;
    Ok(matrix(rt, alloc, &graph, tokens.as_slice()))
}

/// Asserts the rows of the matrix of a graph by its times and channels, of which the first are shared.
fn check(
    rt: &impl Abort,
    alloc: Global,
    times: &[u64],
    channels: &[(&str, Line)],
    shared: &[(&str, u64)],
    rows: &[&[Option<u64>]],
) -> Result<(), Fail> {
    match made(rt, alloc, times, channels, shared)? {
        Ok(found) => check_rows(rt, &found, rows),
        Err(_) => panic!(rt; "a graph without a matrix"),
    }
    Ok(())
}

fn check_rows(rt: &impl Abort, found: &Matrix, rows: &[&[Option<u64>]]) {
    assert!(rt; found.rows().len() == rows.len());
    for (row, wanted) in found.rows().iter().zip(rows) {
        check_row(rt, row.as_slice(), *wanted);
    }
}

fn check_row(rt: &impl Abort, row: &[Entry], wanted: &[Option<u64>]) {
    assert!(rt; row.len() == wanted.len());
    for (entry, wanted) in row.iter().zip(wanted) {
        assert!(rt; entry.get() == *wanted);
    }
}

// x takes 2 time units and y 3, one after the other.
#[test]
fn a_ring_takes_the_times_of_its_actors(rt: HostRuntime) -> Result<(), Fail> {
    let channels = [
        ("yx", channel(1, 1, 1, 0, 1)),
        ("xy", channel(0, 1, 1, 1, 0)),
    ];
    check(
        &rt,
        rt.alloc(),
        &[2, 3],
        &channels,
        &[("yx", 1)],
        &[&[Some(5)]],
    )
}

// x and y have a token of their own each, and y waits for x.
#[test]
fn a_token_that_is_not_waited_for_has_no_entry(rt: HostRuntime) -> Result<(), Fail> {
    let channels = [
        ("sx", channel(0, 1, 1, 0, 1)),
        ("sy", channel(1, 1, 1, 1, 1)),
        ("xy", channel(0, 1, 1, 1, 0)),
    ];
    let rows: [&[Option<u64>]; 2] = [&[Some(3), None], &[Some(5), Some(2)]];
    check(
        &rt,
        rt.alloc(),
        &[3, 2],
        &channels,
        &[("sx", 1), ("sy", 1)],
        &rows,
    )
}

// One of three tokens is taken in a round, and the others move up.
#[test]
fn tokens_that_are_left_move_up(rt: HostRuntime) -> Result<(), Fail> {
    let channels = [("s", channel(0, 1, 1, 0, 3))];
    let rows: [&[Option<u64>]; 3] = [
        &[None, Some(0), None],
        &[None, None, Some(0)],
        &[Some(7), None, None],
    ];
    check(&rt, rt.alloc(), &[7], &channels, &[("s", 3)], &rows)
}

// x fires three times and y twice: y's first firing needs x's first two, its second one the last two.
#[test]
fn each_firing_waits_for_what_it_takes(rt: HostRuntime) -> Result<(), Fail> {
    let channels = [("q", channel(1, 3, 2, 0, 6)), ("p", channel(0, 2, 3, 1, 0))];
    let first: &[Option<u64>] = &[Some(5), Some(5), Some(5), Some(5), None, None];
    let second: &[Option<u64>] = &[None, None, Some(5), Some(5), Some(5), Some(5)];
    let rows = [first, first, first, second, second, second];
    check(&rt, rt.alloc(), &[2, 3], &channels, &[("q", 6)], &rows)
}

/// Whether there is no matrix since a round is blocked, with these firings and channels by actor.
fn is_blocked(made: &Result<Matrix, MatrixError>, wanted: &[u64], lacking: &[Option<u32>]) -> bool {
    match made {
        Err(MatrixError::Blocked { counts, lacks }) => {
            counts.as_slice() == wanted && lacks.as_slice() == lacking
        }
        _ => false,
    }
}

// x lacks tokens on u and y on t.
#[test]
fn a_blocked_round_tells_what_is_lacked(rt: HostRuntime) -> Result<(), Fail> {
    let channels = [
        ("s", channel(1, 1, 1, 0, 1)),
        ("t", channel(0, 1, 1, 1, 0)),
        ("u", channel(1, 1, 1, 0, 0)),
    ];
    let made = made(&rt, rt.alloc(), &[1, 1], &channels, &[("s", 1)])?;
    assert!(rt; is_blocked(&made, &[0, 0], &[Some(2), Some(1)]));
    Ok(())
}

// One firing times five million tokens is more than four million.
#[test]
fn stamps_have_a_limit(rt: HostRuntime) -> Result<(), Fail> {
    let loops = channel(0, 1, 1, 0, 1_000_000);
    let channels = [
        ("a", loops),
        ("b", loops),
        ("c", loops),
        ("d", loops),
        ("e", loops),
    ];
    let tokens = [
        ("a", 1_000_000),
        ("b", 1_000_000),
        ("c", 1_000_000),
        ("d", 1_000_000),
        ("e", 1_000_000),
    ];
    let made = made(&rt, rt.alloc(), &[1], &channels, &tokens)?;
    assert!(rt; matches!(&made, Err(MatrixError::Limit)));
    Ok(())
}
