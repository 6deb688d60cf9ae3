use anyhow::Result;
use balance::repetition;
use event_loops::loop_by_events;
use firing::{CsdfNet, Firing, LoopTable, SdfNet, Wired, Wiring};
use graph_reader::read_graph;
use liveness::{Round, one_round};
use sd_base::Kind;
use sd_base::limits::{FILE_BYTES, LEAST_STATES};
use sd_io::Shelf;
use std::alloc::Global;
use test_nets::{is_fed, is_joined};

/// A graph's file, whether the firings of an actor may not overlap, and how many states the search may see.
#[derive(Clone, Copy, Debug)]
struct Request<'a> {
    file: &'a str,
    alone: bool,
    states: u64,
}

/// Finds the loop of a graph's self-timed execution by events, whether needs find it or not. Where no state may be seen it does all
/// but search.
pub(crate) fn line_of<S: Shelf>(
    alloc: Global,
    shelf: &mut S,
    words: &[String],
) -> Result<Option<String>> {
    let Some(request) = request_of(words) else {
        return Ok(None);
    };
    let bytes = shelf.take(alloc, request.file, FILE_BYTES as usize)?;
    let line = match loop_in(alloc, bytes.as_slice(), &request)? {
        Some(table) => told(alloc, &table)?,
        None => String::from_str(alloc, "not searched")?,
    };
    Ok(Some(line))
}

/// What the words ask for.
fn request_of(words: &[String]) -> Option<Request<'_>> {
    let [file, how, states] = words else {
        return None;
    };
    Some(Request {
        file: file.as_str(),
        alone: is_alone(how.as_str())?,
        states: states.as_str().parse().ok()?,
    })
}

fn is_alone(how: &str) -> Option<bool> {
    match how {
        "overlap" => Some(false),
        "no-overlap" => Some(true),
        _ => None,
    }
}

fn told(alloc: Global, table: &LoopTable) -> Result<String> {
    let (entry, period, rounds) = (table.entry, table.period, table.rounds);
    Ok(format!(in alloc; "entry {entry}, period {period}, rounds {rounds}")?)
}

fn loop_in(alloc: Global, bytes: &[u8], request: &Request<'_>) -> Result<Option<LoopTable>> {
    let graph = read_graph(alloc, bytes, true)?;
    let gamma = repetition(alloc, &graph)?;
    let (gamma, alone) = (gamma.as_slice(), request.alone);
    match graph.kind {
        Kind::Sdf => search(
            alloc,
            &SdfNet::new(alloc, &graph, gamma, alone)?,
            request.states,
        ),
        Kind::Csdf => search(
            alloc,
            &CsdfNet::new(alloc, &graph, gamma, alone)?,
            request.states,
        ),
    }
}

/// The loop of a net. None: no state may be searched, or self-timed execution of the net has no loop or may have none.
fn search<F: Firing>(alloc: Global, net: &F, states: u64) -> Result<Option<LoopTable>> {
    if !is_joined(net) || !is_fed(net) {
        return Ok(None);
    }
    let wiring = Wiring::new(alloc, net)?;
    let wired = Wired {
        net,
        wiring: &wiring,
    };
    match one_round(alloc, net)? {
        Round::Live { .. } if LEAST_STATES <= states => {
            Ok(Some(loop_by_events(alloc, &wired, states)?))
        }
        Round::Live { .. } | Round::Blocked { .. } => Ok(None),
    }
}
