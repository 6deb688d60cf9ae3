use anyhow::Result;
use firing::{Firing, SdfNet, Wired, Wiring};
use sd_base::NoMemory;
use selftimed::{Engine, Move};
use std::alloc::Global;
use test_nets::{TableError, decoder, sample_rate_converter, token_ring};

/// How many events an engine makes between two looks at the number of its starts.
const EVENTS: u32 = 1000;

/// A net to run.
#[derive(Clone, Copy, Debug)]
enum Which {
    Decoder,
    Converter,
    /// A ring of so many actors with one token.
    Ring(u32),
}

/// A net, and about how many starts are to be made.
#[derive(Clone, Copy, Debug)]
struct Request {
    which: Which,
    starts: u64,
}

/// How many starts and events an engine made.
#[derive(Clone, Copy, Debug)]
struct Made {
    starts: u64,
    events: u64,
}

impl Which {
    fn name(self) -> &'static str {
        match self {
            Which::Decoder => "decoder",
            Which::Converter => "converter",
            Which::Ring(_) => "ring",
        }
    }
}

/// Runs an engine on a net for about as many starts as the words say, and tells how many starts and events there were.
pub(crate) fn line_of(alloc: Global, words: &[String]) -> Result<Option<String>> {
    let Some(request) = request_of(words) else {
        return Ok(None);
    };
    let net = net_of(alloc, request.which)?;
    let made = run(alloc, &net, request.starts)?;
    let name = request.which.name();
    Ok(Some(format!(in alloc; "{name}: {} starts, {} events", made.starts, made.events)?))
}

/// What the words ask for.
fn request_of(words: &[String]) -> Option<Request> {
    let (which, starts) = match words {
        [name, starts] => (plain_net(name.as_str())?, starts),
        [name, actors, starts] if name.as_str() == "ring" => {
            (Which::Ring(actors.as_str().parse().ok()?), starts)
        }
        _ => return None,
    };
    Some(Request {
        which,
        starts: starts.as_str().parse().ok()?,
    })
}

fn plain_net(name: &str) -> Option<Which> {
    match name {
        "decoder" => Some(Which::Decoder),
        "converter" => Some(Which::Converter),
        _ => None,
    }
}

fn net_of(alloc: Global, which: Which) -> Result<SdfNet, TableError> {
    match which {
        Which::Decoder => decoder(alloc),
        Which::Converter => sample_rate_converter(alloc),
        Which::Ring(actors) => token_ring(alloc, actors),
    }
}

/// Runs an engine until it has made so many starts, or can't go on.
fn run(alloc: Global, net: &SdfNet, wanted: u64) -> Result<Made, NoMemory> {
    let wiring = Wiring::new(alloc, net)?;
    let wired = Wired {
        net,
        wiring: &wiring,
    };
    let mut engine = Engine::of_wired(alloc, &wired, 1 << 32)?;
    let mut made = Made {
        starts: 0,
        events: 0,
    };
    for _part in 0..wanted {
        let events = run_part(&mut engine)?;
        made.starts = starts_of(&engine);
        made.events = made.events.saturating_add(events as u64);
        if made.starts >= wanted || events < EVENTS {
            break;
        }
    }
    Ok(made)
}

/// Makes a part's events, or fewer where the engine can't go on.
fn run_part(engine: &mut Engine<'_, SdfNet>) -> Result<u32, NoMemory> {
    for event in 0..EVENTS {
        if engine.advance()? != Move::Stepped {
            return Ok(event);
        }
    }
    Ok(EVENTS)
}

fn starts_of(engine: &Engine<'_, SdfNet>) -> u64 {
    let mut starts = 0u64;
    for actor in 0..engine.net.actors() {
        starts = starts.saturating_add(engine.started(actor));
    }
    starts
}
