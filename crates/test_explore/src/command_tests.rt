use crate::meeting_tests::Meeting;
use sd_base::{Ledger, Rows, Steps, Text};
use sd_command::{Status, analyse};
use sd_io::{MemoryShelf, MemorySink, names_differ};
use std::alloc::{AllocError, Global};
use std::test::Fail;

/// The chain `alpha: a 2 -> 3 b`, `beta: b 1 -> 2 c` with times 1, 2 and 2.
const CHAIN: &str =
    "<sdf3 type='sdf' version='1.0'><applicationGraph name='chain'><sdf name='chain' type='Chain'>\
<actor name='a' type='A'><port name='p' type='out' rate='2'/></actor>\
<actor name='b' type='B'><port name='q' type='in' rate='3'/><port name='r' type='out' rate='1'/></actor>\
<actor name='c' type='C'><port name='s' type='in' rate='2'/></actor>\
<channel name='alpha' srcActor='a' srcPort='p' dstActor='b' dstPort='q'/>\
<channel name='beta' srcActor='b' srcPort='r' dstActor='c' dstPort='s'/>\
</sdf><sdfProperties>\
<actorProperties actor='a'><processor type='p' default='true'><executionTime time='1'/></processor></actorProperties>\
<actorProperties actor='b'><processor type='p' default='true'><executionTime time='2'/></processor></actorProperties>\
<actorProperties actor='c'><processor type='p' default='true'><executionTime time='2'/></processor></actorProperties>\
</sdfProperties></applicationGraph></sdf3>";

/// Its points up to a storage of 10, where no firings of an actor overlap.
const POINTS: &str = "points 4\n\
point 6 1/7\nbuffers alpha=4,beta=2\nschedule 7 1\na 0 1 4\nb 2 5\nc 7\n\
point 8 1/6\nbuffers alpha=5,beta=3\nschedule 6 1\na 0 2 5\nb 3 6\nc 8\n\
point 9 1/5\nbuffers alpha=6,beta=3\nschedule 5 1\na 0 2 3\nb 3 5\nc 7\n\
point 10 1/4\nbuffers alpha=7,beta=3\nschedule 4 1\na 0 1 2\nb 2 4\nc 6\n";

/// Executions that were run.
struct Executions;

impl Ledger for Executions {}

/// A shelf with the chain as its only file.
fn shelf_with_chain(alloc: Global) -> Result<Rows<(Text, Rows<u8>)>, AllocError> {
    let mut files = Rows::new(alloc);
    let bytes = Vec::from_slice(alloc, CHAIN.as_bytes())?;
    files.push((Text::of(alloc, "chain.xml")?, Rows::from_vec(bytes)))?;
    Ok(files)
}

/// The words that ask for the points.
fn words(alloc: Global) -> Result<Vec<Text>, AllocError> {
    let mut words = Vec::new(alloc);
    for word in [
        "--algo=storage",
        "--graph=chain.xml",
        "--no-overlap",
        "--limit=10",
    ] {
        words.push(Text::of(alloc, word)?)?;
    }
    Ok(words)
}

// The gate holds item 0 of level 8 until item 1 has entered: (5, 3) and (6, 2).
#[test]
fn the_top_call_evaluates_a_level_side_by_side(rt: HostRuntime) -> Result<(), Fail> {
    let alloc = rt.alloc();
    let files = shelf_with_chain(alloc)?;
    assert!(rt; names_differ(files.as_slice()));
    let mut shelf = MemoryShelf::new(files, Rows::new(alloc))?;
    let mut out = MemorySink::new(alloc, 1000, 64, Rows::new(alloc))?;
    let mut err = MemorySink::new(alloc, 1000, 64, Rows::new(alloc))?;
    let words = words(alloc)?;
    let gate = Meeting::new();
    let mut steps = Steps::new(Executions);
    let status = analyse(
        &rt,
        alloc,
        words.as_slice(),
        &mut shelf,
        &mut out,
        &mut err,
        &gate,
        &mut steps,
    );
    let Executions = steps.finish();
    assert_eq!(rt; status, Status::Done);
    assert_eq!(rt; out.sent(), POINTS.as_bytes());
    assert!(rt; err.sent().is_empty());
    assert!(rt; gate.has_met());
    Ok(())
}
