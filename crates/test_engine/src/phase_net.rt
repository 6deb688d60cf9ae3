use balance::repetition;
use firing::CsdfNet;
use graph_reader::read_graph;
use std::alloc::Global;
use std::test::Fail;

/// Actor a has two phases, of times 1 and 4, so its firings don't overlap; actor b has one phase, of time 2. Channel 0 leads
/// to b, with 1 and 2 tokens by phase, and channel 1 back, with three tokens, of which 2 and 1 are taken by phase. Channel 2
/// is the own channel of a.
const TWO_PHASES: &str = "<sdf3 type='csdf'><applicationGraph><csdf>
<actor name='a'><port name='o' type='out' rate='1,2'/><port name='i' type='in' rate='2,1'/></actor>
<actor name='b'><port name='i' type='in' rate='1'/><port name='o' type='out' rate='1'/></actor>
<channel name='there' srcActor='a' srcPort='o' dstActor='b' dstPort='i'/>
<channel name='back' srcActor='b' srcPort='o' dstActor='a' dstPort='i' initialTokens='3'/>
</csdf><csdfProperties>
<actorProperties actor='a'><processor><executionTime time='1,4'/></processor></actorProperties>
<actorProperties actor='b'><processor><executionTime time='2'/></processor></actorProperties>
</csdfProperties></applicationGraph></sdf3>";

pub(crate) fn two_phases(alloc: Global) -> Result<CsdfNet, Fail> {
    let graph = read_graph(alloc, TWO_PHASES.as_bytes(), true)?;
    let gamma = repetition(alloc, &graph)?;
    Ok(CsdfNet::new(alloc, &graph, gamma.as_slice(), false)?)
}
