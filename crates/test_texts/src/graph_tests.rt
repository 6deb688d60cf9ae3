ghost use Rattle.sd_base.specs.Tables.{KeepsRules};

use gen_graph::{make, write_graph};
use graph_reader::read_graph;
use sd_base::GraphFile;
use std::alloc::Global;
use std::process::Abort;

// The draws of seed 0: 12345, 1406932606, 654583775, 1449466924. So a0 has weight 1 and time 4, and a1 weight 2 and time 5.
const MADE: &str = "<?xml version=\"1.0\" encoding=\"UTF-8\"?>
<sdf3 type='sdf' version='1.0'>
<applicationGraph name='g'>
<sdf name='g' type='G'>
<actor name='a0' type='a0'>
<port name='o0' type='out' rate='2'/>
</actor>
<actor name='a1' type='a1'>
<port name='i0' type='in' rate='1'/>
</actor>
<channel name='c0' srcActor='a0' srcPort='o0' dstActor='a1' dstPort='i0' initialTokens='0'/>
</sdf>
<sdfProperties>
<actorProperties actor='a0'>
<processor type='p' default='true'>
<executionTime time='4'/>
</processor>
</actorProperties>
<actorProperties actor='a1'>
<processor type='p' default='true'>
<executionTime time='5'/>
</processor>
</actorProperties>
<channelProperties channel='c0'>
<tokenSize sz='1'/>
</channelProperties>
</sdfProperties>
</applicationGraph>
</sdf3>
";

// Lists by phase, names with each character that needs an entity, a channel from an actor to itself, tokens, a size,
// and an actor with neither ports nor times.
const PHASES: &str = "<?xml version=\"1.0\" encoding=\"UTF-8\"?>
<sdf3 type='csdf' version='1.0'>
<applicationGraph name='g'>
<csdf name='g' type='G'>
<actor name='a&amp;&lt;' type='a&amp;&lt;'>
<port name='o0' type='out' rate='1,0,2'/>
<port name='i0' type='in' rate='0,3,0'/>
</actor>
<actor name='&gt;&quot;&apos;é' type='&gt;&quot;&apos;é'/>
<channel name='x y' srcActor='a&amp;&lt;' srcPort='o0' dstActor='a&amp;&lt;' dstPort='i0' initialTokens='7'/>
</csdf>
<csdfProperties>
<actorProperties actor='a&amp;&lt;'>
<processor type='p' default='true'>
<executionTime time='4,1,20'/>
</processor>
</actorProperties>
<channelProperties channel='x y'>
<tokenSize sz='12'/>
</channelProperties>
</csdfProperties>
</applicationGraph>
</sdf3>
";

/// Asserts that a table is written as a text.
fn check(rt: &impl Abort, alloc: Global, graph: &GraphFile, expected: &str)
    requires { KeepsRules graph.now }
{
    let bytes = write_graph(alloc, graph).expect(rt, "there is memory");
    let text = str::from_utf8(bytes.as_slice()).expect(rt, "UTF-8");
    assert_eq!(rt; text, expected);
}

#[test]
fn two_actors_of_seed_0(rt: HostRuntime) {
    let graph = make(rt.alloc(), 0, 2).expect(&rt, "there is memory");
    check(&rt, rt.alloc(), &graph, MADE);
}

// What a table is written as that was read from its written form is that form.
#[test]
fn tables_in_their_written_form(rt: HostRuntime) {
    for text in [MADE, PHASES] {
        let graph = read_graph(rt.alloc(), text.as_bytes(), false).expect(&rt, "a graph file");
        check(&rt, rt.alloc(), &graph, text);
    }
}
