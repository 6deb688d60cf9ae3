//! The verdict on the text of a certificate for a chain of three actors of times 1, 2 and 2.
ghost use Rattle.balance.specs.Repetition.{IsRound};
ghost use Rattle.cert_text.specs.Orderly.{IsOrderly};
ghost use Rattle.cert_text.specs.Spellable.{IsSpellable};
ghost use Rattle.sd_base.specs.Tables.{IsTimed, KeepsRules};

use balance::repetition;
use cert_checker::{Verdict, check_rate, check_storage, spelled_lines_fit};
use cert_text::{Certificate, read_certificate};
use graph_reader::read_graph;
use sd_base::GraphFile;
use std::alloc::Global;

const CHAIN: &[u8] =
    b"<sdf3 type='sdf'><applicationGraph name='chain'><sdf name='chain' type='Chain'>
<actor name='a' type='A'><port name='out' type='out' rate='2'/></actor>
<actor name='b' type='B'><port name='in' type='in' rate='3'/><port name='out' type='out' rate='1'/></actor>
<actor name='c' type='C'><port name='in' type='in' rate='2'/></actor>
<channel name='alpha' srcActor='a' srcPort='out' dstActor='b' dstPort='in'/>
<channel name='beta' srcActor='b' srcPort='out' dstActor='c' dstPort='in'/>
</sdf><sdfProperties>
<actorProperties actor='a'><processor type='p' default='true'><executionTime time='1'/></processor></actorProperties>
<actorProperties actor='b'><processor type='p' default='true'><executionTime time='2'/></processor></actorProperties>
<actorProperties actor='c'><processor type='p' default='true'><executionTime time='2'/></processor></actorProperties>
</sdfProperties></applicationGraph></sdf3>";

/// The verdict on a text, where it is that of a certificate of the chain alone.
pub(crate) fn of_text(alloc: Global, text: &[u8]) -> Option<Verdict> {
    match read_graph(alloc, CHAIN, true) {
        Ok(graph) => of_graph(alloc, &graph, text),
        Err(_) => None,
    }
}

fn of_graph(alloc: Global, graph: &GraphFile, text: &[u8]) -> Option<Verdict>
    requires rules { KeepsRules graph.now }
    requires timed { IsTimed graph.now }
{
    match repetition(alloc, graph) {
        Ok(gamma) => of_round(alloc, graph, gamma.as_slice(), text),
        Err(_) => None,
    }
}

fn of_round(alloc: Global, graph: &GraphFile, gamma: &[u64], text: &[u8]) -> Option<Verdict>
    requires rules { KeepsRules graph.now }
    requires timed { IsTimed graph.now }
    requires round { IsRound graph.now gamma.now }
{
    spelled_lines_fit();
    match read_certificate(alloc, text) {
        Ok((version, certificate)) => of_certificate(alloc, graph, gamma, version, &certificate),
        Err(_) => None,
    }
}

fn of_certificate(
    alloc: Global,
    graph: &GraphFile,
    gamma: &[u64],
    version: u32,
    certificate: &Certificate,
) -> Option<Verdict>
    requires rules { KeepsRules graph.now }
    requires timed { IsTimed graph.now }
    requires round { IsRound graph.now gamma.now }
    requires spellable { IsSpellable certificate.now }
    requires orderly { IsOrderly certificate.now }
{
    match certificate {
        Certificate::Rate(rate) => check_rate(alloc, graph, gamma, rate).ok(),
        Certificate::Storage(storage) => {
            check_storage(alloc, graph, gamma, storage, version).ok()
        }
        Certificate::Scenario(_) => None,
    }
}
