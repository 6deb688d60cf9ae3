//! Longest ways of entries of a matrix, and their channels.
ghost use Rattle.std.specs.Prelude.{◌≡◌, ◌*◌, ◌≤◌, ℕ, List, All, false, OnOk, length, slice_index, sum};
ghost use Rattle.sd_base.specs.declared.limits.TheConstants.{ROUND, STAMPS};
ghost use Rattle.sd_base.specs.declared.tables.Kind.TheVariants.{Sdf};
ghost use Rattle.sd_base.specs.Tables.{KeepsWideRules, IsTimed};
ghost use Rattle.sd_base.specs.Net.{IsRepetitionOf};
ghost use Rattle.sd_base.specs.FileNet.{net_of};
ghost use Rattle.sd_base.specs.Untimed.{IsLive, IsRoundOrder};
ghost use Rattle.sd_base.specs.Scenarios.{shared_count, Shares};
ghost use Rattle.token_matrix.specs.Stamps.{first_of};
ghost use Rattle.token_matrix.specs.Ways.{IsWay};
ghost use Rattle.entry_ways.specs.WayMarks.{AreWayMarks, HasWay, IsLongestWay};
ghost use Rattle.entry_ways.specs.inside.Traces.{AreApart, AreMarked};

use crate::chains::Chains;
use crate::column::column_of;
use crate::firsts::firsts_of;
use crate::way::mark_way;
use firing::{Firing, SdfNet, Wired, Wiring};
use liveness::{Round, fire_round};
use sd_base::{GraphFile, NoMemory, SharedRow};
use std::alloc::Global;

/// An entry of a matrix by the numbers of two shared tokens: its column's, which is there before a round, and its row's,
/// which is left after it.
#[derive(Clone, Copy, Debug)]
pub struct EntryPlace {
    pub column: u64,
    pub row: u64,
}

/// Marks the channels of a scenario's graph from which tokens are taken along one longest way of each of some entries of
/// its matrix; what is marked already stays so. Cost: once that of a round, and the channels times the shared rows; for
/// each entry the firings of a round times the channels of the actors fired, and a step for each firing of which a firing
/// takes tokens. Memory of a word for each channel and of four for each firing of a round, whatever the number of entries.
pub fn mark_ways(
    alloc: Global,
    graph: &GraphFile,
    gamma: &[u64],
    shared: &[SharedRow],
    entries: &[EntryPlace],
    marks: &mut [bool],
) -> Result<(), NoMemory>
    requires rules { KeepsWideRules graph.now }
    requires kind { graph.now.kind ≡ Sdf }
    requires timed { IsTimed graph.now }
    requires gamma { IsRepetitionOf graph.now gamma.now }
    requires small { sum gamma.now ≤ ROUND }
    requires within { sum gamma.now * shared_count shared.now ≤ STAMPS }
    requires live { IsLive (net_of graph.now gamma.now false) }
    requires shares { Shares shared.now graph.now }
    requires ways { All (HasWay (net_of graph.now gamma.now false) (first_of shared.now graph.now)) entries.now }
    requires long { length marks.old ≡ length graph.now.channels }
    ensures marked { OnOk result (AreWayMarks (net_of graph.now gamma.now false) (first_of shared.now graph.now) entries.now marks.old marks.new) }
{
    let net = SdfNet::new(alloc, graph, gamma, false)?;
    let wiring = Wiring::new(alloc, &net)?;
    let wired = Wired {
        net: &net,
        wiring: &wiring,
    };
    let firsts = firsts_of(alloc, graph, shared)?;
    match fire_round(alloc, &wired)? {
        Round::Blocked { .. } => unreachable!(),
        Round::Live { order } => {
            for entry in entries {
                let chains = Chains {
                    wired: &wired,
                    firsts: &firsts,
                    token: entry.column,
                };
                mark_entry(alloc, &chains, order.as_slice(), entry.row, marks)?;
            }
            Ok(())
        },
    }
}

/// Marks the channels on one longest way from a shared token to another one.
fn mark_entry<F: Firing>(
    alloc: Global,
    chains: &Chains<F>,
    order: &[u32],
    row: u64,
    marks: &mut [bool],
) -> Result<(), NoMemory>
    requires order { IsRoundOrder (F.net chains.now.wired.now.net.now) order.now }
    requires apart { AreApart (F.net chains.now.wired.now.net.now) (slice_index chains.now.firsts.now) }
    requires way { (e : ℕ) × (cs : List ℕ) × IsWay (F.net chains.now.wired.now.net.now) (slice_index chains.now.firsts.now) chains.now.token row e cs }
    requires wide { length (F.net chains.now.wired.now.net.now).channels ≤ length marks.old }
    ensures { OnOk result ((cs : List ℕ) × IsLongestWay (F.net chains.now.wired.now.net.now) (slice_index chains.now.firsts.now) chains.now.token row cs × AreMarked cs marks.old marks.new) }
{
    let rows = column_of(alloc, chains, order)?;
    mark_way(chains, rows.as_slice(), row, marks);
    Ok(())
}
