ghost use Rattle.std.specs.Prelude.{◌≡◌, ℕ, ◌<◌, ◌≤◌, IfOk, length};
ghost use Rattle.sd_base.specs.declared.limits.TheConstants.{TOKENS};
ghost use Rattle.sd_base.specs.Net.{channel_at};
ghost use Rattle.sd_base.specs.Tables.{KeepsRules};
ghost use Rattle.sd_steps.specs.Courses.{After, ends_by};
ghost use Rattle.sd_command.specs.commands.Expansions.{expanding, graph_put, telling_graph};
ghost use Rattle.sd_steps.specs.Steps.{Does};
ghost use Rattle.sd_command.specs.inside.Goings.{Goes};

use firing::{Firing, know_laws};
use gen_graph::write_graph;
use report::expand_text;
use sd_base::{GraphFile, NoMemory, Text};
use sd_steps::reading::above;
use sd_steps::{Answer, FileKind, Put, Stop};
use single_rate::{ExpandError, expansions_keep_schedules};
use std::alloc::Global;

/// The single-rate expansion of a net, put under the name of the output. `graph` has the names of its actors.
pub(crate) fn expansion_of<F: Firing>(
    alloc: Global,
    net: &F,
    graph: &GraphFile,
    output: &str,
) -> Result<Answer, Stop>
    requires actors { length graph.now.actors ≡ length (F.net net.now).times }
    requires tokens { (i : ℕ) → i < length (F.net net.now).channels → (channel_at (F.net net.now) i).tokens ≤ TOKENS }
    ensures { (faults : ℕ) → Goes (After (expanding (F.net net.now) graph.now) λ big. ends_by (telling_graph output.now big)) result 0 faults faults }
{
    let big = expansion(alloc, net, graph)?;
    Ok(Answer {
        text: expand_text(alloc, &big)?,
        put: Some(graph_put(alloc, output, &big)?),
    })
}

// The expansion of a net, or the refusal of one that is too large.
fn expansion<F: Firing>(alloc: Global, net: &F, graph: &GraphFile) -> Result<GraphFile, Stop>
    requires actors { length graph.now.actors ≡ length (F.net net.now).times }
    requires tokens { (i : ℕ) → i < length (F.net net.now).channels → (channel_at (F.net net.now) i).tokens ≤ TOKENS }
    ensures does { Does (expanding (F.net net.now) graph.now) result }
    ensures keeps { IfOk result KeepsRules }
{
    know_laws(net);
    expansions_keep_schedules();
    match single_rate::expand(alloc, net, graph) {
        Ok(big) => Ok(big),
        Err(ExpandError::Limit { what }) => Err(Stop::Refused(above(alloc, what)?)),
        Err(ExpandError::NoMemory) => Err(Stop::OutOfMemory),
    }
}

// A graph as the file that is put under the name of the output.
fn graph_put(alloc: Global, output: &str, graph: &GraphFile) -> Result<Put, NoMemory>
    requires { KeepsRules graph.now }
    ensures { IfOk result (λ put. put ≡ graph_put output.now graph.now) }
{
    Ok(Put {
        kind: FileKind::Output,
        name: Text::of(alloc, output)?,
        bytes: write_graph(alloc, graph)?,
    })
}
