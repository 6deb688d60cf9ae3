ghost use Rattle.std.specs.Prelude.{◌≡◌, ◌<◌, ◌++◌, OnOk, length};
ghost use Rattle.std.specs.String.{string_bytes};
ghost use Rattle.report.specs.LinkTexts.{IsNamed, IsRoleIn};
ghost use Rattle.report.specs.CycleTexts.{cycle_header, cycle_lines, firing_text, step_line, IsCycleIn};

use crate::links::{put_actor, put_link};
use critical::{FiringNo, NeedCycle};
use firing::Firing;
use sd_base::{GraphFile, NoMemory, Role};
use std::alloc::{AllocError, Global};

/// Puts the lines of a need cycle at the end of a text: `cycle W h` with its time, its rounds and its first
/// firing, then for each step its firing and its link.
pub(crate) fn put_cycle<F: Firing>(
    alloc: Global,
    text: &mut String,
    net: &F,
    graph: &GraphFile,
    cycle: &NeedCycle,
) -> Result<(), NoMemory>
    requires net { IsNamed graph.now (F.net net.now) }
    requires cycle { IsCycleIn graph.now (F.net net.now) cycle.now }
    ensures { OnOk result (string_bytes text.new ≡ string_bytes text.old ++ cycle_lines graph.now (F.net net.now) cycle.now) }
{
    put_header(text, graph, cycle)?;
    let steps = cycle.steps.to_rows(alloc)?;
    for step in steps.as_slice() {
        put_step(text, graph, step.to, net.role(step.channel))?;
    }
    Ok(())
}

#[tactic(auto, unfolding(crate::specs::CycleTexts::cycle_header))]
pub(crate) fn put_header(
    text: &mut String,
    graph: &GraphFile,
    cycle: &NeedCycle,
) -> Result<(), AllocError>
    requires { cycle.now.first.actor < length graph.now.actors }
    ensures { OnOk result (string_bytes text.new
        ≡ string_bytes text.old ++ cycle_header graph.now cycle.now.time cycle.now.rounds cycle.now.first) }
{
    let time = cycle.time;
    let rounds = cycle.rounds;
    write!(text, "cycle {time} {rounds} ")?;
    put_firing(text, graph, cycle.first)?;
    text.push_str("\n")
}

#[tactic(auto, unfolding(crate::specs::CycleTexts::step_line))]
pub(crate) fn put_step(
    text: &mut String,
    graph: &GraphFile,
    to: FiringNo,
    role: Role,
) -> Result<(), AllocError>
    requires actor { to.actor < length graph.now.actors }
    requires role { IsRoleIn graph.now role }
    ensures { OnOk result (string_bytes text.new ≡ string_bytes text.old ++ step_line graph.now to role) }
{
    put_firing(text, graph, to)?;
    text.push_str(" ")?;
    put_link(text, graph, role)?;
    text.push_str("\n")
}

#[tactic(auto, unfolding(crate::specs::CycleTexts::firing_text))]
fn put_firing(text: &mut String, graph: &GraphFile, firing: FiringNo) -> Result<(), AllocError>
    requires { firing.actor < length graph.now.actors }
    ensures { OnOk result (string_bytes text.new ≡ string_bytes text.old ++ firing_text graph.now firing) }
{
    put_actor(text, graph, firing.actor)?;
    let number = firing.number;
    write!(text, " {number}")
}
