ghost use Rattle.std.specs.Prelude.{◌≡◌, ◌++◌, IfErr, OnOk, All, length, ◌-◌};
ghost use Rattle.cert_text.specs.Limits.{IsLong, IsNodeWithin, IsPotentialWithin, IsScenarioWithin};
ghost use Rattle.std.specs.String.{string_bytes};
ghost use Rattle.std.specs.List.{flat_map};
ghost use Rattle.cert_text.specs.Overlong.{GivesUp};
ghost use Rattle.cert_text.specs.ScenarioLines.{node_line, nodes_header, nodes_lines, potential_line};
ghost use Rattle.cert_text.specs.Spelling.{potential_list, scenario_lines};

use crate::certificates::ScenarioCertificate;
use crate::error::CertError;
use crate::writing::limit::keep_within;
use crate::writing::numbers::{put_potentials_line, put_rate};
use std::alloc::AllocError;

/// Puts the lines of a certificate of a worst-case rate, but for the first one.
#[tactic(auto, unfolding(crate::specs::Spelling::scenario_lines, crate::specs::Spelling::scenario_kind, crate::specs::Spelling::end_line))]
pub(crate) fn put_scenario_certificate(
    text: &mut String,
    certificate: &ScenarioCertificate,
) -> Result<(), CertError>
    ensures text { OnOk result (string_bytes text.new ≡ string_bytes text.old ++ scenario_lines certificate.now) }
    ensures long { IfErr result (GivesUp (string_bytes text.old) (scenario_lines certificate.now)) }
    ensures within { OnOk result (IsScenarioWithin certificate.now) }
{
    text.push_str("scenario\n")?;
    put_rate(text, certificate.rate)?;
    put_nodes(text, certificate.time, certificate.nodes.as_slice())?;
    put_potentials(text, certificate.potentials.as_slice())?;
    Ok(text.push_str("end\n")?)
}

#[tactic(auto, unfolding(crate::specs::ScenarioLines::nodes_lines))]
fn put_nodes(text: &mut String, time: u64, nodes: &[(u32, u32)]) -> Result<(), CertError>
    ensures text { OnOk result (string_bytes text.new ≡ string_bytes text.old ++ nodes_lines time nodes.now) }
    ensures long { IfErr result (GivesUp (string_bytes text.old) (nodes_lines time nodes.now)) }
    ensures within { OnOk result (IsLong time × IsLong (length nodes.now - 1) × All IsNodeWithin nodes.now) }
{
    match nodes {
        [] => Ok(()),
        [first, rest @ ..] => {
            put_header(text, time, rest.len(), *first)?;
            put_entered(text, rest)
        }
    }
}

#[tactic(auto, unfolding(crate::specs::ScenarioLines::nodes_header, crate::specs::ScenarioLines::node_line))]
fn put_header(
    text: &mut String,
    time: u64,
    edges: usize,
    first: (u32, u32),
) -> Result<(), AllocError>
    ensures text { OnOk result (string_bytes text.new ≡ string_bytes text.old ++ nodes_header time edges first) }
    ensures within { IsLong time × IsLong edges × IsNodeWithin first }
{
    let (state, token) = first;
    write!(text, "cycle {time} {edges} {state} {token}\n")
}

fn put_entered(text: &mut String, nodes: &[(u32, u32)]) -> Result<(), CertError>
    ensures text { OnOk result (string_bytes text.new ≡ string_bytes text.old ++ flat_map node_line nodes.now) }
    ensures long { IfErr result (GivesUp (string_bytes text.old) (flat_map node_line nodes.now)) }
    ensures within { OnOk result (All IsNodeWithin nodes.now) }
{
    for node in nodes {
        put_node(text, *node)?;
        keep_within(text)?;
    }
    Ok(())
}

#[tactic(auto, unfolding(crate::specs::ScenarioLines::node_line))]
fn put_node(text: &mut String, node: (u32, u32)) -> Result<(), AllocError>
    ensures text { OnOk result (string_bytes text.new ≡ string_bytes text.old ++ node_line node) }
    ensures within { IsNodeWithin node }
{
    let (state, token) = node;
    write!(text, "{state} {token}\n")
}

#[tactic(auto, unfolding(crate::specs::Spelling::potential_list))]
fn put_potentials(text: &mut String, potentials: &[(u32, u32, i128)]) -> Result<(), CertError>
    ensures text { OnOk result (string_bytes text.new ≡ string_bytes text.old ++ potential_list potentials.now) }
    ensures long { IfErr result (GivesUp (string_bytes text.old) (potential_list potentials.now)) }
    ensures within { OnOk result (IsLong (length potentials.now) × All IsPotentialWithin potentials.now) }
{
    put_potentials_line(text, potentials.len())?;
    put_each(text, potentials)
}

fn put_each(text: &mut String, potentials: &[(u32, u32, i128)]) -> Result<(), CertError>
    ensures text { OnOk result (string_bytes text.new ≡ string_bytes text.old ++ flat_map potential_line potentials.now) }
    ensures long { IfErr result (GivesUp (string_bytes text.old) (flat_map potential_line potentials.now)) }
    ensures within { OnOk result (All IsPotentialWithin potentials.now) }
{
    for potential in potentials {
        put_potential(text, *potential)?;
        keep_within(text)?;
    }
    Ok(())
}

#[tactic(auto, unfolding(crate::specs::ScenarioLines::potential_line))]
fn put_potential(text: &mut String, line: (u32, u32, i128)) -> Result<(), AllocError>
    ensures text { OnOk result (string_bytes text.new ≡ string_bytes text.old ++ potential_line line) }
    ensures within { IsPotentialWithin line }
{
    let (state, token, potential) = line;
    write!(text, "{state} {token} {potential}\n")
}
