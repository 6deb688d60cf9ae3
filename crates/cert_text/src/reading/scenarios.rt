ghost use Rattle.std.specs.Prelude.{◌≡◌, ◌-◌, ◌^◌, negsuc, ◌++◌, ◌<◌, ℕ, List, [], ◌∷◌, IfOk, length};
ghost use Rattle.std.specs.List.{flat_map};
ghost use Rattle.std.specs.Fmt.{signed_decimal};
ghost use Rattle.cert_text.specs.LineForms.{last_lowered_due, last_potential_due, last_raised_due, node_due, nodes_line_due, potential_due};
ghost use Rattle.cert_text.specs.Reads.{Gives, lines_of, next_by, times_by};
ghost use Rattle.cert_text.specs.ScenarioLines.{node_line, nodes_header, nodes_lines, potential_line};
ghost use Rattle.cert_text.specs.Sections.{entered_from, nodes_from, potentials_from, scenario_from};
ghost use Rattle.cert_text.specs.Spelling.{potential_list, scenario_kind, scenario_lines};

use crate::certificates::ScenarioCertificate;
use crate::reading::fault::Fault;
use crate::reading::line::{Line, long, short, within};
use crate::reading::lines::Lines;
use crate::reading::numbers::{potentials_count, rate};
use crate::reading::rates::end;
use sd_base::Rows;
use std::alloc::Global;

/// Reads the lines of a certificate of a worst-case rate after the line of its kind.
#[tactic(auto, unfolding(crate::specs::Spelling::scenario_lines, crate::specs::Sections::scenario_from, crate::specs::Sections::finish))]
pub(crate) fn scenario_certificate(
    alloc: Global,
    lines: &mut Lines,
) -> Result<ScenarioCertificate, Fault>
    ensures text { IfOk result (λ c. (scenario_kind ++ lines.old.rest.now ≡ scenario_lines c) × (0 < length c.nodes)) }
    ensures exact { Gives result lines.new.rest.now (scenario_from (lines_of lines.old.rest.now)) }
{
    let rate = rate(lines)?;
    let (time, nodes) = nodes(alloc, lines)?;
    let potentials = potentials(alloc, lines)?;
    end(lines)?;
    Ok(ScenarioCertificate {
        rate,
        time,
        nodes,
        potentials,
    })
}

#[tactic(auto, unfolding(crate::specs::Sections::nodes_from))]
fn nodes(alloc: Global, lines: &mut Lines) -> Result<(u64, Rows<(u32, u32)>), Fault>
    ensures text { IfOk result (λ r. (lines.old.rest.now ≡ nodes_lines r.0 r.1 ++ lines.new.rest.now) × (0 < length r.1)) }
    ensures exact { Gives result lines.new.rest.now (nodes_from (lines_of lines.old.rest.now)) }
{
    let (time, edges, first) = header(lines)?;
    let nodes = entered(alloc, lines, first, edges)?;
    Ok((time, nodes))
}

/// Reads the nodes that so many edges enter, behind the first one.
fn entered(
    alloc: Global,
    lines: &mut Lines,
    first: (u32, u32),
    edges: u64,
) -> Result<Rows<(u32, u32)>, Fault>
    ensures text { IfOk result (λ r. (rest : List (ℕ × ℕ)) × (r ≡ first ∷ rest) × (length rest ≡ edges) × (lines.old.rest.now ≡ flat_map node_line rest ++ lines.new.rest.now)) }
    ensures exact { Gives result lines.new.rest.now (entered_from first edges (lines_of lines.old.rest.now)) }
{
    let mut nodes = Vec::new(alloc);
    nodes.push(first)?;
    for place in 0..edges {
        let next = node(lines)?;
        nodes.push(next)?;
    }
    Ok(Rows::from_vec(nodes))
}

/// Reads the first line of a cycle of nodes: its time, the number of its edges and its first node.
fn header(lines: &mut Lines) -> Result<(u64, u64, (u32, u32)), Fault>
    ensures text { IfOk result (λ h. lines.old.rest.now ≡ nodes_header h.0 h.1 h.2 ++ lines.new.rest.now) }
    ensures exact { Gives result lines.new.rest.now (next_by nodes_line_due (lines_of lines.old.rest.now)) }
{
    let line = lines.next()?;
    header_of(line)
}

#[tactic(auto, unfolding(crate::specs::ScenarioLines::nodes_header, crate::specs::ScenarioLines::node_line, crate::specs::LineForms::nodes_line_due))]
fn header_of(mut line: Line) -> Result<(u64, u64, (u32, u32)), Fault>
    ensures text { IfOk result (λ h. line.entry.rest.now ≡ nodes_header h.0 h.1 h.2) }
    ensures exact { result ≡ nodes_line_due line.entry.rest.now }
{
    let time = line.worded(b"cycle ")?;
    let edges = line.worded(b" ")?;
    let state = line.worded(b" ")?;
    let token = line.worded(b" ")?;
    line.end()?;
    Ok((long(time)?, long(edges)?, (short(state)?, short(token)?)))
}

fn node(lines: &mut Lines) -> Result<(u32, u32), Fault>
    ensures text { IfOk result (λ n. lines.old.rest.now ≡ node_line n ++ lines.new.rest.now) }
    ensures exact { Gives result lines.new.rest.now (next_by node_due (lines_of lines.old.rest.now)) }
{
    let line = lines.next()?;
    node_of(line)
}

#[tactic(auto, unfolding(crate::specs::ScenarioLines::node_line, crate::specs::LineForms::node_due))]
fn node_of(mut line: Line) -> Result<(u32, u32), Fault>
    ensures text { IfOk result (λ n. line.entry.rest.now ≡ node_line n) }
    ensures exact { result ≡ node_due line.entry.rest.now }
{
    let state = line.digits()?;
    let token = line.worded(b" ")?;
    line.end()?;
    Ok((short(state)?, short(token)?))
}

#[tactic(auto, unfolding(crate::specs::Spelling::potential_list, crate::specs::Sections::potentials_from))]
fn potentials(alloc: Global, lines: &mut Lines) -> Result<Rows<(u32, u32, i128)>, Fault>
    ensures text { IfOk result (λ p. lines.old.rest.now ≡ potential_list p ++ lines.new.rest.now) }
    ensures exact { Gives result lines.new.rest.now (potentials_from (lines_of lines.old.rest.now)) }
{
    let count = potentials_count(lines)?;
    each_potential(alloc, lines, count)
}

fn each_potential(
    alloc: Global,
    lines: &mut Lines,
    count: u64,
) -> Result<Rows<(u32, u32, i128)>, Fault>
    ensures text { IfOk result (λ p. (lines.old.rest.now ≡ flat_map potential_line p ++ lines.new.rest.now) × (length p ≡ count)) }
    ensures exact { Gives result lines.new.rest.now (times_by (next_by potential_due) count (lines_of lines.old.rest.now)) }
{
    let mut potentials = Vec::new(alloc);
    for place in 0..count {
        let next = potential(lines)?;
        potentials.push(next)?;
    }
    Ok(Rows::from_vec(potentials))
}

fn potential(lines: &mut Lines) -> Result<(u32, u32, i128), Fault>
    ensures text { IfOk result (λ p. lines.old.rest.now ≡ potential_line p ++ lines.new.rest.now) }
    ensures exact { Gives result lines.new.rest.now (next_by potential_due (lines_of lines.old.rest.now)) }
{
    let line = lines.next()?;
    potential_of(line)
}

#[tactic(auto, unfolding(crate::specs::ScenarioLines::potential_line, crate::specs::LineForms::potential_due))]
fn potential_of(mut line: Line) -> Result<(u32, u32, i128), Fault>
    ensures text { IfOk result (λ p. line.entry.rest.now ≡ potential_line p) }
    ensures exact { result ≡ potential_due line.entry.rest.now }
{
    let state = line.digits()?;
    let token = line.worded(b" ")?;
    line.word(b" ")?;
    let potential = potential_at(line)?;
    Ok((short(state)?, short(token)?, potential))
}

/// The potential that is all that is left of a line.
#[tactic(auto, unfolding(crate::specs::LineForms::last_potential_due))]
fn potential_at(line: Line) -> Result<i128, Fault>
    ensures text { IfOk result (λ z. line.entry.rest.now ≡ signed_decimal z ++ 10 ∷ []) }
    ensures exact { result ≡ last_potential_due line.entry.rest.now }
{
    match line.rest {
        [] => Err(Fault::Form),
        [b'-', rest @ ..] => lowered(Line { rest }),
        _ => raised(line),
    }
}

/// The potential from 0 that is all that is left of a line.
#[tactic(auto, unfolding(crate::specs::LineForms::last_raised_due))]
fn raised(mut line: Line) -> Result<i128, Fault>
    ensures text { IfOk result (λ z. line.entry.rest.now ≡ signed_decimal z ++ 10 ∷ []) }
    ensures exact { result ≡ last_raised_due line.entry.rest.now }
{
    let digits = line.digits()?;
    line.end()?;
    Ok(within(digits, i128::MAX as u128)? as i128)
}

/// The potential below 0 by what is all that is left of a line.
#[tactic(auto, unfolding(crate::specs::LineForms::last_lowered_due))]
fn lowered(mut line: Line) -> Result<i128, Fault>
    ensures text { IfOk result (λ z. 45 ∷ line.entry.rest.now ≡ signed_decimal z ++ 10 ∷ []) }
    ensures exact { result ≡ last_lowered_due line.entry.rest.now }
{
    let digits = line.digits()?;
    line.end()?;
    let size = within(digits, 1 << 127)?;
    if size == 0 {
        return Err(Fault::Form);
    }
    Ok(below(size - 1))
}

/// The number below -1 by so much.
fn below(more: u128) -> i128
    requires { more < 2 ^ 127 }
    ensures { result ≡ negsuc more }
{
    -1 - more as i128
}
