ghost use Rattle.std.specs.Prelude.{◌≡◌, ◌++◌, ◌≤◌, IfOk, OnOk, length};
ghost use Rattle.std.specs.String.{string_bytes};
ghost use Rattle.report.specs.LinkTexts.{IsNamed};
ghost use Rattle.report.specs.CycleTexts.{IsCycleIn};
ghost use Rattle.report.specs.AnswerTexts.{number_line, rate_line, rate_lines, repetition_header, repetition_lines};

use crate::cycles::put_cycle;
use crate::fractions::put_lowest;
use crate::schedules::put_schedule;
use critical::NeedCycle;
use escapes::escaped;
use firing::Firing;
use periodic::Periodic;
use sd_base::{GraphFile, NoMemory, Rows};
use std::alloc::{AllocError, Global};

/// The text of a repetition vector: a line `repetition N` with the number of actors, then a line per actor
/// with its name and its firings in a round.
pub fn repetition_text(
    alloc: Global,
    graph: &GraphFile,
    gamma: &[u64],
) -> Result<Rows<u8>, NoMemory>
    requires { length gamma.now ≡ length graph.now.actors }
    ensures { IfOk result (λ t. t ≡ repetition_lines graph.now gamma.now) }
{
    let actors = graph.actors.as_slice();
    let mut text = header(alloc, actors.len())?;
    for (i, firings) in gamma.iter().enumerate() {
        put_number(alloc, &mut text, actors[i].name.as_str(), *firings)?;
    }
    Ok(bytes_of(text))
}

#[tactic(auto, unfolding(crate::specs::AnswerTexts::repetition_header))]
fn header(alloc: Global, actors: usize) -> Result<String, NoMemory>
    ensures { IfOk result (λ t. string_bytes t ≡ repetition_header actors) }
{
    Ok(format!(in alloc; "repetition {actors}\n")?)
}

#[tactic(auto, unfolding(crate::specs::AnswerTexts::number_line))]
fn put_number(alloc: Global, text: &mut String, name: &str, number: u64) -> Result<(), NoMemory>
    ensures { OnOk result (string_bytes text.new ≡ string_bytes text.old ++ number_line name.now number) }
{
    let shown = escaped(alloc, name)?;
    let name = shown.as_str();
    let line = format!(in alloc; "{name} {number}\n")?;
    text.push_str(line.as_str())?;
    Ok(())
}

/// The text of a rate: a line `rate X` with the rounds of a schedule by its period, in lowest terms, then
/// the lines of the schedule and those of a need cycle. Cost: linear in the text.
pub fn rate_text<F: Firing>(
    alloc: Global,
    net: &F,
    graph: &GraphFile,
    schedule: &Periodic,
    cycle: &NeedCycle,
) -> Result<Rows<u8>, NoMemory>
    requires net { IsNamed graph.now (F.net net.now) }
    requires actors { length schedule.now.starts ≡ length graph.now.actors }
    requires period { 1 ≤ schedule.now.period }
    requires cycle { IsCycleIn graph.now (F.net net.now) cycle.now }
    ensures { IfOk result (λ t. t ≡ rate_lines graph.now (F.net net.now) schedule.now cycle.now) }
{
    let mut text = String::new(alloc);
    put_rate(&mut text, schedule.rounds, schedule.period)?;
    put_schedule(&mut text, graph, schedule)?;
    put_cycle(alloc, &mut text, net, graph, cycle)?;
    Ok(bytes_of(text))
}

#[tactic(auto, unfolding(crate::specs::AnswerTexts::rate_line))]
pub(crate) fn put_rate(text: &mut String, rounds: u64, period: u64) -> Result<(), AllocError>
    requires { 1 ≤ period }
    ensures { OnOk result (string_bytes text.new ≡ string_bytes text.old ++ rate_line rounds period) }
{
    text.push_str("rate ")?;
    put_lowest(text, rounds, period)?;
    text.push_str("\n")
}

/// The bytes of a finished text, without memory.
pub(crate) fn bytes_of(text: String) -> Rows<u8>
    ensures { result ≡ string_bytes text }
{
    Rows::from_vec(text.into_bytes())
}
