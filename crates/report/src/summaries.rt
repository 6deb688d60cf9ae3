ghost use Rattle.std.specs.Prelude.{◌≡◌, ◌++◌, ◌≤◌, IfOk, OnOk, length, sum};
ghost use Rattle.std.specs.String.{string_bytes};
ghost use Rattle.sd_base.specs.declared.limits.TheConstants.{ROUND};
ghost use Rattle.report.specs.SummaryTexts.{summary_header, summary_line, summary_lines};

use crate::answers::bytes_of;
use crate::fractions::put_fraction;
use pareto_front::Point;
use sd_base::{Fraction, GraphFile, NoMemory, Rows};
use std::alloc::{AllocError, Global};

/// The text of a graph that was made from a number and of its Pareto points: a line `generated seed S actors A channels C
/// round G`, where G is the firings of a round, a line `points N` with the number of points, then for each point a line
/// `TOTAL RATE` with its storage and its rate in lowest terms. Cost: linear in the actors and the text.
pub fn summary_text(
    alloc: Global,
    seed: u64,
    graph: &GraphFile,
    gamma: &[u64],
    points: &[Point],
) -> Result<Rows<u8>, NoMemory>
    requires round { sum gamma.now ≤ ROUND }
    ensures { IfOk result (λ t. t ≡ summary_lines seed graph.now gamma.now points.now) }
{
    let mut text = header(alloc, seed, graph, gamma.iter().sum(), points.len())?;
    for point in points {
        put_summary(&mut text, point.total, point.rate)?;
    }
    Ok(bytes_of(text))
}

#[tactic(auto, unfolding(crate::specs::SummaryTexts::summary_header))]
fn header(
    alloc: Global,
    seed: u64,
    graph: &GraphFile,
    round: u64,
    points: usize,
) -> Result<String, NoMemory>
    ensures { IfOk result (λ t. string_bytes t ≡ summary_header seed (length graph.now.actors) (length graph.now.channels) round points) }
{
    let actors = graph.actors.as_slice().len();
    let channels = graph.channels.as_slice().len();
    Ok(format!(in alloc;
        "generated seed {seed} actors {actors} channels {channels} round {round}\npoints {points}\n"
    )?)
}

#[tactic(auto, unfolding(crate::specs::SummaryTexts::summary_line))]
fn put_summary(text: &mut String, total: u64, rate: Fraction) -> Result<(), AllocError>
    ensures { OnOk result (string_bytes text.new ≡ string_bytes text.old ++ summary_line total rate) }
{
    write!(text, "{total} ")?;
    put_fraction(text, rate)?;
    text.push_str("\n")
}
