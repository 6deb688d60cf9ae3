ghost use Rattle.std.specs.Prelude.{◌≡◌, ◌++◌, All, IfOk, OnOk};
ghost use Rattle.std.specs.String.{string_bytes};
ghost use Rattle.report.specs.ScenarioPointTexts.{CanBeTold, scenario_point_lines, scenario_points_lines};

use crate::answers::bytes_of;
use crate::points::{header, put_distribution, put_header};
use crate::worst_rates::{Nodes, put_shown};
use scenario_storage::ScenarioPoint;
use sd_base::{NoMemory, Rows, ScenarioFile};
use std::alloc::{AllocError, Global};

/// The text of the Pareto points of storage and worst rate of a file: a line `points N` with their number, then for each point
/// a line `point TOTAL RATE` with its storage and its worst rate in lowest terms, a line `buffers LIST` with its distribution,
/// and what shows the rate, as `worst_text` has it. Cost: for each point linear in the text, in the channels and in the nodes,
/// times the shared channels.
pub fn scenario_points_text(
    alloc: Global,
    file: &ScenarioFile,
    points: &[ScenarioPoint],
) -> Result<Rows<u8>, NoMemory>
    requires { All (CanBeTold file.now) points.now }
    ensures { IfOk result (λ t. t ≡ scenario_points_lines file.now points.now) }
{
    let mut text = header(alloc, points.len())?;
    for point in points {
        put_point(&mut text, file, point)?;
    }
    Ok(bytes_of(text))
}

/// Puts the lines of a point at the end of a text.
#[tactic(auto, unfolding(crate::specs::ScenarioPointTexts::scenario_point_lines, crate::specs::StorageTexts::shared_buffers_list))]
fn put_point(
    text: &mut String,
    file: &ScenarioFile,
    point: &ScenarioPoint,
) -> Result<(), AllocError>
    requires { CanBeTold file.now point.now }
    ensures { OnOk result (string_bytes text.new ≡ string_bytes text.old ++ scenario_point_lines file.now point.now) }
{
    let nodes = Nodes {
        states: file.states.as_slice(),
        shared: point.shared.as_slice(),
    };
    put_header(text, point.total, point.rate)?;
    put_distribution(text, file.shared.as_slice(), &point.capacities)?;
    put_shown(text, &nodes, &point.graph, &point.worst)
}
