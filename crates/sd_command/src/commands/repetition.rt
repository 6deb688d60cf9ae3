ghost use Rattle.sd_command.specs.commands.Repetitions.{repetition};
ghost use Rattle.sd_command.specs.inside.Goings.{AnswersFrom};

use report::repetition_text;
use sd_io::Shelf;
use sd_steps::balancing::balanced;
use sd_steps::opening::open_graph;
use sd_steps::{Answer, Stop};
use std::alloc::Global;

/// How often each actor of a graph file fires in a round.
pub(crate) fn answer<S: Shelf>(alloc: Global, shelf: &mut S, name: &str) -> Result<Answer, Stop>
    ensures answers { AnswersFrom (repetition name.now) (S.files shelf.old) (S.files shelf.new) (S.faults shelf.old) (S.faults shelf.new) result 0 }
{
    let graph = open_graph(alloc, shelf, name, false)?;
    let gamma = balanced(alloc, &graph)?;
    Ok(Answer {
        text: repetition_text(alloc, &graph, gamma.as_slice())?,
        put: None,
    })
}
