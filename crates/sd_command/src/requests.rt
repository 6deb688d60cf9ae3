ghost use Rattle.std.specs.Prelude.{◌≡◌, ◌-◌, ◌≤◌, IfOk};
ghost use Rattle.sd_words.specs.Asked.{IsWithinLimits};
ghost use Rattle.sd_command.specs.Entrances.{command_entered, course_entered};
ghost use Rattle.sd_command.specs.Requests.{command_of, course_of};
ghost use Rattle.sd_command.specs.inside.Goings.{AnswersFrom};

use crate::commands::parallel::Parallel;
use crate::commands::wanted::{OnBounded, Wanted, WantedPoints, WantedRate, WantedRounds};
use crate::commands::{
    bounded_course, check, conversion, generation, repetition, scenario_points, trade_off,
    worst_rate,
};
use fanout::Gate;
use scenario_storage::ScenarioLimits;
use sd_base::{Ledger, Steps, Text};
use sd_io::Shelf;
use sd_steps::asking::ask;
use sd_steps::{Answer, Stop};
use sd_words::Request;
use std::alloc::Global;
use std::thread::Threads;

/// What answers the words.
pub(crate) fn answer_of<R: Threads + Sync, S: Shelf, G: Gate + Sync, L: Ledger + Send>(
    rt: &R,
    alloc: Global,
    words: &[Text],
    shelf: &mut S,
    gate: &G,
    steps: &mut Steps<L>,
) -> Result<Answer, Stop>
    ensures answers { AnswersFrom (course_of words.now) (S.files shelf.old) (S.files shelf.new) (S.faults shelf.old) (S.faults shelf.new) result (steps.new.count - steps.old.count) }
    ensures entered { IfOk result (λ _. course_entered words.now (S.files shelf.old) (G.entered gate.now) (steps.new.count - steps.old.count)) }
    ensures rises { steps.old.count ≤ steps.new.count }
    ensures share { steps.new.share ≡ steps.old.share }
{
    let request = ask(alloc, words)?;
    let parallel = Parallel { rt, gate };
    command_answer(&parallel, alloc, request, shelf, steps)
}

// What answers a request, by its command.
fn command_answer<R: Threads + Sync, S: Shelf, G: Gate + Sync, L: Ledger + Send>(
    parallel: &Parallel<'_, R, G>,
    alloc: Global,
    request: Request,
    shelf: &mut S,
    steps: &mut Steps<L>,
) -> Result<Answer, Stop>
    requires { IsWithinLimits request }
    ensures answers { AnswersFrom (command_of request) (S.files shelf.old) (S.files shelf.new) (S.faults shelf.old) (S.faults shelf.new) result (steps.new.count - steps.old.count) }
    ensures entered { IfOk result (λ _. command_entered request (S.files shelf.old) (G.entered parallel.now.gate.now) (steps.new.count - steps.old.count)) }
    ensures rises { steps.old.count ≤ steps.new.count }
    ensures share { steps.new.share ≡ steps.old.share }
{
    match request {
        Request::Repetition { graph } => repetition::answer(alloc, shelf, graph.as_str()),
        Request::Throughput {
            graph,
            buffers,
            no_overlap,
            states,
            certificate,
        } => {
            let asked = OnBounded {
                graph,
                buffers,
                wanted: Wanted::Rate(WantedRate {
                    no_overlap,
                    states,
                    certificate,
                }),
            };
            bounded_course::answer(alloc, shelf, &asked, steps)
        }
        Request::Storage {
            graph,
            limits,
            no_overlap,
            certificate,
        } => {
            let wanted = WantedPoints {
                limits,
                no_overlap,
                certificate,
            };
            trade_off::answer(parallel, alloc, shelf, graph.as_str(), &wanted, steps)
        }
        Request::Scenario { graph, certificate } => {
            worst_rate::answer(alloc, shelf, graph.as_str(), &certificate)
        }
        Request::Check { graph, certificate } => {
            check::answer(alloc, shelf, graph.as_str(), certificate.as_str())
        }
        Request::Generate {
            seed,
            limit,
            actors,
        } => generation::answer(parallel, alloc, seed, limit, actors, steps),
        Request::Convert {
            certificate,
            output,
        } => conversion::answer(alloc, shelf, certificate.as_str(), output.as_str()),
        Request::Expand {
            graph,
            output,
            buffers,
            no_overlap,
        } => {
            let asked = OnBounded {
                graph,
                buffers,
                wanted: Wanted::Expansion { output, no_overlap },
            };
            bounded_course::answer(alloc, shelf, &asked, steps)
        }
        Request::Ordered {
            graph,
            order,
            buffers,
            no_overlap,
            states,
        } => {
            let rate = WantedRate {
                no_overlap,
                states,
                certificate: None,
            };
            let asked = OnBounded {
                graph,
                buffers,
                wanted: Wanted::Ordered { lists: order, rate },
            };
            bounded_course::answer(alloc, shelf, &asked, steps)
        }
        Request::Complete {
            graph,
            rounds,
            buffers,
            no_overlap,
            states,
        } => {
            let asked = OnBounded {
                graph,
                buffers,
                wanted: Wanted::Rounds(WantedRounds {
                    no_overlap,
                    states,
                    rounds,
                }),
            };
            bounded_course::answer(alloc, shelf, &asked, steps)
        }
        Request::ScenarioStorage {
            graph,
            limit,
            distributions,
        } => {
            let limits = ScenarioLimits {
                total: limit,
                distributions,
            };
            scenario_points::answer(parallel, alloc, shelf, graph.as_str(), limits)
        }
    }
}
