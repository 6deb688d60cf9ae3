ghost use Rattle.std.specs.Prelude.{◌≡◌, ◌-◌, ◌≤◌, Bool};
ghost use Rattle.sd_steps.specs.RunEndings.{Outside};
ghost use Rattle.sd_command.specs.Entrances.{course_entered};
ghost use Rattle.sd_command.specs.Runs.{Run, Shows, ShowsBy};

use crate::requests::answer_of;
use fanout::Gate;
use sd_base::{Ledger, Steps, Text};
use sd_io::{Shelf, Sink};
use sd_steps::Status;
use sd_steps::delivering::{deliver, send_stop};
use std::alloc::Global;
use std::thread::Threads;

/// Carries one command out: `words` are what follows the program's name. The answer goes to `out`, the line of a
/// refusal to `err`. All texts are made before anything is put or sent. The runtime and the gate are for the commands that
/// fork; `steps` counts the executions that were run round their loop.
pub fn analyse<R: Threads + Sync, S: Shelf, K: Sink, G: Gate + Sync, L: Ledger + Send>(
    rt: &R,
    alloc: Global,
    words: &[Text],
    shelf: &mut S,
    out: &mut K,
    err: &mut K,
    gate: &G,
    steps: &mut Steps<L>,
) -> Status
    ensures shows { let run : Run = record {
      words = words.now;
      status = result;
      outside = record {
        shelf = record { files = S.files shelf.old; files_after = S.files shelf.new; faults = S.faults shelf.old; faults_after = S.faults shelf.new };
        out = record { sent = K.sent out.old; sent_after = K.sent out.new; faults = K.faults out.old; faults_after = K.faults out.new };
        err = record { sent = K.sent err.old; sent_after = K.sent err.new; faults = K.faults err.old; faults_after = K.faults err.new };
      };
      executions = steps.old.count;
      executions_after = steps.new.count;
    } in (cut : Bool) × Shows run cut }
    ensures entered { result ≡ Status.Done → course_entered words.now (S.files shelf.old) (G.entered gate.now) (steps.new.count - steps.old.count) }
    ensures shelf_grows { S.faults shelf.old ≤ S.faults shelf.new }
    ensures out_grows { K.faults out.old ≤ K.faults out.new }
    ensures err_grows { K.faults err.old ≤ K.faults err.new }
    ensures steps_stay { steps.new.share ≡ steps.old.share }
{
    match answer_of(rt, alloc, words, shelf, gate, steps) {
        Ok(answer) => deliver(alloc, shelf, out, err, &answer),
        Err(stop) => send_stop(alloc, err, &stop),
    }
}

/// The exit status of the program for its words: it carries the command out as `analyse` does.
pub fn exit_code<R: Threads + Sync, S: Shelf, K: Sink, G: Gate + Sync, L: Ledger + Send>(
    rt: &R,
    alloc: Global,
    words: &[Text],
    shelf: &mut S,
    out: &mut K,
    err: &mut K,
    gate: &G,
    steps: &mut Steps<L>,
) -> u8
    ensures shows { let outside : Outside = record {
      shelf = record { files = S.files shelf.old; files_after = S.files shelf.new; faults = S.faults shelf.old; faults_after = S.faults shelf.new };
      out = record { sent = K.sent out.old; sent_after = K.sent out.new; faults = K.faults out.old; faults_after = K.faults out.new };
      err = record { sent = K.sent err.old; sent_after = K.sent err.new; faults = K.faults err.old; faults_after = K.faults err.new };
    } in ShowsBy result words.now outside steps.old.count steps.new.count }
    ensures entered { result ≡ 0 → course_entered words.now (S.files shelf.old) (G.entered gate.now) (steps.new.count - steps.old.count) }
    ensures shelf_grows { S.faults shelf.old ≤ S.faults shelf.new }
    ensures out_grows { K.faults out.old ≤ K.faults out.new }
    ensures err_grows { K.faults err.old ≤ K.faults err.new }
    ensures steps_stay { steps.new.share ≡ steps.old.share }
{
    analyse(rt, alloc, words, shelf, out, err, gate, steps).code()
}
