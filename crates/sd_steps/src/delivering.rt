ghost use Rattle.std.specs.Prelude.{◌≡◌, ◌≤◌, Bool, IfOk, Some};
ghost use Rattle.report.specs.RefusalLines.{line_of, memory_line};
ghost use Rattle.sd_steps.specs.Statuses.{status_of};
ghost use Rattle.sd_steps.specs.Courses.{Answered};
ghost use Rattle.sd_steps.specs.Takings.{shelf_refusal};
ghost use Rattle.sd_steps.specs.RunEndings.{Ends, Outside, Sending, Shelving};
ghost use Rattle.sd_steps.specs.inside.Puts.{Puts};
ghost use Rattle.sd_steps.specs.Deliveries.{Sends, SendsStop};
ghost use Rattle.sd_steps.specs.declared.stop.Stop.TheVariants.{Refused};
ghost use Rattle.sd_steps.specs.declared.status.Status.TheVariants as statuses;

use crate::answer::{Answer, Put};
use crate::file_kind::FileKind;
use crate::status::Status;
use crate::stop::Stop;
use report::{Refusal, memory_text, refusal_line};
use sd_base::{NoMemory, Rows};
use sd_io::{PutError, Shelf, Sink, send_all};
use std::alloc::Global;

/// A line for `err`, with the status of a run that sends it.
#[derive(Drop)]
struct Line {
    status: Status,
    text: Rows<u8>,
}

/// Why an answer's file wasn't put.
#[derive(Drop)]
enum Unput {
    Failed(Line),
    OutOfMemory,
}

impl From<NoMemory> for Unput {
    ghost use Rattle.sd_steps.specs.declared.delivering.Unput.TheVariants.{OutOfMemory};

    ghost from_gives = { λ _ unput. unput ≡ OutOfMemory };

    fn from(_error: NoMemory) -> Unput {
        Unput::OutOfMemory
    }
}

/// Puts the file of an answer, and sends its text.
pub fn deliver<S: Shelf, K: Sink>(
    alloc: Global,
    shelf: &mut S,
    out: &mut K,
    err: &mut K,
    answer: &Answer,
) -> Status
    ensures ends { let o : Outside = record {
      shelf = record { files = S.files shelf.old; files_after = S.files shelf.new; faults = S.faults shelf.old; faults_after = S.faults shelf.new };
      out = record { sent = K.sent out.old; sent_after = K.sent out.new; faults = K.faults out.old; faults_after = K.faults out.new };
      err = record { sent = K.sent err.old; sent_after = K.sent err.new; faults = K.faults err.old; faults_after = K.faults err.new };
    } in (cut : Bool) × Ends o result cut (Answered answer.now) }
    ensures shelf_grows { S.faults shelf.old ≤ S.faults shelf.new }
    ensures out_grows { K.faults out.old ≤ K.faults out.new }
    ensures err_grows { K.faults err.old ≤ K.faults err.new }
{
    match put_file(alloc, shelf, &answer.put) {
        Ok(()) => send_answer(out, answer.text.as_slice()),
        Err(Unput::Failed(line)) => send_line(err, &line),
        Err(Unput::OutOfMemory) => lack_memory(err),
    }
}

// Puts a file, where there is one.
fn put_file<S: Shelf>(alloc: Global, shelf: &mut S, file: &Option<Put>) -> Result<(), Unput>
    ensures puts { let shelf_run : Shelving = record { files = S.files shelf.old; files_after = S.files shelf.new; faults = S.faults shelf.old; faults_after = S.faults shelf.new } in
        Puts file.now result shelf_run }
    ensures grows { S.faults shelf.old ≤ S.faults shelf.new }
{
    match file {
        None => Ok(()),
        Some(put) => put_one(alloc, shelf, put),
    }
}

// Puts a file. The line for a failure is made before.
fn put_one<S: Shelf>(alloc: Global, shelf: &mut S, put: &Put) -> Result<(), Unput>
    ensures puts { let shelf_run : Shelving = record { files = S.files shelf.old; files_after = S.files shelf.new; faults = S.faults shelf.old; faults_after = S.faults shelf.new } in
        Puts (Some put.now) result shelf_run }
    ensures grows { S.faults shelf.old ≤ S.faults shelf.new }
{
    let line = unput_line(alloc, put.kind)?;
    match shelf.put(alloc, put.name.as_str(), put.bytes.as_slice()) {
        Ok(()) => Ok(()),
        Err(PutError::Failed) => Err(Unput::Failed(line)),
        Err(PutError::NoMemory) => Err(Unput::OutOfMemory),
    }
}

// The line where a file can't be put.
fn unput_line(alloc: Global, kind: FileKind) -> Result<Line, NoMemory>
    ensures { IfOk result (λ line. (line.status ≡ status_of (shelf_refusal kind)) × (line.text ≡ line_of (shelf_refusal kind))) }
{
    line_for(alloc, &kind.refusal())
}

// Sends a finished text.
fn send_answer<K: Sink>(out: &mut K, text: &[u8]) -> Status
    ensures sends { let sink : Sending = record { sent = K.sent out.old; sent_after = K.sent out.new; faults = K.faults out.old; faults_after = K.faults out.new } in
        Sends statuses.Done text.now result sink }
    ensures grows { K.faults out.old ≤ K.faults out.new }
{
    match send_all(out, text) {
        Ok(()) => Status::Done,
        Err(_) => Status::SinkFault,
    }
}

/// Sends the line of what a command stopped for.
pub fn send_stop<K: Sink>(alloc: Global, err: &mut K, stop: &Stop) -> Status
    ensures sends { let sink : Sending = record { sent = K.sent err.old; sent_after = K.sent err.new; faults = K.faults err.old; faults_after = K.faults err.new } in
        SendsStop stop.now result sink }
    ensures grows { K.faults err.old ≤ K.faults err.new }
{
    match stop {
        Stop::Refused(refusal) => refuse(alloc, err, refusal),
        Stop::OutOfMemory => lack_memory(err),
    }
}

// Sends the line of a refusal.
fn refuse<K: Sink>(alloc: Global, err: &mut K, refusal: &Refusal) -> Status
    ensures sends { let sink : Sending = record { sent = K.sent err.old; sent_after = K.sent err.new; faults = K.faults err.old; faults_after = K.faults err.new } in
        SendsStop (Refused refusal.now) result sink }
    ensures grows { K.faults err.old ≤ K.faults err.new }
{
    match line_for(alloc, refusal) {
        Ok(line) => send_line(err, &line),
        Err(_) => lack_memory(err),
    }
}

fn line_for(alloc: Global, refusal: &Refusal) -> Result<Line, NoMemory>
    ensures { IfOk result (λ line. (line.status ≡ status_of refusal.now) × (line.text ≡ line_of refusal.now)) }
{
    let (class, text) = refusal_line(alloc, refusal)?;
    Ok(Line {
        status: Status::from(class),
        text,
    })
}

fn send_line<K: Sink>(err: &mut K, line: &Line) -> Status
    ensures sends { let sink : Sending = record { sent = K.sent err.old; sent_after = K.sent err.new; faults = K.faults err.old; faults_after = K.faults err.new } in
        Sends line.now.status line.now.text result sink }
    ensures grows { K.faults err.old ≤ K.faults err.new }
{
    match send_all(err, line.text.as_slice()) {
        Ok(()) => line.status,
        Err(_) => Status::SinkFault,
    }
}

// Sends the line for want of memory, which takes none.
fn lack_memory<K: Sink>(err: &mut K) -> Status
    ensures sends { let sink : Sending = record { sent = K.sent err.old; sent_after = K.sent err.new; faults = K.faults err.old; faults_after = K.faults err.new } in
        Sends statuses.Memory memory_line result sink }
    ensures grows { K.faults err.old ≤ K.faults err.new }
{
    match send_all(err, memory_text()) {
        Ok(()) => Status::Memory,
        Err(_) => Status::SinkFault,
    }
}
