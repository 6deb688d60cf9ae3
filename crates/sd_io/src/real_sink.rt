ghost use Rattle.std.specs.Prelude.{◌≡◌, ◌<◌, ◌≤◌, ◌^◌, length, take, IfOk, MatchResult, None};
ghost use Rattle.sd_io.specs.Outside.{Rose};
ghost use Rattle.sd_io.specs.StandardStreams.{IsError, IsOutput, StreamAppends, StreamKeeps};

use crate::streams::write_some;
use crate::{Failed, Sink};
use std::io::{Stderr, Stdout, Write};

/// One of a program's two streams, each by its own kind of handle.
#[derive(Drop)]
enum Stream<O, E> {
    Output(O),
    Error(E),
}

/// Standard output or standard error. It tells nothing of what was written, and counts each error; that a
/// write takes nothing is one. Over any two writers whose bytes are known, `send` appends those that it answers to the
/// one that the sink was made over. What is left to trust is which stream stands behind a handle.
#[derive(Drop)]
pub struct RealSink<O, E> {
    stream: Stream<O, E>,
    faults: u64,
    ghost counted: { faults < 2 ^ 64 },
}

impl RealSink<Stdout, Stderr> {
    /// Standard output.
    pub fn output(rt: &HostRuntime) -> RealSink<Stdout, Stderr>
        ensures output { IsOutput result.stream }
        ensures none { result.faults ≡ 0 }
    {
        RealSink::over_output(rt.stdout())
    }

    /// Standard error.
    pub fn fault(rt: &HostRuntime) -> RealSink<Stdout, Stderr>
        ensures fault { IsError result.stream }
        ensures none { result.faults ≡ 0 }
    {
        RealSink::over_fault(rt.stderr())
    }
}

impl<O, E> RealSink<O, E> {
    /// A sink that sends to a writer in place of standard output.
    pub fn over_output(writer: O) -> RealSink<O, E>
        ensures output { IsOutput result.stream }
        ensures writer { result.stream ≡ Stream.Output writer }
        ensures none { result.faults ≡ 0 }
    {
        RealSink {
            stream: Stream::Output(writer),
            faults: 0,
        }
    }

    /// A sink that sends to a writer in place of standard error.
    pub fn over_fault(writer: E) -> RealSink<O, E>
        ensures fault { IsError result.stream }
        ensures writer { result.stream ≡ Stream.Error writer }
        ensures none { result.faults ≡ 0 }
    {
        RealSink {
            stream: Stream::Error(writer),
            faults: 0,
        }
    }
}

impl<O: Write, E: Write> Stream<O, E> {
    /// Writes the first bytes of a piece to the one writer, at least one, and answers how many.
    fn write_some(&mut self, piece: &[u8]) -> Result<usize, Failed>
        ensures some { IfOk result (λ n. (0 < n) × (n ≤ length piece.now)) }
        ensures bytes { MatchResult result (λ n. StreamAppends O.contents E.contents self.old self.new (take n piece.now))
            (λ _. StreamKeeps O.contents E.contents self.old self.new) }
    {
        match self {
            Stream::Output(output) => write_some(output, piece),
            Stream::Error(error) => write_some(error, piece),
        }
    }
}

impl<O: Write, E: Write> Sink for RealSink<O, E> {
    ghost sent = { λ _. None };

    ghost faults = { λ s. s.faults };

    fn send(&mut self, piece: &[u8]) -> Result<usize, Failed>
        ensures some { IfOk result (λ n. (0 < n) × (n ≤ length piece.now)) }
        ensures bytes { MatchResult result (λ n. StreamAppends O.contents E.contents self.old.stream self.new.stream (take n piece.now))
            (λ _. StreamKeeps O.contents E.contents self.old.stream self.new.stream) }
        ensures counts { MatchResult result (λ _. self.new.faults ≡ self.old.faults) (λ _. Rose self.old.faults self.new.faults) }
    {
        let written = self.stream.write_some(piece);
        if written.is_err() {
            self.faults = self.faults.saturating_add(1);
        }
        written
    }

    ghost counted = { λ s. s.counted };
}
