ghost use Rattle.std.specs.Prelude.{◌≡◌, ◌++◌, IfOk, MatchResult, OnOk, true};
ghost use Rattle.cert_text.specs.Reads.{Gives, lines_of};
ghost use Rattle.cert_text.specs.Sections.{ending, rate_from};
ghost use Rattle.cert_text.specs.Spellable.{IsRateSpellable};
ghost use Rattle.cert_text.specs.Spelling.{end_line, rate_kind, rate_lines};

use crate::certificates::RateCertificate;
use crate::reading::buffers::buffers;
use crate::reading::cycles::cycle;
use crate::reading::fault::Fault;
use crate::reading::lines::Lines;
use crate::reading::numbers::{overlap, rate};
use crate::reading::schedules::schedule;
use std::alloc::Global;

/// Reads the lines of a certificate of a rate after the line of its kind.
#[tactic(auto, unfolding(crate::specs::Spelling::rate_lines, crate::specs::Sections::rate_from, crate::specs::Sections::finish))]
pub(crate) fn rate_certificate(alloc: Global, lines: &mut Lines) -> Result<RateCertificate, Fault>
    ensures text { IfOk result (λ c. (rate_kind ++ lines.old.rest.now ≡ rate_lines c) × IsRateSpellable c) }
    ensures exact { Gives result lines.new.rest.now (rate_from (lines_of lines.old.rest.now)) }
{
    let no_overlap = overlap(lines)?;
    let buffers = buffers(alloc, lines)?;
    let rate = rate(lines)?;
    let schedule = schedule(alloc, lines)?;
    let cycle = cycle(alloc, lines)?;
    end(lines)?;
    Ok(RateCertificate {
        no_overlap,
        buffers,
        rate,
        schedule,
        cycle,
    })
}

/// Reads the last line, behind which nothing stands.
#[tactic(auto, unfolding(crate::specs::Spelling::end_line, crate::specs::Sections::ending))]
pub(crate) fn end(lines: &mut Lines) -> Result<(), Fault>
    ensures text { OnOk result (lines.old.rest.now ≡ end_line) }
    ensures exact { MatchResult result (λ _. ending (lines_of lines.old.rest.now) ≡ Ok (true, lines_of lines.new.rest.now)) (λ e. ending (lines_of lines.old.rest.now) ≡ Err (e, lines_of lines.new.rest.now)) }
{
    let line = lines.next()?;
    if !line.is(b"end\n") {
        return Err(Fault::Form);
    }
    if !lines.rest.is_empty() {
        lines.next()?;
        return Err(Fault::Form);
    }
    Ok(())
}
