ghost use Rattle.std.specs.Prelude.{◌≡◌, IfOk};
ghost use Rattle.report.specs.declared.refusal.Refusal.TheVariants.{Rejected};
ghost use Rattle.sd_steps.specs.Judgings.{claim_shown, reason_word};
ghost use Rattle.sd_steps.specs.Judgings.{Tells};

use crate::answer::Answer;
use crate::stop::Stop;
use cert_checker::{Claim, Reason, Verdict};
use report::{ClaimLine, Refusal, claim_text};
use sd_base::{NoMemory, Text};
use std::alloc::Global;

/// The verdict on a certificate, as it is told.
pub fn judged(alloc: Global, verdict: Verdict) -> Result<Answer, Stop>
    ensures { Tells verdict result }
{
    match verdict {
        Verdict::Accepted(claim) => Ok(Answer {
            text: claim_text(alloc, &claim_shown(claim))?,
            put: None,
        }),
        Verdict::Rejected { line, reason } => Err(Stop::Refused(rejected(alloc, line, reason)?)),
    }
}

fn rejected(alloc: Global, line: u64, reason: Reason) -> Result<Refusal, NoMemory>
    ensures { IfOk result (λ refusal. refusal ≡ Rejected line (reason_word reason)) }
{
    Ok(Refusal::Rejected {
        line,
        reason: Text::of(alloc, reason_word(reason))?,
    })
}

// What an accepted certificate shows, as its line tells it.
fn claim_shown(claim: Claim) -> ClaimLine
    ensures { result ≡ claim_shown claim }
{
    match claim {
        Claim::Rate(rate) => ClaimLine::Rate(rate),
        Claim::Points { number, limit } => ClaimLine::Points { number, limit },
        Claim::Worst(rate) => ClaimLine::Worst(rate),
    }
}

// The word for what is wrong in a line.
#[tactic(auto, unfolding(crate::specs::Judgings::reason_word))]
fn reason_word(reason: Reason) -> &'static str
    ensures { result.now ≡ reason_word reason }
{
    match reason {
        Reason::Connection => "connection",
        Reason::Buffers => "buffers",
        Reason::Rate => "rate",
        Reason::Schedule => "schedule",
        Reason::Cycle => "cycle",
        Reason::Limit => "limit",
        Reason::Member => "member",
        Reason::Blocked => "blocked",
        Reason::Closure => "closure",
        Reason::Point => "point",
        Reason::Node => "node",
        Reason::Potential => "potential",
    }
}
