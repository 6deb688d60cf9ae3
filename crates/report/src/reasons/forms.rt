//! The reasons for a file that isn't of its form, and for names that words give to what isn't there.

ghost use Rattle.std.specs.Prelude.{◌≡◌, IfOk};
ghost use Rattle.std.specs.String.{string_bytes};
ghost use Rattle.report.specs.declared.refusal.Class.TheVariants as classes;
ghost use Rattle.report.specs.RefusalLines.{below_tokens_reason, cause_of, certificate_reason, count_reason, phases_reason, place_reason, processors_reason, self_loop_reason, shared_reason, successor_reason, twice_reason, unknown_reason, within_reason};

use crate::Refusal;
use std::alloc::{AllocError, Global};

/// The reason for a text, a file or a name that isn't of its form.
#[tactic(auto, unfolding(crate::specs::RefusalLines::cause_of))]
pub(crate) fn form_reason(alloc: Global, refusal: &Refusal) -> Result<String, AllocError>
    requires { (cause_of refusal.now).class ≡ classes.Form }
    ensures { IfOk result (λ t. string_bytes t ≡ (cause_of refusal.now).reason) }
{
    match refusal {
        Refusal::Text { place } => place_text(alloc, "text", *place),
        Refusal::DocumentType { place } => place_text(alloc, "document type", *place),
        Refusal::CdataSection { place } => place_text(alloc, "CDATA section", *place),
        Refusal::Instruction { place } => place_text(alloc, "processing instruction", *place),
        Refusal::CharReference { place } => place_text(alloc, "character reference", *place),
        Refusal::Encoding { place } => place_text(alloc, "encoding", *place),
        Refusal::WrongKind => String::from_str(alloc, "wrong kind"),
        Refusal::Missing { what, of } => within_text(alloc, "missing", what.as_str(), of.as_str()),
        Refusal::Unknown { what, name } => unknown_text(alloc, what.as_str(), name.as_str()),
        Refusal::Twice { what, name } => twice_text(alloc, what.as_str(), name.as_str()),
        Refusal::BadWord { what, of } => within_text(alloc, "bad word", what.as_str(), of.as_str()),
        Refusal::BadNumber { what, of } => within_text(
            alloc,
            "bad number",
            what.as_str(),
            of.as_str(),
        ),
        Refusal::PhasesDiffer { actor } => phases_text(alloc, actor.as_str()),
        Refusal::SharedDiffers { name } => shared_text(alloc, name.as_str()),
        Refusal::NoSuccessor { name } => successor_text(alloc, name.as_str()),
        Refusal::UnknownChannel { name } => unknown_text(alloc, "channel", name.as_str()),
        Refusal::SelfLoopBuffer { name } => self_loop_text(alloc, name.as_str()),
        Refusal::BelowTokens { name } => below_tokens_text(alloc, name.as_str()),
        Refusal::UnknownActor { name } => unknown_text(alloc, "actor", name.as_str()),
        Refusal::TwoProcessors { name } => processors_text(alloc, name.as_str()),
        Refusal::OrderCount { name, found, gamma } => count_text(
            alloc,
            name.as_str(),
            *found,
            *gamma,
        ),
        Refusal::CertificateLine { line } => certificate_text(alloc, *line),
        _ => unreachable!(),
    }
}

#[tactic(auto, unfolding(crate::specs::RefusalLines::place_reason))]
fn place_text(alloc: Global, what: &str, place: u64) -> Result<String, AllocError>
    ensures { IfOk result (λ t. string_bytes t ≡ place_reason what.now place) }
{
    format!(in alloc; "{what} at byte {place}")
}

#[tactic(auto, unfolding(crate::specs::RefusalLines::within_reason))]
fn within_text(alloc: Global, fault: &str, what: &str, of: &str) -> Result<String, AllocError>
    ensures { IfOk result (λ t. string_bytes t ≡ within_reason fault.now what.now of.now) }
{
    format!(in alloc; "{fault} {what} in {of}")
}

#[tactic(auto, unfolding(crate::specs::RefusalLines::unknown_reason))]
fn unknown_text(alloc: Global, what: &str, name: &str) -> Result<String, AllocError>
    ensures { IfOk result (λ t. string_bytes t ≡ unknown_reason what.now name.now) }
{
    format!(in alloc; "unknown {what} {name}")
}

#[tactic(auto, unfolding(crate::specs::RefusalLines::twice_reason))]
fn twice_text(alloc: Global, what: &str, name: &str) -> Result<String, AllocError>
    ensures { IfOk result (λ t. string_bytes t ≡ twice_reason what.now name.now) }
{
    format!(in alloc; "{what} {name} twice")
}

#[tactic(auto, unfolding(crate::specs::RefusalLines::phases_reason))]
fn phases_text(alloc: Global, actor: &str) -> Result<String, AllocError>
    ensures { IfOk result (λ t. string_bytes t ≡ phases_reason actor.now) }
{
    format!(in alloc; "phases of {actor} differ")
}

#[tactic(auto, unfolding(crate::specs::RefusalLines::shared_reason))]
fn shared_text(alloc: Global, name: &str) -> Result<String, AllocError>
    ensures { IfOk result (λ t. string_bytes t ≡ shared_reason name.now) }
{
    format!(in alloc; "shared channel {name} differs")
}

#[tactic(auto, unfolding(crate::specs::RefusalLines::successor_reason))]
fn successor_text(alloc: Global, name: &str) -> Result<String, AllocError>
    ensures { IfOk result (λ t. string_bytes t ≡ successor_reason name.now) }
{
    format!(in alloc; "state {name} has no successor")
}

#[tactic(auto, unfolding(crate::specs::RefusalLines::self_loop_reason))]
fn self_loop_text(alloc: Global, name: &str) -> Result<String, AllocError>
    ensures { IfOk result (λ t. string_bytes t ≡ self_loop_reason name.now) }
{
    format!(in alloc; "buffer of self-loop {name}")
}

#[tactic(auto, unfolding(crate::specs::RefusalLines::below_tokens_reason))]
fn below_tokens_text(alloc: Global, name: &str) -> Result<String, AllocError>
    ensures { IfOk result (λ t. string_bytes t ≡ below_tokens_reason name.now) }
{
    format!(in alloc; "buffer of {name} below its tokens")
}

#[tactic(auto, unfolding(crate::specs::RefusalLines::processors_reason))]
fn processors_text(alloc: Global, name: &str) -> Result<String, AllocError>
    ensures { IfOk result (λ t. string_bytes t ≡ processors_reason name.now) }
{
    format!(in alloc; "actor {name} on two processors")
}

#[tactic(auto, unfolding(crate::specs::RefusalLines::count_reason))]
fn count_text(alloc: Global, name: &str, found: u64, gamma: u64) -> Result<String, AllocError>
    ensures { IfOk result (λ t. string_bytes t ≡ count_reason name.now found gamma) }
{
    format!(in alloc; "order of {name} has {found} of {gamma}")
}

#[tactic(auto, unfolding(crate::specs::RefusalLines::certificate_reason))]
fn certificate_text(alloc: Global, line: u64) -> Result<String, AllocError>
    ensures { IfOk result (λ t. string_bytes t ≡ certificate_reason line) }
{
    format!(in alloc; "certificate line {line}")
}
