ghost use Rattle.std.specs.Prelude.{◌≡◌, IfOk};
ghost use Rattle.std.specs.String.{string_bytes};
ghost use Rattle.report.specs.RefusalLines.{cause_line, cause_of, line_of, memory_line};

use crate::answers::bytes_of;
use crate::reasons::ends::end_reason;
use crate::reasons::forms::form_reason;
use crate::reasons::limits::limit_reason;
use crate::reasons::nets::net_reason;
use crate::reasons::usage::usage_reason;
use crate::{Class, Refusal};
use sd_base::{NoMemory, Rows};
use std::alloc::{AllocError, Global};

/// The line for want of memory, which takes none.
#[tactic(auto, unfolding(crate::specs::RefusalLines::memory_line))]
pub fn memory_text() -> &'static [u8]
    ensures { result.now ≡ memory_line }
{
    b"sdf3analysis: memory\n"
}

/// The line of a refusal, with its class.
#[tactic(auto, unfolding(crate::specs::RefusalLines::line_of))]
pub fn refusal_line(alloc: Global, refusal: &Refusal) -> Result<(Class, Rows<u8>), NoMemory>
    ensures { IfOk result (λ l. (l.0 ≡ (cause_of refusal.now).class) × (l.1 ≡ line_of refusal.now)) }
{
    let class = refusal.class();
    let reason = reason(alloc, class, refusal)?;
    Ok((class, line(alloc, class, reason.as_str())?))
}

#[tactic(auto, unfolding(crate::specs::RefusalLines::cause_line))]
fn line(alloc: Global, class: Class, reason: &str) -> Result<Rows<u8>, NoMemory>
    ensures { IfOk result (λ l. l ≡ cause_line (record { class = class; reason = reason.now })) }
{
    let word = class.word();
    let line = format!(in alloc; "sdf3analysis: {word}: {reason}\n")?;
    Ok(bytes_of(line))
}

/// The line of a refusal.
pub fn refusal_text(alloc: Global, refusal: &Refusal) -> Result<Rows<u8>, NoMemory>
    ensures { IfOk result (λ t. t ≡ line_of refusal.now) }
{
    let (_class, line) = refusal_line(alloc, refusal)?;
    Ok(line)
}

// The reason of a refusal of a class.
fn reason(alloc: Global, class: Class, refusal: &Refusal) -> Result<String, AllocError>
    requires { class ≡ (cause_of refusal.now).class }
    ensures { IfOk result (λ t. string_bytes t ≡ (cause_of refusal.now).reason) }
{
    match class {
        Class::Usage => usage_reason(alloc, refusal),
        Class::Form => form_reason(alloc, refusal),
        Class::Limit => limit_reason(alloc, refusal),
        Class::Inconsistent => net_reason(alloc, refusal),
        Class::Connection => net_reason(alloc, refusal),
        Class::Deadlock => net_reason(alloc, refusal),
        Class::Budget => end_reason(alloc, refusal),
        Class::Rejected => end_reason(alloc, refusal),
        Class::Shelf => end_reason(alloc, refusal),
    }
}
