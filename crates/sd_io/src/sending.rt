ghost use Rattle.std.specs.Prelude.{◌≡◌, ◌≤◌, OnErr, OnOk};
ghost use Rattle.sd_io.specs.Outside.{Rose, SentPart, with_sent};

use crate::{Failed, Sink};

/// Sends a text whole, by as many sends as it takes; where one fails, a first part of it was sent.
/// An empty text sends nothing. Takes no memory.
pub fn send_all<K: Sink>(out: &mut K, text: &[u8]) -> Result<(), Failed>
    ensures whole { OnOk result (K.sent out.new ≡ with_sent text.now (K.sent out.old)) }
    ensures part { OnErr result (SentPart text.now (K.sent out.old) (K.sent out.new)) }
    ensures failed { OnErr result (Rose (K.faults out.old) (K.faults out.new)) }
    ensures quiet { OnOk result (K.faults out.new ≡ K.faults out.old) }
    ensures grows { K.faults out.old ≤ K.faults out.new }
{
    let mut done = 0;
    'sending: while done < text.len() {
        done += out.send(&text[done..])?;
    }
    Ok(())
}
