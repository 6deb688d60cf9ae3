use crate::verdict::Reason;

/// A fault: its line, from 1, or how many lines it stands after another, from 0.
#[derive(Clone, Copy)]
pub(crate) struct Fault {
    pub(crate) line: u64,
    pub(crate) reason: Reason,
}
