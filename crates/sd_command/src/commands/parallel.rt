use fanout::Gate;
use std::thread::Threads;

/// What runs jobs side by side: the runtime whose threads run them, and the gate through which each goes.
#[derive(Drop)]
pub(crate) struct Parallel<'a, R: Threads + Sync, G: Gate + Sync> {
    pub(crate) rt: &'a R,
    pub(crate) gate: &'a G,
}
