//! What a search knows of a net.

use firing::LoopTable;
use walks::Telling;

/// The loop of the net of what was told at a place.
#[derive(Drop)]
pub(crate) struct Looped {
    pub(crate) place: usize,
    pub(crate) table: LoopTable,
}

/// What evaluations told, in their order, and the loops of those that may be points.
pub(crate) struct Known {
    pub(crate) tellings: Vec<Telling>,
    pub(crate) loops: Vec<Looped>,
}

// By hand, so that what drops one calls this, and does not drop each of its parts.
impl Drop for Known {
    fn drop(self) {
        let Known {
            tellings: _tellings,
            loops: _loops,
        } = self;
    }
}
