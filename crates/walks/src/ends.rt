use sd_base::Rows;

/// Where a walk ended.
#[derive(Drop)]
pub enum Walk {
    /// At capacities that no telling holds back.
    Stopped {
        /// By channel of the file its capacity; 0 for a self-loop, which has none.
        capacities: Rows<u64>,
        /// The place of the telling that the last step was taken by; none at the corner.
        by: Option<usize>,
    },
    /// The telling at this place holds back what the walk came to, and the goal has no more on the channels that it shows.
    Held {
        place: usize,
    },
}
