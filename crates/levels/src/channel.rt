/// What a search knows of a channel: the size of its tokens, and the step in which its capacity is worth changing.
#[derive(Clone, Copy, Debug)]
pub struct ChannelStep {
    /// The memory that one token needs.
    pub size: u64,
    /// In tokens.
    pub step: u64,
}
