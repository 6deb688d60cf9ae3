/// What a channel of a net stands for.
#[derive(Clone, Copy, Debug, PartialEq, Eq)]
pub enum Role {
    /// The tokens of a channel of the file, by the channel's number.
    Token(u32),
    /// The own channel of an actor, which keeps its firings from overlapping, by the actor's number.
    Own(u32),
    /// The free space of a channel of the file, by the channel's number.
    Space(u32),
    /// The edge from one actor to the next in the order of a processor, by the numbers of both.
    Order(u32, u32),
}
