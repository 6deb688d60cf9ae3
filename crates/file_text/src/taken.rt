/// What a further byte makes of a text.
#[derive(Clone, Copy)]
pub(crate) enum Taken {
    /// The text goes on.
    Goes,
    /// No text of the grammar goes on so.
    Leaves,
    /// A name begins an element inside the greatest count of others.
    TooDeep,
    /// A value ends that declares an encoding other than UTF-8.
    OtherEncoding,
}
