use crate::reference::Reference;

/// What has been read last.
#[derive(Clone, Copy)]
pub(crate) enum Mode {
    /// Nothing at all.
    Start,
    Mark(Mark),
    /// The `<` at the very start, where a declaration may begin.
    First,
    Declaring(Declaring),
    /// White or characters between tags, or the end of a tag or a comment.
    Between,
    /// The `<` of a tag or a comment.
    Markup,
    Comment(Comment),
    /// A part of the name of an element.
    Naming,
    /// White in a tag or a declaration, where an attribute may begin.
    Gap,
    /// A part of the name of an attribute.
    Attribute,
    /// The name of an attribute, and white.
    Named,
    Equals,
    Value,
    ValueReference(Reference),
    /// The closing quote of a value.
    Valued,
    /// The `/` of an empty element.
    Slash,
    /// The `?` that ends a declaration.
    Ending,
    TextReference(Reference),
    /// `</`, so many bytes of the name of the innermost element, and perhaps white.
    Closing(usize),
}

/// How many bytes of the byte order mark have been read.
#[derive(Clone, Copy)]
pub(crate) enum Mark {
    First,
    Second,
    Whole,
}

/// What has been read of `<?xml`.
#[derive(Clone, Copy)]
pub(crate) enum Declaring {
    Question,
    X,
    Xm,
    Xml,
}

/// What has been read of a comment.
#[derive(Clone, Copy)]
pub(crate) enum Comment {
    /// `<!`.
    Bang,
    /// `<!-`.
    Dash,
    /// `<!--` and a body that ends in no hyphen.
    Body,
    /// That, and a hyphen.
    Hyphen,
    /// That, and two or more hyphens.
    Hyphens,
}
