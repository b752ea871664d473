//! Lines of a description, and what differs in one.

/// A line of a description: what it is about, which no other line is, and what it says of that.
#[derive(Clone, Copy)]
pub struct DescriptionLine<'a> {
    pub subject: &'a str,
    pub content: &'a str,
}

/// What differs in a line between an old description and a new one.
#[derive(Clone, Copy)]
pub enum LineDifference<'a> {
    /// The old one alone has it.
    Gone(DescriptionLine<'a>),
    /// The new one alone has it.
    Came(DescriptionLine<'a>),
    /// Both have it, and say something else.
    Changed {
        old: DescriptionLine<'a>,
        new: DescriptionLine<'a>,
    },
}
