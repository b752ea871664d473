//! Why a written text is no template, and why values are not put into one.

use sql_types::state::SqlState;

/// Why a written text is no template.
#[derive(Clone, Copy, PartialEq, Eq)]
pub enum TemplateFault {
    /// The first fault of its tokens, as the language has it. `42601` for a comment that nothing closes, too.
    Refused(SqlState),
    /// `42P02`: `$0`, or a number above 65535.
    UnknownParameter,
    /// The text without its comments is no UTF-8.
    NotText,
}

/// Why values are not put into a template.
#[derive(Clone, Copy, PartialEq, Eq)]
pub enum BindFault {
    /// `08P01`: a parameter has no value.
    NoValue,
    /// `54000`: the text is over 65,536 bytes long.
    TooLong,
    /// `XX000`: the text has other tokens than it is to have.
    OtherTokens,
}
