//! Why the fields of a line are refused.

/// Why the fields of a line are refused: they don't have the form of its word, or one of them isn't what it has to be.
#[derive(Clone, Copy, Debug, PartialEq, Eq)]
pub enum FieldCause {
    /// The line doesn't have the form of its word.
    Shape,
    /// A field that has to be a name isn't one.
    Name,
    /// A field that has to be a number isn't one.
    Number,
    /// A new name is known already, or there is one of the two names already.
    Known,
    /// A used name isn't known.
    Unknown,
    /// A number is out of its range.
    Range,
}
