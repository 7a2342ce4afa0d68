//! What looking for a line finds.

/// What a line reader finds.
#[derive(Clone, Copy, Debug, PartialEq, Eq)]
pub enum Line {
    /// A line. The line reader holds it until the next line is looked for.
    Whole,
    /// A line of more bytes than the line reader takes. It was read to its end, and is not held.
    TooLong,
    /// No line, since the input has ended.
    End,
}
