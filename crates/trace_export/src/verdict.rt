//! The verdict of a check.

use crate::Reason;

/// What a check answers.
#[derive(Clone, Copy, Debug, PartialEq, Eq)]
pub enum Verdict {
    /// Every line is right. The number counts the events, and so no header.
    Yes(u64),
    /// The first faulty line, from 1 with a header counted, and why it is faulty.
    No(u64, Reason),
}
