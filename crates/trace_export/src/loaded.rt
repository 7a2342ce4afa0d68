//! What comes of an export that is loaded.

use crate::Reason;

/// What loading an export answers.
#[derive(Clone, Copy, Debug, PartialEq, Eq)]
pub enum Loaded {
    /// The requests of all events were written. The number counts the events, and so no header.
    Done(u64),
    /// The first faulty line, from 1 with a header counted, and why it is faulty. Nothing was written.
    No(u64, Reason),
}
