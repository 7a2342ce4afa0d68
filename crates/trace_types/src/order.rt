//! How two events stand to each other.

/// How one event stands to another by happened-before (Lamport 1978).
#[derive(Clone, Copy, Debug, PartialEq, Eq)]
pub enum Order {
    /// Both are the same event.
    Same,
    /// The first happened before the second.
    Before,
    /// The first happened after the second.
    After,
    /// Neither happened before the other.
    Concurrent,
}
