//! The state of a task.

/// How far a task has come.
#[derive(Clone, Copy, Debug, PartialEq, Eq)]
pub enum TaskState {
    /// The task may report.
    Live,
    /// The task has ended, and no task has joined it yet.
    Ended,
    /// The task has ended, and another one has joined it.
    Joined,
}
