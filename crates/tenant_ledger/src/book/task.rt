//! Tasks of a book.

use trace_types::TaskState;

/// A task that was started.
#[derive(Clone, Copy)]
pub(crate) struct Task {
    pub(crate) state: TaskState,
    /// The last event of the task, else the event that started it, else 0.
    pub(crate) last: u64,
    /// The event that started the task, or 0.
    pub(crate) start: u32,
    /// The place of the task's id. Nothing asks for that of a joined task.
    pub(crate) id: usize,
}
