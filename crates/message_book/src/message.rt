//! What is kept of one message.

/// A message that was sent.
#[derive(Clone, Copy)]
pub(crate) struct Message<T> {
    /// The event that sent the message.
    pub(crate) sent: u32,
    pub(crate) received: Option<Received<T>>,
}

/// The receipts of a message: the first one, and where the others are.
#[derive(Clone, Copy)]
pub(crate) struct Received<T> {
    /// The task of the first receipt, and its event.
    pub(crate) task: T,
    pub(crate) event: u32,
    /// How many others there are.
    pub(crate) others: u32,
    /// The place of the newest of them. Nothing asks for it if there are none.
    pub(crate) newest: u32,
}

/// A receipt that is not the first one of its message.
#[derive(Clone, Copy)]
pub(crate) struct Later<T> {
    pub(crate) task: T,
    pub(crate) event: u32,
    /// The place of the one before it, of the same message. Nothing asks for that of the oldest one.
    pub(crate) before: u32,
}
