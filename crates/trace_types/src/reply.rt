//! Replies, with a shape for each kind of answer.

use crate::{Code, Numbers, Order, Receipts, Row, TaskState, Text};

/// The reply to one request.
#[derive(Debug, Drop, PartialEq, Eq)]
pub enum Reply {
    /// 201: the report was accepted as the event of this number.
    Accepted(u64),
    /// 200: how the first event stands to the second.
    Ordering(Order),
    /// 200: the numbers of events, increasing.
    List(Numbers),
    /// 200: the row of the event.
    Event(Row),
    /// 200: the text of the event's stamp.
    Stamp(Text),
    /// 200: the state of the task, and its last event, else the event that started it, else 0.
    Task(TaskState, u64),
    /// 200: the event that sent the message, and the events that received it, which increase.
    Message(u64, Receipts),
    /// 200: the numbers of events, of tasks ever with root included, and of messages.
    Count(u64, u64, u64),
    /// 400 to 507: the request is refused, and changed nothing.
    Refused(Code),
}
