//! Replies up to their lists or stamps, as texts.
ghost use Rattle.std.specs.Prelude.{◌≡◌, ◌+◌, ◌≤◌, ◌++◌, decimal, codes, length};
ghost use Rattle.trace_types.specs.text.Text.{reply_text, state_text, name_text};
ghost use Rattle.line_protocol.specs.Answer.{reply_head};

use crate::reply_text::ReplyText;
use trace_types::{Code, Name, Order, Reply, Row, TaskState};

/// Adds a reply up to its list or its stamp.
#[inline(always)]
pub(crate) fn push_head(text: &mut ReplyText, reply: &Reply)
    requires { length text.old ≤ 25 }
    ensures text { text.new ≡ text.old ++ reply_head reply.now }
    ensures short { length text.new ≤ 127 }
{
    match reply {
        Reply::Accepted(event) => text.push_before_number(b"201 ", *event),
        Reply::Ordering(order) => push_order(text, *order),
        Reply::List(events) => text.push_before_number(b"200 ", events.as_slice().len() as u64),
        Reply::Event(row) => push_event(text, row),
        Reply::Stamp(_) => text.push(b"200 "),
        Reply::Task(state, last) => push_task(text, *state, *last),
        Reply::Message(sent, receipts) => push_message(
            text,
            *sent,
            receipts.as_slice().len() as u64,
        ),
        Reply::Count(events, tasks, messages) => push_count(text, *events, *tasks, *messages),
        Reply::Refused(code) => push_refusal(text, *code),
    }
}

/// Adds the words for an order.
#[inline(always)]
pub(crate) fn push_order(text: &mut ReplyText, order: Order)
    requires { length text.old ≤ 25 }
    ensures text { text.new ≡ text.old ++ reply_text (Reply.Ordering order) }
    ensures short { length text.new ≤ 127 }
{
    // Each text is a constant, so that the compiler copies it without a call.
    match order {
        Order::Same => text.push(b"200 same"),
        Order::Before => text.push(b"200 before"),
        Order::After => text.push(b"200 after"),
        Order::Concurrent => text.push(b"200 concurrent"),
    }
}

/// Adds two short pieces.
#[inline(always)]
fn push_pieces(text: &mut ReplyText, first: &[u8], second: &[u8])
    requires room { length text.old ≤ 98 }
    requires first { length first.now ≤ 4 }
    requires second { length second.now ≤ 24 }
    ensures text { text.new ≡ text.old ++ (first.now ++ second.now) }
    ensures short { length text.new ≤ length text.old + (length first.now + length second.now) }
{
    text.push(first);
    text.push(second);
}

/// Adds a row up to its predecessors: the kind, the task, the name or `-`, and how many predecessors there are.
fn push_event(text: &mut ReplyText, row: &Row)
    requires { length text.old ≤ 25 }
    ensures text { text.new ≡ text.old ++ reply_head (Reply.Event row.now) }
    ensures short { length text.new ≤ 127 }
{
    push_pieces(text, b"200 ", row.kind.text().as_bytes());
    push_pieces(text, b" ", row.task.as_bytes());
    push_pieces(text, b" ", name_text(&row.name));
    text.push_before_number(b" ", row.preds.as_slice().len() as u64);
}

/// Adds the state and the last event of a task.
fn push_task(text: &mut ReplyText, state: TaskState, last: u64)
    requires { length text.old ≤ 25 }
    ensures text { text.new ≡ text.old ++ reply_text (Reply.Task state last) }
    ensures short { length text.new ≤ 127 }
{
    push_pieces(text, b"200 ", state_text(state));
    text.push_before_number(b" ", last);
}

/// Adds the event that sent a message, and how many receipts there are.
fn push_message(text: &mut ReplyText, sent: u64, receipt_count: u64)
    requires { length text.old ≤ 25 }
    ensures text { text.new ≡ text.old ++ (codes "200 " ++ decimal sent ++ codes " " ++ decimal receipt_count) }
    ensures short { length text.new ≤ 127 }
{
    text.push_before_number(b"200 ", sent);
    text.push_before_number(b" ", receipt_count);
}

/// Adds the three numbers of a count.
#[inline(always)]
pub(crate) fn push_count(text: &mut ReplyText, events: u64, tasks: u64, messages: u64)
    requires { length text.old ≤ 25 }
    ensures text { text.new ≡ text.old ++ reply_text (Reply.Count events tasks messages) }
    ensures short { length text.new ≤ 127 }
{
    text.push_before_number(b"200 ", events);
    text.push_before_number(b" ", tasks);
    text.push_before_number(b" ", messages);
}

/// Adds a code's number and its words.
fn push_refusal(text: &mut ReplyText, code: Code)
    requires { length text.old ≤ 25 }
    ensures text { text.new ≡ text.old ++ reply_text (Reply.Refused code) }
    ensures short { length text.new ≤ 127 }
{
    text.push_number(code.number());
    push_pieces(text, b" ", code.text().as_bytes());
}

/// The word for how far a task has come.
fn state_text(state: TaskState) -> &'static [u8]
    ensures text { result.now ≡ state_text state }
    ensures short { length result.now ≤ 24 }
{
    match state {
        TaskState::Live => b"live",
        TaskState::Ended => b"ended",
        TaskState::Joined => b"joined",
    }
}

/// The name, or `-` if there is none.
fn name_text(name: &Option<Name>) -> &[u8]
    ensures text { result.now ≡ name_text name.now }
    ensures short { length result.now ≤ 24 }
{
    match name {
        Some(name) => name.as_bytes(),
        None => b"-",
    }
}
