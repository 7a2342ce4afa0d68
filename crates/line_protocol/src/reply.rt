//! Replies, which are written without memory.
ghost use Rattle.std.specs.Prelude.{◌≡◌, ◌<◌, ◌≤◌, [], ◌++◌, OnOk, codes, drop, false, length, take};
ghost use Rattle.trace_types.specs.text.Text.{reply_text};
ghost use Rattle.line_protocol.specs.Answer.{reply_tail};
ghost use Rattle.line_protocol.specs.Writing.{Writes, WritesBoth, Flushes, GathersText, TriesToWrite};

use crate::gather::{gather_bytes, gather_numbers};
use crate::pieces::{write_piece, write_pieces};
use crate::reply_head::{push_count, push_head, push_order};
use crate::reply_text::ReplyText;
use crate::{Sink, Stop};
use thiserror::Error;
use trace_types::{Name, Order, Reply};

/// A write or a flush failed, a write took no byte, or one call was interrupted 1048576 times.
#[derive(Clone, Copy, Debug, PartialEq, Eq, Error)]
#[error("write")]
pub struct WriteFault;

/// How many interruptions end a write or a flush.
pub const MOST_INTERRUPTIONS: u64 = 1048576;

/// Writes these bytes. Returns `WriteFault` at the first failure, or at the 1048576th interruption.
#[inline(always)]
pub fn write_bytes<W: Sink>(writer: &mut W, bytes: &[u8]) -> Result<(), WriteFault>
    ensures { Writes (W.seen writer.old) (W.seen writer.new) result bytes.now }
{
    let mut patience = MOST_INTERRUPTIONS;
    write_piece(writer, &mut patience, bytes)
}

/// Writes the addressee of a reply and a blank. Returns `WriteFault` at the first failure, or at the 1048576th
/// interruption.
pub fn write_prefix<W: Sink>(writer: &mut W, addressee: &[u8]) -> Result<(), WriteFault>
    ensures { Writes (W.seen writer.old) (W.seen writer.new) result (addressee.now ++ codes " ") }
{
    let mut patience = MOST_INTERRUPTIONS;
    write_pieces(writer, &mut patience, addressee, b" ")
}

/// Writes the reply and an end of line. Returns `WriteFault` at the first failure, or at the 1048576th interruption.
#[inline(never)]
pub fn write_reply<W: Sink>(writer: &mut W, reply: &Reply) -> Result<(), WriteFault>
    ensures { Writes (W.seen writer.old) (W.seen writer.new) result (reply_text reply.now ++ codes "\n") }
{
    let mut patience = MOST_INTERRUPTIONS;
    let mut text = ReplyText::new();
    push_head(&mut text, reply);
    gather_tail(writer, &mut patience, &mut text, reply)?;
    text.push(b"\n");
    write_piece(writer, &mut patience, text.as_bytes())
}

/// Writes the answer to a line: the addressee and a blank, and then the reply and an end of line. Returns `WriteFault` at
/// the first failure, or at the 1048576th interruption of one of these two parts.
#[inline(always)]
pub fn write_answer<W: Sink>(
    writer: &mut W,
    addressee: &[u8],
    reply: &Reply,
) -> Result<(), WriteFault>
    ensures { WritesBoth (W.seen writer.old) (W.seen writer.new) result (addressee.now ++ codes " ") (reply_text reply.now ++ codes "\n") }
{
    // The compiler zeroes all locals of a function on entry. What a short answer does without has a function of its own.
    if addressee.len() > Name::MOST || has_tail(reply) {
        return write_long_answer(writer, addressee, reply);
    }
    let mut text = ReplyText::new();
    text.push(addressee);
    text.push(b" ");
    let to_len = text.len();
    push_head(&mut text, reply);
    text.push(b"\n");
    write_both(writer, text.as_bytes(), to_len)
}

/// Writes the answer that says how two events stand, as [`write_answer`] does.
#[inline(always)]
pub fn write_order<W: Sink>(
    writer: &mut W,
    addressee: &Name,
    order: Order,
) -> Result<(), WriteFault>
    ensures { WritesBoth (W.seen writer.old) (W.seen writer.new) result (addressee.now ++ codes " ") (reply_text (Reply.Ordering order) ++ codes "\n") }
{
    let mut text = ReplyText::new();
    text.push(addressee.as_bytes());
    text.push(b" ");
    let to_len = text.len();
    push_order(&mut text, order);
    text.push(b"\n");
    write_both(writer, text.as_bytes(), to_len)
}

/// Writes the answer that counts a tenant's events, tasks and messages, as [`write_answer`] does.
#[inline(always)]
pub fn write_count<W: Sink>(
    writer: &mut W,
    addressee: &Name,
    counts: (u64, u64, u64),
) -> Result<(), WriteFault>
    ensures { WritesBoth (W.seen writer.old) (W.seen writer.new) result (addressee.now ++ codes " ") (reply_text (Reply.Count counts.0 counts.1 counts.2) ++ codes "\n") }
{
    let mut text = ReplyText::new();
    text.push(addressee.as_bytes());
    text.push(b" ");
    let to_len = text.len();
    push_count(&mut text, counts.0, counts.1, counts.2);
    text.push(b"\n");
    write_both(writer, text.as_bytes(), to_len)
}

/// Writes an answer of any length: the addressee, and then the reply.
#[inline(never)]
fn write_long_answer<W: Sink>(
    writer: &mut W,
    addressee: &[u8],
    reply: &Reply,
) -> Result<(), WriteFault>
    ensures { WritesBoth (W.seen writer.old) (W.seen writer.new) result (addressee.now ++ codes " ") (reply_text reply.now ++ codes "\n") }
{
    write_prefix(writer, addressee)?;
    write_reply(writer, reply)
}

/// Writes two texts, at once if the sink takes both, else one after the other. The first ends at `first_len`.
#[inline(always)]
fn write_both<W: Sink>(writer: &mut W, text: &[u8], first_len: usize) -> Result<(), WriteFault>
    requires { first_len ≤ length text.now }
    ensures { WritesBoth (W.seen writer.old) (W.seen writer.new) result (take first_len text.now) (drop first_len text.now) }
{
    if writer.take_both(text, first_len) {
        return Ok(());
    }
    write_each(writer, &text[..first_len], &text[first_len..])
}

/// Writes two texts.
#[cold]
#[inline(never)]
fn write_each<W: Sink>(writer: &mut W, first: &[u8], second: &[u8]) -> Result<(), WriteFault>
    ensures { WritesBoth (W.seen writer.old) (W.seen writer.new) result first.now second.now }
{
    write_bytes(writer, first)?;
    write_bytes(writer, second)
}

/// Whether a reply has a list or a stamp.
#[inline(always)]
fn has_tail(reply: &Reply) -> bool
    ensures { result ≡ false → reply_tail reply.now ≡ [] }
{
    match reply {
        Reply::List(_) | Reply::Event(_) | Reply::Stamp(_) | Reply::Message(..) => true,
        Reply::Accepted(_)
        | Reply::Ordering(_)
        | Reply::Task(..)
        | Reply::Count(..)
        | Reply::Refused(_) => false,
    }
}

/// Gathers the numbers of a reply or its stamp, if it has any.
fn gather_tail<W: Sink>(
    writer: &mut W,
    patience: &mut u64,
    text: &mut ReplyText,
    reply: &Reply,
) -> Result<(), WriteFault>
    requires room { length text.old ≤ 127 }
    requires patience { 0 < patience.old }
    ensures gathered { GathersText (W.seen writer.old) (W.seen writer.new) text.old text.new result (reply_tail reply.now) }
    ensures room { OnOk result (length text.new ≤ 127) }
    ensures tries { TriesToWrite (W.seen writer.old) (W.seen writer.new) patience.old patience.new result }
{
    match reply {
        Reply::List(events) => gather_numbers(writer, patience, text, events.as_slice()),
        Reply::Event(row) => gather_numbers(writer, patience, text, row.preds.as_slice()),
        Reply::Stamp(stamp) => gather_bytes(writer, patience, text, stamp.as_bytes()),
        Reply::Message(_, receipts) => gather_numbers(writer, patience, text, receipts.as_slice()),
        Reply::Accepted(_)
        | Reply::Ordering(_)
        | Reply::Task(..)
        | Reply::Count(..)
        | Reply::Refused(_) => Ok(()),
    }
}

/// Hands on what was written. Returns `WriteFault` at the first failure, or at the 1048576th interruption.
pub fn flush<W: Sink>(writer: &mut W) -> Result<(), WriteFault>
    ensures { Flushes (W.seen writer.old) (W.seen writer.new) result }
{
    for _ in 0..MOST_INTERRUPTIONS {
        match writer.flush() {
            Ok(()) => return Ok(()),
            Err(Stop::Interrupted) => {}
            Err(Stop::Failed) => return Err(WriteFault),
        }
    }
    Err(WriteFault)
}
