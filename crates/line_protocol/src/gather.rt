//! Numbers and texts that are gathered on the stack and written in chunks.
ghost use Rattle.std.specs.Prelude.{◌≡◌, ◌<◌, ◌≤◌, [], ◌++◌, IsTrue, OnErr, OnOk, decimal, codes, length};
ghost use Rattle.trace_types.specs.text.Text.{numbers_text};
ghost use Rattle.line_protocol.specs.Writing.{GathersText, TriesToWrite};

use crate::pieces::write_piece;
use crate::reply_text::ReplyText;
use crate::{Sink, WriteFault};

/// Gathers numbers, each after a blank.
pub(crate) fn gather_numbers<W: Sink>(
    writer: &mut W,
    patience: &mut u64,
    text: &mut ReplyText,
    numbers: &[u64],
) -> Result<(), WriteFault>
    requires room { length text.old ≤ 127 }
    requires patience { 0 < patience.old }
    ensures gathered { GathersText (W.seen writer.old) (W.seen writer.new) text.old text.new result (numbers_text numbers.now) }
    ensures room { OnOk result (length text.new ≤ 127) }
    ensures tries { TriesToWrite (W.seen writer.old) (W.seen writer.new) patience.old patience.new result }
{
    for number in numbers {
        gather_number(writer, patience, text, *number)?;
    }
    Ok(())
}

/// Gathers a blank and a number.
#[inline(always)]
fn gather_number<W: Sink>(
    writer: &mut W,
    patience: &mut u64,
    text: &mut ReplyText,
    number: u64,
) -> Result<(), WriteFault>
    requires { 0 < patience.old }
    ensures gathered { GathersText (W.seen writer.old) (W.seen writer.new) text.old text.new result (codes " " ++ decimal number) }
    ensures room { OnOk result (length text.new ≤ 127) }
    ensures tries { TriesToWrite (W.seen writer.old) (W.seen writer.new) patience.old patience.new result }
{
    if text.len() > ReplyText::ROOM - 24 {
        write_gathered(writer, patience, text)?;
    }
    text.push_before_number(b" ", number);
    Ok(())
}

/// Gathers bytes, or writes them if they have no room.
pub(crate) fn gather_bytes<W: Sink>(
    writer: &mut W,
    patience: &mut u64,
    text: &mut ReplyText,
    bytes: &[u8],
) -> Result<(), WriteFault>
    requires room { length text.old ≤ 127 }
    requires patience { 0 < patience.old }
    ensures gathered { GathersText (W.seen writer.old) (W.seen writer.new) text.old text.new result bytes.now }
    ensures room { OnOk result (length text.new ≤ 127) }
    ensures tries { TriesToWrite (W.seen writer.old) (W.seen writer.new) patience.old patience.new result }
{
    if bytes.len() < ReplyText::ROOM - text.len() {
        text.push(bytes);
        return Ok(());
    }
    write_gathered(writer, patience, text)?;
    write_piece(writer, patience, bytes)
}

/// Writes what was gathered.
#[inline(never)]
fn write_gathered<W: Sink>(
    writer: &mut W,
    patience: &mut u64,
    text: &mut ReplyText,
) -> Result<(), WriteFault>
    requires { 0 < patience.old }
    ensures gathered { GathersText (W.seen writer.old) (W.seen writer.new) text.old text.new result [] }
    ensures none { OnOk result (text.new ≡ []) }
    ensures tries { TriesToWrite (W.seen writer.old) (W.seen writer.new) patience.old patience.new result }
{
    write_piece(writer, patience, text.as_bytes())?;
    text.clear();
    Ok(())
}
