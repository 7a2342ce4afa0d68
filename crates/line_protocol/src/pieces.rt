//! Texts that are written piece by piece.
ghost use Rattle.std.specs.Prelude.{◌≡◌, ◌+◌, ◌<◌, ◌≤◌, ◌++◌, IfOk, IsTrue, OnErr, OnOk, length, take};
ghost use Rattle.line_protocol.specs.Patience.{waits_since_bytes};
ghost use Rattle.line_protocol.specs.Writing.{TriesToWrite, WritesText};

use crate::{Sink, Stop, WriteFault};

/// Writes two texts.
#[inline(always)]
pub(crate) fn write_pieces<W: Sink>(
    writer: &mut W,
    patience: &mut u64,
    first: &[u8],
    second: &[u8],
) -> Result<(), WriteFault>
    requires { 0 < patience.old }
    ensures written { WritesText (W.seen writer.old) (W.seen writer.new) result (first.now ++ second.now) }
    ensures tries { TriesToWrite (W.seen writer.old) (W.seen writer.new) patience.old patience.new result }
    ensures no_wait { OnOk result (0 < length second.now → waits_since_bytes (W.seen writer.new).calls ≡ 0) }
{
    write_piece(writer, patience, first)?;
    write_piece(writer, patience, second)
}

/// Writes a text. An interrupted write is made again as long as there is patience: each takes one off, and at 0 the text is
/// given up. A caller that writes a line in several texts hands the same patience to each.
///
/// Returns `WriteFault` at the first failure, at a write that takes nothing, or when the patience is used up.
#[inline(always)]
pub fn write_piece<W: Sink>(
    writer: &mut W,
    patience: &mut u64,
    piece: &[u8],
) -> Result<(), WriteFault>
    requires { 0 < patience.old }
    ensures written { WritesText (W.seen writer.old) (W.seen writer.new) result piece.now }
    ensures tries { TriesToWrite (W.seen writer.old) (W.seen writer.new) patience.old patience.new result }
    ensures no_wait { OnOk result (0 < length piece.now → waits_since_bytes (W.seen writer.new).calls ≡ 0) }
{
    if piece.is_empty() {
        return Ok(());
    }
    let count = write_once(writer, patience, piece)?;
    if count == piece.len() {
        return Ok(());
    }
    write_rest(writer, patience, &piece[count..])
}

/// Writes what one write did not take.
#[cold]
#[inline(never)]
fn write_rest<W: Sink>(writer: &mut W, patience: &mut u64, piece: &[u8]) -> Result<(), WriteFault>
    requires { 0 < patience.old }
    ensures written { WritesText (W.seen writer.old) (W.seen writer.new) result piece.now }
    ensures tries { TriesToWrite (W.seen writer.old) (W.seen writer.new) patience.old patience.new result }
    ensures no_wait { OnOk result (0 < length piece.now → waits_since_bytes (W.seen writer.new).calls ≡ 0) }
{
    let mut rest = piece;
    while !rest.is_empty() {
        let count = write_once(writer, patience, rest)?;
        rest = &rest[count..];
    }
    Ok(())
}

/// Writes once, and gives how many bytes were taken, or 0 if the write was interrupted.
#[inline(always)]
fn write_once<W: Sink>(
    writer: &mut W,
    patience: &mut u64,
    piece: &[u8],
) -> Result<usize, WriteFault>
    requires { 0 < patience.old }
    ensures bound { IfOk result (λ n. n ≤ length piece.now) }
    ensures ok { IfOk result (λ n. (W.seen writer.new).bytes ≡ (W.seen writer.old).bytes ++ take n piece.now) }
    ensures err { OnErr result ((W.seen writer.new).bytes ≡ (W.seen writer.old).bytes) }
    ensures progress { IfOk result (λ n. 0 < length piece.now → patience.new < patience.old + n) }
    ensures tries { TriesToWrite (W.seen writer.old) (W.seen writer.new) patience.old patience.new result }
    ensures no_wait { IfOk result (λ n. 0 < n → waits_since_bytes (W.seen writer.new).calls ≡ 0) }
{
    match writer.write_some(piece) {
        Ok(0) if !piece.is_empty() => Err(WriteFault),
        Ok(count) => Ok(count),
        Err(Stop::Failed) => Err(WriteFault),
        Err(Stop::Interrupted) => {
            *patience -= 1;
            if *patience == 0 {
                Err(WriteFault)
            } else {
                Ok(0)
            }
        }
    }
}
