//! Checks of exports.
ghost use Rattle.std.specs.Prelude.{◌≡◌, ◌+◌, ◌<◌, ◌≤◌, ◌↔◌, ◌^◌, IfOk, IsErrOf, length};
ghost use Rattle.line_protocol.specs.Source.{StopsAtEnd};
ghost use Rattle.trace_export.specs.Checked.{Judges, IsJudged, IsKept, StopsReading};

use crate::checked::Checked;
use crate::{CheckFault, Reason, Verdict};
use line_protocol::{Buffer, Line, Source};
use std::alloc::Global;
use std::mem::ManuallyDrop;
use tenant_ledger::Stack;
use trace_types::Memory;

/// The most bytes of a line.
pub(crate) const MOST_BYTES: usize = 65536;

/// The least bytes that a line takes for a level of the tree that it lists.
pub(crate) const BYTES_OF_LEVEL: usize = 4;

/// Whether the lines that a reader gives are an export in which the trees of every two events compare as the listed edges
/// say. It reads to the end, or to the end of the first faulty line.
///
/// A first line that is a header counts as no event. A line of more than 65536 bytes is faulty. An export has at most
/// 16384 events.
///
/// Returns `Read` if a read failed, `TooLong` if 2^30 reads were made, and `Memory` if it runs out of memory.
pub fn check<R: Source>(alloc: Global, reader: &mut R) -> Result<Verdict, CheckFault>
    ensures verdict { IfOk result (Judges (R.seen reader.old) (R.seen reader.new)) }

    // How much is read.
    ensures reads { (R.seen reader.new).reads ≤ (R.seen reader.old).reads + 2 ^ 30 }
    ensures ends { StopsAtEnd (R.seen reader.old) (R.seen reader.new) }
    ensures stops { IfOk result (StopsReading R.seen reader.old reader.new) }

    // When each fault comes. A failed read is never passed over.
    ensures read { IsErrOf result CheckFault.Read ↔ ((R.seen reader.old).failures < (R.seen reader.new).failures) }
    ensures too_long { IsErrOf result CheckFault.TooLong → (R.seen reader.new).reads ≡ (R.seen reader.old).reads + 2 ^ 30 }
{
    let (_checked, verdict) = take_in(alloc, reader)?;
    Ok(verdict)
}

/// Checks as [`check`] does, and leaves the memory of a verdict's lines to the end of the process. Use it if the process ends
/// next: to give the trees back one by one would only take time.
pub fn check_at_exit<R: Source>(alloc: Global, reader: &mut R) -> Result<Verdict, CheckFault>
    ensures verdict { IfOk result (Judges (R.seen reader.old) (R.seen reader.new)) }

    // How much is read.
    ensures reads { (R.seen reader.new).reads ≤ (R.seen reader.old).reads + 2 ^ 30 }
    ensures ends { StopsAtEnd (R.seen reader.old) (R.seen reader.new) }
    ensures stops { IfOk result (StopsReading R.seen reader.old reader.new) }

    // When each fault comes. A failed read is never passed over.
    ensures read { IsErrOf result CheckFault.Read ↔ ((R.seen reader.old).failures < (R.seen reader.new).failures) }
    ensures too_long { IsErrOf result CheckFault.TooLong → (R.seen reader.new).reads ≡ (R.seen reader.old).reads + 2 ^ 30 }
{
    let (checked, verdict) = take_in(alloc, reader)?;
    // It is not dropped.
    let _ = ManuallyDrop::new(checked);
    Ok(verdict)
}

/// Takes in all lines, or those before the first faulty one, and gives what is kept of them with the verdict.
fn take_in<R: Source>(alloc: Global, reader: &mut R) -> Result<(Checked, Verdict), CheckFault>
    ensures verdict { IfOk result (λ done. Judges (R.seen reader.old) (R.seen reader.new) done.1) }
    ensures reads { (R.seen reader.new).reads ≤ (R.seen reader.old).reads + 2 ^ 30 }
    ensures ends { StopsAtEnd (R.seen reader.old) (R.seen reader.new) }
    ensures stops { IfOk result (λ done. StopsReading R.seen reader.old reader.new done.1) }
    ensures read { IsErrOf result CheckFault.Read ↔ ((R.seen reader.old).failures < (R.seen reader.new).failures) }
    ensures too_long { IsErrOf result CheckFault.TooLong → (R.seen reader.new).reads ≡ (R.seen reader.old).reads + 2 ^ 30 }
{
    let mut lines = Buffer::with_bounds(alloc, MOST_BYTES, Buffer::MOST_READS)?;
    let mut checked = Checked::new(alloc)?;
    let mut stack = Stack::new();
    loop {
        let found = lines.next_line(reader)?;
        stack.make_room(alloc, lines.line().len() / BYTES_OF_LEVEL)?;
        let (next, verdict) = judge(checked, alloc, found, lines.line())?;
        checked = next;
        if let Some(verdict) = verdict {
            return Ok((checked, verdict));
        }
    }
}

/// Takes a line if it is right, else gives the verdict. It gives the verdict at the end too. A line that is too long has no
/// text.
fn judge(
    checked: Checked,
    alloc: Global,
    found: Line,
    line: &[u8],
) -> Result<(Checked, Option<Verdict>), Memory>
    requires kept { IsKept checked }
    requires whole { found ≡ Line.Whole → length line.now ≤ 65536 }
    ensures { IfOk result (λ judged. IsJudged found line.now judged.1 checked judged.0) }
{
    let number = checked.next_line();
    match found {
        Line::End => {
            let events = checked.events();
            Ok((checked, Some(Verdict::Yes(events))))
        }
        Line::TooLong => Ok((checked, Some(Verdict::No(number, Reason::NoJson)))),
        Line::Whole => {
            let (checked, fault) = checked.take(alloc, line)?;
            match fault {
                Some(reason) => Ok((checked, Some(Verdict::No(number, reason)))),
                None => Ok((checked, None)),
            }
        }
    }
}
