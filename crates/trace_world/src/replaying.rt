//! Replays of lines of many tenants.
ghost use Rattle.std.specs.Prelude.{◌≡◌, ◌+◌, ◌≤◌, ◌^◌, IfOk, IfErr, IsErrOf};
ghost use Rattle.line_protocol.specs.Source.{StopsAtEnd};
ghost use Rattle.line_protocol.specs.StreamFaults.{PassesNoFaultOver};
ghost use Rattle.trace_world.specs.Replayed.{HandsOn, Replays, ReplaysInPart};

use crate::line_answer::answer_line;
use crate::{Counts, ReplayFault, World};
use line_protocol::{Buffer, Line, LineFault, Sink, Source, flush};
use std::alloc::Global;
use std::sync::Wait;

/// Reads lines of all tenants, `TENANT REQUEST`, does what they ask and writes a line for each, `TENANT REPLY`. The name
/// is `?` if no tenant is named. It reads to the end of the input.
///
/// It flushes what it answered before it asks for more bytes, so each line that came whole is answered before it waits.
/// It waits on `rt` only if another thread uses what the tenants share.
///
/// | Fault | When it comes | What was answered |
/// |---|---|---|
/// | `Read`, `TooLong` | A read failed, or 2^30 reads were made | Each line whose end came |
/// | `Write` | A write or a flush failed, or was interrupted 1048576 times | A prefix of the lines that were read |
/// | `Memory` | It ran out of memory | Nothing, and nothing was read |
pub fn replay<T: Wait, R: Source, W: Sink>(
    rt: &T,
    alloc: Global,
    world: &mut World,
    reader: &mut R,
    writer: &mut W,
) -> Result<Counts, ReplayFault>
    ensures ok { IfOk result (λ counts. Replays (R.seen reader.old) (R.seen reader.new)
        (W.seen writer.old) (W.seen writer.new) world.old counts world.new) }
    ensures fault { IfErr result (λ fault. ReplaysInPart fault (R.seen reader.old) (R.seen reader.new)
        (W.seen writer.old) (W.seen writer.new) world.old world.new) }
    // Whichever read failed, no answer was held back from it.
    ensures flushed { HandsOn result (W.seen writer.new) }

    // How much is read.
    ensures reads { (R.seen reader.new).reads ≤ (R.seen reader.old).reads + 2 ^ 30 }
    ensures ends { StopsAtEnd (R.seen reader.old) (R.seen reader.new) }

    // When each fault comes. A failed read or write is never passed over.
    ensures faults { PassesNoFaultOver (R.seen reader.old) (R.seen reader.new) (W.seen writer.old) (W.seen writer.new) result }
    ensures memory { IsErrOf result ReplayFault.Memory →
        (reader.new ≡ reader.old) × (writer.new ≡ writer.old) × (world.new ≡ world.old) }
{
    let mut lines = Buffer::new(alloc)?;
    let mut counts = Counts::none();
    loop {
        let found = match lines.next_line_flushing(reader, writer) {
            Ok(found) => found,
            Err(LineFault::Read(fault)) => return Err(ReplayFault::from(fault)),
            Err(LineFault::Write) => return Err(ReplayFault::Write),
        };
        let line = match found {
            Line::End => break,
            Line::TooLong => None,
            Line::Whole => Some(lines.line()),
        };
        answer_line(rt, world, line, writer, &mut counts)?;
    }
    flush(writer)?;
    Ok(counts)
}
