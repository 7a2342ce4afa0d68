//! The loading of an export: its requests are made again.
ghost use Rattle.std.specs.Prelude.{◌≡◌, ◌≢◌, ◌+◌, ◌<◌, ◌≤◌, ◌↔◌, ◌^◌, IfErr, IfOk, IsErrOf, length};
ghost use Rattle.line_protocol.specs.Source.{StopsAtEnd};
ghost use Rattle.line_protocol.specs.StreamFaults.{PassesNoFaultOver};
ghost use Rattle.trace_export.specs.Loading.{limits_under};
ghost use Rattle.trace_export.specs.Loads.{BreaksLoading, Loads, LoadsAs, StopsLoading};
ghost use Rattle.trace_export.specs.Rebuilding.{IsTaken, IsUnbegun};

use crate::checking::{BYTES_OF_LEVEL, MOST_BYTES};
use crate::follower::Follower;
use crate::requests::write_requests;
use crate::{LoadFault, Loaded, Reason};
use line_protocol::{Buffer, Line, Sink, Source};
use std::alloc::Global;
use std::mem::ManuallyDrop;
use tenant_ledger::Stack;
use trace_types::{Memory, Name};

/// Makes the requests again that an export lists, from nothing. The limits are those of its header, or the greatest if it
/// has none. It writes the requests, a line to this tenant for each, if each is accepted and leaves the listed predecessors
/// and stamp. Else it writes nothing. It flushes nothing.
///
/// It reads to the end, or to the end of the first faulty line. A line of more than 65536 bytes is faulty. An export has at
/// most 16384 events.
///
/// Returns `Read` if a read failed, and `TooLong` if 2^30 reads were made; nothing is written then. Returns `Write` if a
/// write failed or 1048576 writes of one line were interrupted, and `Memory` if it runs out of memory. Then a prefix of the
/// requests may be written.
pub fn load<T, R: Source, W: Sink>(
    rt: &T,
    alloc: Global,
    reader: &mut R,
    tenant: &Name,
    writer: &mut W,
) -> Result<Loaded, LoadFault>
    ensures loads { IfOk result (Loads (R.seen reader.old) (R.seen reader.new) (W.seen writer.old) (W.seen writer.new) tenant.now) }
    ensures fault { IfErr result (λ fault. BreaksLoading fault (R.seen reader.old) (R.seen reader.new) (W.seen writer.old) (W.seen writer.new) tenant.now) }

    // How much is read.
    ensures reads { (R.seen reader.new).reads ≤ (R.seen reader.old).reads + 2 ^ 30 }
    ensures ends { StopsAtEnd (R.seen reader.old) (R.seen reader.new) }
    ensures stops { IfOk result (StopsLoading R.seen reader.old reader.new) }

    // When each fault comes. A failed read or write is never passed over.
    ensures faults { PassesNoFaultOver (R.seen reader.old) (R.seen reader.new) (W.seen writer.old) (W.seen writer.new) result }
{
    let (_follower, loaded) = load_whole(rt, alloc, reader, tenant, writer)?;
    Ok(loaded)
}

/// Loads as [`load`] does, and leaves the memory of what is loaded to the end of the process. Use it if the process ends next:
/// to give the trees back one by one would only take time.
pub fn load_at_exit<T, R: Source, W: Sink>(
    rt: &T,
    alloc: Global,
    reader: &mut R,
    tenant: &Name,
    writer: &mut W,
) -> Result<Loaded, LoadFault>
    ensures loads { IfOk result (Loads (R.seen reader.old) (R.seen reader.new) (W.seen writer.old) (W.seen writer.new) tenant.now) }
    ensures fault { IfErr result (λ fault. BreaksLoading fault (R.seen reader.old) (R.seen reader.new) (W.seen writer.old) (W.seen writer.new) tenant.now) }

    // How much is read.
    ensures reads { (R.seen reader.new).reads ≤ (R.seen reader.old).reads + 2 ^ 30 }
    ensures ends { StopsAtEnd (R.seen reader.old) (R.seen reader.new) }
    ensures stops { IfOk result (StopsLoading R.seen reader.old reader.new) }

    // When each fault comes. A failed read or write is never passed over.
    ensures faults { PassesNoFaultOver (R.seen reader.old) (R.seen reader.new) (W.seen writer.old) (W.seen writer.new) result }
{
    let (follower, loaded) = load_whole(rt, alloc, reader, tenant, writer)?;
    // It is not dropped.
    let _ = ManuallyDrop::new(follower);
    Ok(loaded)
}

/// Loads as [`load`] does, and gives what the lines lead to with what loading answers.
fn load_whole<T, R: Source, W: Sink>(
    rt: &T,
    alloc: Global,
    reader: &mut R,
    tenant: &Name,
    writer: &mut W,
) -> Result<(Follower, Loaded), LoadFault>
    ensures loads { IfOk result (λ done. Loads (R.seen reader.old) (R.seen reader.new) (W.seen writer.old) (W.seen writer.new) tenant.now done.1) }
    ensures fault { IfErr result (λ fault. BreaksLoading fault (R.seen reader.old) (R.seen reader.new) (W.seen writer.old) (W.seen writer.new) tenant.now) }
    ensures reads { (R.seen reader.new).reads ≤ (R.seen reader.old).reads + 2 ^ 30 }
    ensures ends { StopsAtEnd (R.seen reader.old) (R.seen reader.new) }
    ensures stops { IfOk result (λ done. StopsLoading R.seen reader.old reader.new done.1) }
    ensures faults { PassesNoFaultOver (R.seen reader.old) (R.seen reader.new) (W.seen writer.old) (W.seen writer.new) result }
{
    let (follower, loaded) = take_in(rt, alloc, Follower::new(alloc, &None)?, reader)?;
    match loaded {
        Loaded::Done(events) => {
            write_requests(alloc, tenant, follower.ledger.rows(), writer)?;
            Ok((follower, Loaded::Done(events)))
        }
        Loaded::No(line, reason) => Ok((follower, Loaded::No(line, reason))),
    }
}

/// Makes the requests of all lines, or of those before the first faulty one.
fn take_in<T, R: Source>(
    rt: &T,
    alloc: Global,
    mut follower: Follower,
    reader: &mut R,
) -> Result<(Follower, Loaded), LoadFault>
    requires { IsUnbegun follower }
    ensures loads { IfOk result (λ done. LoadsAs (R.seen reader.old) (R.seen reader.new) done.1 done.0.ledger.rows) }
    ensures reads { (R.seen reader.new).reads ≤ (R.seen reader.old).reads + 2 ^ 30 }
    ensures ends { StopsAtEnd (R.seen reader.old) (R.seen reader.new) }
    ensures stops { IfOk result (λ done. StopsLoading R.seen reader.old reader.new done.1) }
    ensures read { IsErrOf result LoadFault.Read ↔ ((R.seen reader.old).failures < (R.seen reader.new).failures) }
    ensures too_long { IsErrOf result LoadFault.TooLong → (R.seen reader.new).reads ≡ (R.seen reader.old).reads + 2 ^ 30 }
    ensures no_write { IfErr result (λ fault. fault ≢ LoadFault.Write) }
{
    let mut lines = Buffer::with_bounds(alloc, MOST_BYTES, Buffer::MOST_READS)?;
    let mut follows = true;
    let mut stack = Stack::new();
    loop {
        let found = lines.next_line(reader)?;
        stack.make_room(alloc, lines.line().len() / BYTES_OF_LEVEL)?;
        let (next, loaded) = take(rt, follower, alloc, found, lines.line(), &mut follows)?;
        follower = next;
        if let Some(loaded) = loaded {
            return Ok((follower, loaded));
        }
    }
}

/// Takes in a line if it is right, else gives what loading answers. It looks first whether the line is the one that is due
/// next, as long as each line of an event was. So at most one report is made for nothing.
fn take<T>(
    rt: &T,
    follower: Follower,
    alloc: Global,
    found: Line,
    line: &[u8],
    follows: &mut bool,
) -> Result<(Follower, Option<Loaded>), Memory>
    requires limits { follower.ledger.limits ≡ limits_under follower.header }
    requires whole { found ≡ Line.Whole → length line.now ≤ 65536 }
    ensures { IfOk result (λ taken. IsTaken found line.now taken.1 follower taken.0) }
{
    let (mut follower, is_due) = match found {
        Line::Whole if *follows => follower.follow(rt, alloc, line),
        Line::Whole | Line::End | Line::TooLong => (follower, false),
    };
    if is_due {
        return Ok((follower, None));
    }
    let loaded = judge(rt, &mut follower, alloc, found, line)?;
    *follows = *follows && follower.ledger.rows().is_empty();
    Ok((follower, loaded))
}

/// Takes in a line if it is right, else gives what loading answers. It gives that at the end too. A line that is too long
/// has no text.
fn judge<T>(
    rt: &T,
    follower: &mut Follower,
    alloc: Global,
    found: Line,
    line: &[u8],
) -> Result<Option<Loaded>, Memory>
    requires whole { found ≡ Line.Whole → length line.now ≤ 65536 }
    ensures { IfOk result (λ loaded. IsTaken found line.now loaded follower.old follower.new) }
{
    let number = follower.next_line();
    let fault = match found {
        Line::End => return Ok(Some(Loaded::Done(follower.ledger.rows().len() as u64))),
        Line::Whole => follower.add(rt, alloc, line)?,
        Line::TooLong => Some(Reason::NoJson),
    };
    match fault {
        Some(reason) => Ok(Some(Loaded::No(number, reason))),
        None => Ok(None),
    }
}
