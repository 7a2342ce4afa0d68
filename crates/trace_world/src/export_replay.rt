//! Replays that end in the export of one tenant.
ghost use Rattle.std.specs.Prelude.{◌≡◌, ◌≢◌, ◌↔◌, ◌+◌, ◌<◌, ◌≤◌, ◌^◌, IfOk, IfErr, IsErrOf, OnOk, OnErr, length};
ghost use Rattle.line_protocol.specs.Source.{StopsAtEnd};
ghost use Rattle.line_protocol.specs.StreamFaults.{PassesNoFaultOver};
ghost use Rattle.trace_world.specs.Exported.{BreaksExport, Exports, TakesAll, TakesFirst, WritesRight};

use crate::ledger_stamps::LedgerStamps;
use crate::line_answer::do_line;
use crate::{ReplayFault, World};
use line_protocol::{Buffer, Line, Sink, Source, flush};
use std::alloc::Global;
use std::sync::Wait;
use trace_export::export_rows;

/// Reads lines of all tenants and does what they ask, as [`crate::replay`] does, but writes no reply. At the end of the
/// input it writes the export of the tenant at this place, with a header, and flushes it. It gives the number of rows. A
/// check of what was written answers yes with that number, since no stamp is too large for a line.
///
/// | Fault | When it comes |
/// |---|---|
/// | `Read`, `TooLong` | Before anything is written, if a read failed or 2^30 reads were made |
/// | `Write` | While the export is written, if a write or a flush failed or was interrupted 1048576 times |
/// | `Memory` | If it runs out of memory, before anything is read or while the export is written |
pub fn replay_export<T: Wait, R: Source, W: Sink>(
    rt: &T,
    alloc: Global,
    world: &mut World,
    tenant: usize,
    reader: &mut R,
    writer: &mut W,
) -> Result<u64, ReplayFault>
    requires { tenant < length world.old.tenants }
    ensures ok { IfOk result (λ count. Exports (R.seen reader.old) (R.seen reader.new)
        (W.seen writer.old) (W.seen writer.new) world.old tenant count world.new) }
    ensures right { IfOk result (λ count. WritesRight (W.seen writer.old) (W.seen writer.new) count) }
    ensures fault { IfErr result (λ fault. BreaksExport fault (R.seen reader.old) (R.seen reader.new)
        (W.seen writer.old) (W.seen writer.new) world.old tenant world.new) }

    // How much is read.
    ensures reads { (R.seen reader.new).reads ≤ (R.seen reader.old).reads + 2 ^ 30 }
    ensures ends { StopsAtEnd (R.seen reader.old) (R.seen reader.new) }

    // When each fault comes. A failed read or write is never passed over.
    ensures faults { PassesNoFaultOver (R.seen reader.old) (R.seen reader.new) (W.seen writer.old) (W.seen writer.new) result }
{
    let header = world.header(tenant);
    take_in(rt, alloc, world, reader)?;
    world.law();
    let ledger = world.ledger(tenant);
    let stamps = LedgerStamps { alloc, ledger };
    let count = export_rows(alloc, &header, ledger.rows(), &stamps, writer)?;
    flush(writer)?;
    Ok(count)
}

/// Does what all lines ask.
fn take_in<T: Wait, R: Source>(
    rt: &T,
    alloc: Global,
    world: &mut World,
    reader: &mut R,
) -> Result<(), ReplayFault>
    ensures ok { OnOk result (TakesAll (R.seen reader.old) (R.seen reader.new) world.old world.new) }
    ensures fault { OnErr result (TakesFirst (R.seen reader.old) (R.seen reader.new) world.old world.new) }
    ensures reads { (R.seen reader.new).reads ≤ (R.seen reader.old).reads + 2 ^ 30 }
    ensures ends { StopsAtEnd (R.seen reader.old) (R.seen reader.new) }
    ensures read { IsErrOf result ReplayFault.Read ↔ ((R.seen reader.old).failures < (R.seen reader.new).failures) }
    ensures too_long { IsErrOf result ReplayFault.TooLong → (R.seen reader.new).reads ≡ (R.seen reader.old).reads + 2 ^ 30 }
    ensures no_write { IfErr result (λ fault. fault ≢ ReplayFault.Write) }
    ensures memory { IsErrOf result ReplayFault.Memory → (reader.new ≡ reader.old) × (world.new ≡ world.old) }
{
    let mut lines = Buffer::new(alloc)?;
    loop {
        match lines.next_line(reader)? {
            Line::End => return Ok(()),
            Line::TooLong => {}
            Line::Whole => do_line(rt, world, lines.line()),
        }
    }
}
