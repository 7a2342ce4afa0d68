//! Checks of exports.
ghost use Rattle.std.specs.Prelude.{◌≡◌, ◌≢◌, ◌<◌, OnOk, IfOk, IfErr, IsErrOf, string_bytes};
ghost use Rattle.collector.specs.Fault.{status_of};
ghost use Rattle.collector.specs.Program.{ChecksInPart, GoesThrough, IsFailure, TellsFault, TellsVerdict, line_of_verdict, status_of_verdict};

use crate::fault::Fault;
use crate::show::show;
use line_protocol::{Sink, Source};
use std::alloc::{AllocError, Global};
use trace_export::{Verdict, check_at_exit};

/// Checks the export that the reader gives, tells the verdict, and answers the status.
pub(crate) fn check_input<R: Source, W: Sink, E: Sink>(
    alloc: Global,
    reader: &mut R,
    writer: &mut W,
    errors: &mut E,
) -> u8
    ensures done { result < 2 → (errors.new ≡ errors.old)
        × GoesThrough (R.seen reader.old) (R.seen reader.new) (W.seen writer.old) (W.seen writer.new)
        × TellsVerdict R.seen reader.old reader.new (W.seen writer.old) (W.seen writer.new) result }
    ensures taken { result ≢ 2 }
    ensures memory { result ≡ 4 → (writer.new ≡ writer.old) × TellsFault (E.seen errors.old) (E.seen errors.new) Fault.Memory }
    ensures unfailed { result ≡ 4 → (R.seen reader.old).failures < (R.seen reader.new).failures → ⊥ }
    ensures broken_off { 2 < result → result ≢ 4 → (result ≡ 3) × (fault : Fault)
        × IsFailure (R.seen reader.old) (R.seen reader.new) (W.seen writer.old) (W.seen writer.new) fault
        × ChecksInPart R.seen fault reader.old reader.new (W.seen writer.old) (W.seen writer.new)
        × TellsFault (E.seen errors.old) (E.seen errors.new) fault }
{
    match tell_verdict(alloc, reader, writer) {
        Ok(status) => status,
        Err(cause) => cause.tell(errors),
    }
}

/// Checks the export that the reader gives, writes the verdict, and answers the status for the verdict. The memory of its lines is
/// left to the end of the process.
fn tell_verdict<R: Source, W: Sink>(
    alloc: Global,
    reader: &mut R,
    writer: &mut W,
) -> Result<u8, Fault>
    ensures told { IfOk result (TellsVerdict R.seen reader.old reader.new (W.seen writer.old) (W.seen writer.new)) }
    ensures through { OnOk result (GoesThrough (R.seen reader.old) (R.seen reader.new) (W.seen writer.old) (W.seen writer.new)) }
    ensures taken { IfErr result (λ fault. status_of fault ≢ 2) }
    ensures memory { IsErrOf result Fault.Memory → writer.new ≡ writer.old }
    ensures unfailed { IsErrOf result Fault.Memory → (R.seen reader.old).failures < (R.seen reader.new).failures → ⊥ }
    ensures in_part { IfErr result (λ fault. fault ≢ Fault.Memory →
        IsFailure (R.seen reader.old) (R.seen reader.new) (W.seen writer.old) (W.seen writer.new) fault
        × ChecksInPart R.seen fault reader.old reader.new (W.seen writer.old) (W.seen writer.new)) }
{
    let verdict = check_at_exit(alloc, reader)?;
    let line = verdict_line(alloc, verdict).map_err(|_| Fault::Memory)?;
    show(writer, line.as_str())?;
    Ok(verdict_status(verdict))
}

/// The line that tells the verdict.
fn verdict_line(alloc: Global, verdict: Verdict) -> Result<String, AllocError>
    ensures { IfOk result (λ line. string_bytes line ≡ line_of_verdict verdict) }
{
    match verdict {
        Verdict::Yes(events) => format!(in alloc; "yes {events}\n"),
        Verdict::No(line, reason) => {
            let reason = reason.number();
            format!(in alloc; "no {line} {reason}\n")
        }
    }
}

/// The status that tells the verdict.
fn verdict_status(verdict: Verdict) -> u8
    ensures { result ≡ status_of_verdict verdict }
{
    match verdict {
        Verdict::Yes(_) => 0,
        Verdict::No(..) => 1,
    }
}
