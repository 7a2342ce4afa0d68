//! Loads of exports.
ghost use Rattle.std.specs.Prelude.{◌≡◌, ◌≢◌, ◌<◌, false, IsTrue, OnOk, IfOk, IfErr, IsErrOf, option_map, string_bytes};
ghost use Rattle.trace_types.specs.text.Name.{is_name};
ghost use Rattle.collector.specs.Fault.{status_of};
ghost use Rattle.collector.specs.Program.{GoesThrough, IsFailure, IsUntouched, LoadsExport, LoadsExportInPart, LoadsToTell, NothingFails, RefusesTenants, TellsFault, TellsNo, line_of_no};

use crate::fault::Fault;
use crate::show::show;
use line_protocol::{Sink, Source, flush};
use std::alloc::{AllocError, Global};
use trace_export::{Loaded, Reason, load_at_exit};
use trace_types::Name;

/// Loads the export that the reader gives, and answers the status. It tells why the export is not loaded, if it is not.
pub(crate) fn load_input<T, R: Source, W: Sink, E: Sink>(
    rt: &T,
    alloc: Global,
    tenant: &str,
    reader: &mut R,
    writer: &mut W,
    errors: &mut E,
) -> u8
    ensures refused { result ≡ 2 → IsUntouched reader.old reader.new writer.old writer.new × TellsFault (E.seen errors.old) (E.seen errors.new) Fault.Tenants }
    ensures taken { RefusesTenants (is_name tenant.now) (E.seen errors.old) (E.seen errors.new) result }
    ensures done { result < 2 → GoesThrough (R.seen reader.old) (R.seen reader.new) (W.seen writer.old) (W.seen writer.new)
        × IsTrue (is_name tenant.now) × LoadsExport tenant.now (R.seen reader.old) (R.seen reader.new) (W.seen writer.old) (W.seen writer.new) result }
    ensures quiet { result ≡ 0 → errors.new ≡ errors.old }
    ensures not_loaded { result ≡ 1 → TellsNo R.seen reader.old reader.new (E.seen errors.old) (E.seen errors.new) }
    ensures broken_off { 2 < result → (fault : Fault) × (result ≡ status_of fault) × IsTrue (is_name tenant.now)
        × LoadsExportInPart R.seen fault tenant.now reader.old reader.new (W.seen writer.old) (W.seen writer.new)
        × (status_of fault ≡ 3 → IsFailure (R.seen reader.old) (R.seen reader.new) (W.seen writer.old) (W.seen writer.new) fault)
        × TellsFault (E.seen errors.old) (E.seen errors.new) fault }
    ensures unfailed { result ≡ 4 → NothingFails (R.seen reader.old) (R.seen reader.new) (W.seen writer.old) (W.seen writer.new) }
{
    match load_export(rt, alloc, tenant, reader, writer) {
        Ok(None) => 0,
        Ok(Some(line)) => {
            let _ = show(errors, line.as_str());
            1
        }
        Err(fault) => fault.tell(errors),
    }
}

/// Loads the export that the reader gives, and hands on what was written. It gives the line that tells why the export is not
/// loaded, if it is not. The memory of its tenant is left to the end of the process.
fn load_export<T, R: Source, W: Sink>(
    rt: &T,
    alloc: Global,
    tenant: &str,
    reader: &mut R,
    writer: &mut W,
) -> Result<Option<String>, Fault>
    ensures loads { IfOk result (λ line. LoadsToTell R.seen (option_map string_bytes line) tenant.now reader.old reader.new (W.seen writer.old) (W.seen writer.new)) }
    ensures through { OnOk result (GoesThrough (R.seen reader.old) (R.seen reader.new) (W.seen writer.old) (W.seen writer.new)) }
    ensures named { OnOk result (IsTrue (is_name tenant.now)) }
    ensures refused { IsErrOf result Fault.Tenants → (is_name tenant.now ≡ false) × IsUntouched reader.old reader.new writer.old writer.new }
    ensures words { IfErr result (λ fault. status_of fault ≡ 2 → fault ≡ Fault.Tenants) }
    ensures in_part { IfErr result (λ fault. fault ≢ Fault.Tenants → IsTrue (is_name tenant.now)
        × LoadsExportInPart R.seen fault tenant.now reader.old reader.new (W.seen writer.old) (W.seen writer.new)
        × (status_of fault ≡ 3 → IsFailure (R.seen reader.old) (R.seen reader.new) (W.seen writer.old) (W.seen writer.new) fault)) }
    ensures unfailed { IsErrOf result Fault.Memory → NothingFails (R.seen reader.old) (R.seen reader.new) (W.seen writer.old) (W.seen writer.new) }
{
    let Some(name) = Name::read(tenant.as_bytes()) else {
        return Err(Fault::Tenants);
    };
    let loaded = load_at_exit(rt, alloc, reader, &name, writer)?;
    flush(writer).map_err(|_| Fault::Write)?;
    match loaded {
        Loaded::Done(_) => Ok(None),
        Loaded::No(line, reason) => {
            let line = no_line(alloc, line, reason).map_err(|_| Fault::Memory)?;
            Ok(Some(line))
        }
    }
}

/// The line that tells which line is faulty, and why.
fn no_line(alloc: Global, line: u64, reason: Reason) -> Result<String, AllocError>
    ensures { IfOk result (λ text. string_bytes text ≡ line_of_no line reason) }
{
    let reason = reason.number();
    format!(in alloc; "itc_trace: no {line} {reason}\n")
}
