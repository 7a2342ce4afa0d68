//! Replays of tenants.
ghost use Rattle.std.specs.Prelude.{◌≡◌, ◌⊎◌, true, false, OnOk, Some, IfOk, IfErr, option_map, string_bytes};
ghost use Rattle.command_line.specs.Demand.{ToReplay};
ghost use Rattle.command_line.specs.Reading.{IsInRange, wanted_of};
ghost use Rattle.collector.specs.Taking.{can_export, is_taken};
ghost use Rattle.collector.specs.Fault.{status_of};
ghost use Rattle.collector.specs.Program.{BreaksOff, Does, GoesThrough, IsExportPlace, IsUntouched, LacksMemory, NothingFails};

use crate::fault::Fault;
use command_line::Replay;
use line_protocol::{Sink, Source};
use std::alloc::Global;
use std::mem::ManuallyDrop;
use std::sync::Wait;
use trace_types::TenantNames;
use trace_world::{World, replay, replay_export};

/// Replays the lines of the tenants, or does them and writes the export of one.
pub(crate) fn replay_tenants<T: Wait, R: Source, W: Sink>(
    rt: &T,
    alloc: Global,
    wanted: &Replay,
    reader: &mut R,
    writer: &mut W,
) -> Result<(), Fault>
    ensures done { OnOk result (Does R.seen (ToReplay (wanted_of wanted.now)) reader.old reader.new (W.seen writer.old) (W.seen writer.new) 0) }
    ensures through { OnOk result (GoesThrough (R.seen reader.old) (R.seen reader.new) (W.seen writer.old) (W.seen writer.new)) }
    ensures taken { OnOk result ((is_taken (ToReplay (wanted_of wanted.now)) ≡ true) × IsInRange (ToReplay (wanted_of wanted.now))) }
    ensures refused { IfErr result (λ fault. status_of fault ≡ 2 → (fault ≡ Fault.Tenants) × (is_taken (ToReplay (wanted_of wanted.now)) ≡ false)
        × IsUntouched reader.old reader.new writer.old writer.new) }
    ensures lacks { IfErr result (λ fault. status_of fault ≡ 4 → (is_taken (ToReplay (wanted_of wanted.now)) ≡ true)
        × (IsUntouched reader.old reader.new writer.old writer.new
        ⊎ LacksMemory R.seen W.seen (ToReplay (wanted_of wanted.now)) reader.old reader.new writer.old writer.new)) }
    ensures unfailed { IfErr result (λ fault. status_of fault ≡ 4 → NothingFails (R.seen reader.old) (R.seen reader.new) (W.seen writer.old) (W.seen writer.new)) }
    ensures in_part { IfErr result (λ fault. status_of fault ≡ 3 → (is_taken (ToReplay (wanted_of wanted.now)) ≡ true)
        × BreaksOff R.seen reader.old reader.new (W.seen writer.old) (W.seen writer.new) (Some (ToReplay (wanted_of wanted.now))) fault) }
{
    let names = TenantNames::read(&wanted.tenants).ok_or(Fault::Tenants)?;
    let exported = exported_place(&names, &wanted.export)?;
    let world = World::new(alloc, names.as_slice(), wanted.limits, wanted.cache)?;
    // The program ends next, and the end of the process gives all memory back at once. To give the trees back one by one
    // would only take time.
    let mut world = ManuallyDrop::new(world);
    match exported {
        Some(place) => {
            replay_export(rt, alloc, &mut *world, place, reader, writer)?;
        }
        None => {
            replay(rt, alloc, &mut *world, reader, writer)?;
        }
    }
    Ok(())
}

/// The place of the tenant to be exported, if there is to be one.
fn exported_place(names: &TenantNames, export: &Option<String>) -> Result<Option<usize>, Fault>
    ensures ok { IfOk result (λ place. IsExportPlace (option_map string_bytes export.now) names.now place) }
    ensures err { IfErr result (λ fault. (fault ≡ Fault.Tenants) × (can_export (option_map string_bytes export.now) names.now ≡ false)) }
{
    match export {
        None => Ok(None),
        Some(name) => match names.find(name.as_bytes()) {
            None => Err(Fault::Tenants),
            place => Ok(place),
        },
    }
}
