//! The faults of writing an export.
ghost use Rattle.std.specs.Prelude.{◌≡◌};
ghost use Rattle.trace_export.specs.declared.export_fault.ExportFault.{ExportFault};
ghost use Rattle.trace_export.specs.declared.export_fault.ExportFault.TheVariants as variants;
ghost use Rattle.trace_export.specs.Export.{stream_fault_of_export};

use line_protocol::{StreamFault, WriteFault};
use thiserror::Error;
use trace_types::Memory;

/// Why an export is not written whole.
#[derive(Clone, Copy, Debug, PartialEq, Eq, Error)]
pub enum ExportFault {
    /// A write failed, or 1048576 writes of a line were interrupted.
    #[error("write fault")]
    Write,
    /// The export ran out of memory.
    #[error("no memory")]
    Memory,
}

impl From<WriteFault> for ExportFault {
    ghost from_gives = { λ _ fault. fault ≡ variants.Write };

    fn from(_fault: WriteFault) -> ExportFault {
        ExportFault::Write
    }
}

impl From<Memory> for ExportFault {
    ghost from_gives = { λ _ fault. fault ≡ variants.Memory };

    fn from(_refused: Memory) -> ExportFault {
        ExportFault::Memory
    }
}

impl From<ExportFault> for StreamFault {
    ghost from_gives = { λ fault stream_fault. stream_fault ≡ stream_fault_of_export fault };

    fn from(fault: ExportFault) -> StreamFault {
        match fault {
            ExportFault::Write => StreamFault::from(WriteFault),
            ExportFault::Memory => StreamFault::from(Memory),
        }
    }
}
