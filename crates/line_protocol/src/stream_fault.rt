//! The faults of work that reads and writes.
ghost use Rattle.std.specs.Prelude.{◌≡◌};
ghost use Rattle.line_protocol.specs.StreamFaults.{stream_fault_of};
ghost use Rattle.line_protocol.specs.declared.stream_fault.StreamFault.TheVariants as variants;

use crate::{ReadFault, WriteFault};
use std::alloc::AllocError;
use thiserror::Error;
use trace_types::Memory;

/// Why work that reads from a source and writes to a sink stops before its end.
#[derive(Clone, Copy, Debug, PartialEq, Eq, Error)]
pub enum StreamFault {
    /// A read failed.
    #[error("read fault")]
    Read,
    /// A write or a flush failed, or was interrupted 1048576 times.
    #[error("write fault")]
    Write,
    /// All the reads that the work may make were made, 2^30 for lines.
    #[error("input too long")]
    TooLong,
    /// The work ran out of memory.
    #[error("no memory")]
    Memory,
}

impl From<ReadFault> for StreamFault {
    ghost from_gives = { λ fault stream_fault. stream_fault ≡ stream_fault_of fault };

    fn from(fault: ReadFault) -> StreamFault {
        match fault {
            ReadFault::Read => StreamFault::Read,
            ReadFault::TooLong => StreamFault::TooLong,
        }
    }
}

impl From<WriteFault> for StreamFault {
    ghost from_gives = { λ _ stream_fault. stream_fault ≡ variants.Write };

    fn from(_fault: WriteFault) -> StreamFault {
        StreamFault::Write
    }
}

impl From<Memory> for StreamFault {
    ghost from_gives = { λ _ stream_fault. stream_fault ≡ variants.Memory };

    fn from(_refused: Memory) -> StreamFault {
        StreamFault::Memory
    }
}

impl From<AllocError> for StreamFault {
    ghost from_gives = { λ _ stream_fault. stream_fault ≡ variants.Memory };

    fn from(_refused: AllocError) -> StreamFault {
        StreamFault::Memory
    }
}
