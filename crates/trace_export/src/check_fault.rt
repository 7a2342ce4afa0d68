//! The faults of a check.
ghost use Rattle.std.specs.Prelude.{◌≡◌};
ghost use Rattle.line_protocol.specs.declared.line_reader.ReadFault.{ReadFault};
ghost use Rattle.trace_export.specs.declared.check_fault.CheckFault.{CheckFault};
ghost use Rattle.trace_export.specs.declared.check_fault.CheckFault.TheVariants.{Memory as OutOfMemory};
ghost use Rattle.trace_export.specs.Checked.{check_fault_of};

use line_protocol::ReadFault;
use std::alloc::AllocError;
use thiserror::Error;
use trace_types::Memory;

/// Why a check does not answer.
#[derive(Clone, Copy, Debug, PartialEq, Eq, Error)]
pub enum CheckFault {
    /// A read failed.
    #[error("read fault")]
    Read,
    /// All the 2^30 reads that one check may make were made.
    #[error("input too long")]
    TooLong,
    /// The check ran out of memory.
    #[error("no memory")]
    Memory,
}

impl From<ReadFault> for CheckFault {
    ghost from_gives = { λ fault check_fault. check_fault ≡ check_fault_of fault };

    fn from(fault: ReadFault) -> CheckFault {
        match fault {
            ReadFault::Read => CheckFault::Read,
            ReadFault::TooLong => CheckFault::TooLong,
        }
    }
}

impl From<Memory> for CheckFault {
    ghost from_gives = { λ _ fault. fault ≡ OutOfMemory };

    fn from(_refused: Memory) -> CheckFault {
        CheckFault::Memory
    }
}

impl From<AllocError> for CheckFault {
    ghost from_gives = { λ _ fault. fault ≡ OutOfMemory };

    fn from(_refused: AllocError) -> CheckFault {
        CheckFault::Memory
    }
}
