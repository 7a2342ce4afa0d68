//! How sessions end.
ghost use Rattle.std.specs.Prelude.{◌≡◌};
ghost use Rattle.trace_session.specs.Faults.{session_fault_by, session_fault_of};
ghost use Rattle.trace_session.specs.declared.session_end.SessionFault.TheVariants as variants;

use line_protocol::{LineFault, ReadFault, WriteFault};
use thiserror::Error;
use trace_types::{Code, Memory};

/// How a session ends if no fault comes.
#[derive(Clone, Copy, Debug, PartialEq, Eq)]
pub enum SessionEnd {
    /// Its line was `quit`, which gets no reply.
    Quit,
    /// Its input has ended.
    EndOfInput,
    /// It had made 1048576 requests, and one more line was answered 423.
    Over,
    /// Its first line was refused with this code.
    Refused(Code),
}

/// Why a session stops before its end.
#[derive(Clone, Copy, Debug, PartialEq, Eq, Error)]
pub enum SessionFault {
    /// A read failed.
    #[error("read fault")]
    Read,
    /// A write or a flush failed, or was interrupted 1048576 times.
    #[error("write fault")]
    Write,
    /// All the 2^30 reads that one session may make were made.
    #[error("input too long")]
    TooLong,
    /// The session ran out of memory before anything was read.
    #[error("no memory")]
    Memory,
    /// The gate did not let a line out.
    #[error("gate")]
    Gate,
}

impl From<ReadFault> for SessionFault {
    ghost from_gives = { λ fault session_fault. session_fault ≡ session_fault_of fault };

    fn from(fault: ReadFault) -> SessionFault {
        match fault {
            ReadFault::Read => SessionFault::Read,
            ReadFault::TooLong => SessionFault::TooLong,
        }
    }
}

impl From<LineFault> for SessionFault {
    ghost from_gives = { λ fault session_fault. session_fault ≡ session_fault_by fault };

    fn from(fault: LineFault) -> SessionFault {
        match fault {
            LineFault::Read(fault) => SessionFault::from(fault),
            LineFault::Write => SessionFault::Write,
        }
    }
}

impl From<WriteFault> for SessionFault {
    ghost from_gives = { λ _ session_fault. session_fault ≡ variants.Write };

    fn from(_fault: WriteFault) -> SessionFault {
        SessionFault::Write
    }
}

impl From<Memory> for SessionFault {
    ghost from_gives = { λ _ session_fault. session_fault ≡ variants.Memory };

    fn from(_refused: Memory) -> SessionFault {
        SessionFault::Memory
    }
}
