//! The faults of the program.
ghost use Rattle.std.specs.Prelude.{◌≡◌};
ghost use Rattle.collector.specs.Fault.{status_of, line_of_fault, fault_of_world, fault_of_stream, fault_of_check, fault_of_refusal, fault_of_serving};
ghost use Rattle.collector.specs.Program.{TellsFault};

use line_protocol::{Sink, StreamFault, flush, write_bytes};
use tcp_door::DoorRefusal;
use thiserror::Error;
use trace_export::CheckFault;
use trace_session::ServeFault;
use trace_types::WorldFault;

/// Why the program does not do what it was asked.
#[derive(Clone, Copy, Debug, PartialEq, Eq, Error)]
pub enum Fault {
    /// The words are no text.
    #[error("words")]
    Words,
    /// A tenant's name is no name, one stands twice, there are more than 16, or the one to be exported is none of them.
    #[error("tenants")]
    Tenants,
    /// The port could not be bound.
    #[error("port")]
    Port,
    /// No connection could be accepted.
    #[error("accept fault")]
    Accept,
    /// A read failed.
    #[error("read fault")]
    Read,
    /// A write or a flush failed.
    #[error("write fault")]
    Write,
    /// The input needs more than 2^30 reads.
    #[error("input too long")]
    TooLong,
    /// The program ran out of memory.
    #[error("no memory")]
    Memory,
}

impl Fault {
    /// The status with which the program ends.
    pub(crate) fn status(self) -> u8
        ensures { result ≡ status_of self }
    {
        match self {
            Fault::Words | Fault::Tenants => 2,
            Fault::Port | Fault::Accept | Fault::Read | Fault::Write | Fault::TooLong => 3,
            Fault::Memory => 4,
        }
    }

    /// The line on standard error.
    fn line(self) -> &'static str
        ensures { result.now ≡ line_of_fault self }
    {
        match self {
            Fault::Words => "itc_trace: words\n",
            Fault::Tenants => "itc_trace: tenants\n",
            Fault::Port => "itc_trace: port\n",
            Fault::Accept => "itc_trace: accept fault\n",
            Fault::Read => "itc_trace: read fault\n",
            Fault::Write => "itc_trace: write fault\n",
            Fault::TooLong => "itc_trace: input too long\n",
            Fault::Memory => "itc_trace: no memory\n",
        }
    }

    /// Writes the fault's line, hands it on, and answers its status. Only the status tells of the fault if that fails.
    pub fn tell<E: Sink>(self, errors: &mut E) -> u8
        ensures status { result ≡ status_of self }
        ensures told { TellsFault (E.seen errors.old) (E.seen errors.new) self }
    {
        if write_bytes(errors, self.line().as_bytes()).is_ok() {
            let _ = flush(errors);
        }
        self.status()
    }
}

impl From<WorldFault> for Fault {
    ghost from_gives = { λ fault gives. gives ≡ fault_of_world fault };

    fn from(fault: WorldFault) -> Fault {
        match fault {
            WorldFault::Names => Fault::Tenants,
            WorldFault::Capacity => Fault::Words,
            WorldFault::Memory => Fault::Memory,
        }
    }
}

impl From<StreamFault> for Fault {
    ghost from_gives = { λ fault gives. gives ≡ fault_of_stream fault };

    fn from(fault: StreamFault) -> Fault {
        match fault {
            StreamFault::Read => Fault::Read,
            StreamFault::Write => Fault::Write,
            StreamFault::TooLong => Fault::TooLong,
            StreamFault::Memory => Fault::Memory,
        }
    }
}

impl From<CheckFault> for Fault {
    ghost from_gives = { λ fault gives. gives ≡ fault_of_check fault };

    fn from(fault: CheckFault) -> Fault {
        match fault {
            CheckFault::Read => Fault::Read,
            CheckFault::TooLong => Fault::TooLong,
            CheckFault::Memory => Fault::Memory,
        }
    }
}

impl From<DoorRefusal> for Fault {
    ghost from_gives = { λ refusal gives. gives ≡ fault_of_refusal refusal };

    fn from(refusal: DoorRefusal) -> Fault {
        match refusal {
            DoorRefusal::Port => Fault::Port,
            DoorRefusal::Memory => Fault::Memory,
        }
    }
}

impl From<ServeFault> for Fault {
    ghost from_gives = { λ fault gives. gives ≡ fault_of_serving fault };

    fn from(fault: ServeFault) -> Fault {
        match fault {
            ServeFault::Workers => Fault::Words,
            ServeFault::Door => Fault::Accept,
            ServeFault::Memory => Fault::Memory,
        }
    }
}
