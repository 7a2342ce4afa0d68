//! Why calls of sources and sinks stop.
ghost use Rattle.line_protocol.specs.Stopped.{StopsAs, StopsFor};

use std::io;
use std::io::ErrorKind;

/// Why a call moved no byte.
#[derive(Clone, Copy, Debug, PartialEq, Eq)]
pub enum Stop {
    /// A signal interrupted the call, which may be made again.
    Interrupted,
    /// The call failed.
    Failed,
}

/// The count, or why the call stopped.
pub(crate) fn stopped_count(outcome: io::Result<usize>) -> Result<usize, Stop>
    ensures { StopsAs outcome result }
{
    match outcome {
        Ok(count) => Ok(count),
        Err(error) => Err(reason(&error)),
    }
}

/// Nothing, or why the call stopped.
pub(crate) fn stopped(outcome: io::Result<()>) -> Result<(), Stop>
    ensures { StopsAs outcome result }
{
    match outcome {
        Ok(()) => Ok(()),
        Err(error) => Err(reason(&error)),
    }
}

fn reason(error: &io::Error) -> Stop
    ensures { StopsFor error.now result }
{
    match error.kind() {
        ErrorKind::Interrupted => Stop::Interrupted,
        _ => Stop::Failed,
    }
}
