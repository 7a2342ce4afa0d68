//! Logs of calls, which only clauses read.
ghost use Rattle.std.specs.Prelude.{◌≡◌, List, [], ◌∷◌};
ghost use Rattle.std.specs.Borrow.{ftrue};
ghost use Rattle.line_protocol.specs.Calls.{EdgeCall, edge_call_of};
ghost use Rattle.line_protocol.specs.Endings.{count_ending, flush_ending};

use crate::Stop;
use std::marker::{Model, PhantomData};

/// The calls of a reader or a writer, the last one first. It has no bytes.
#[derive(Drop)]
pub struct Log {
    marker: PhantomData<u8>,
    pub ghost calls: { List EdgeCall },
}

impl Model for Log {
    ghost also_owns = { λ _. ftrue };
}

impl Log {
    /// No call yet.
    pub(crate) fn new() -> Log
        ensures { result.calls ≡ [] }
    {
        Log {
            marker: PhantomData,
        }
    }

    /// Notes a call: one number that says how it ended, and the bytes that it moved.
    #[inline(always)]
    pub(crate) fn note(&mut self, _ending: &[u64], _bytes: &[u8])
        ensures { self.new.calls ≡ edge_call_of _ending.now _bytes.now ∷ self.old.calls }
    {}
}

/// How a call that moves bytes ended, as a log notes it.
#[inline(always)]
pub(crate) fn count_ending(outcome: Result<usize, Stop>, room: usize) -> u64
    ensures { result ≡ count_ending outcome room }
{
    match outcome {
        Ok(0) if room > 0 => 1,
        Ok(_) => 0,
        Err(Stop::Failed) => 2,
        Err(Stop::Interrupted) => 3,
    }
}

/// How a flush ended, as a log notes it.
#[inline(always)]
pub(crate) fn flush_ending(outcome: Result<(), Stop>) -> u64
    ensures { result ≡ flush_ending outcome }
{
    match outcome {
        Ok(()) => 4,
        Err(Stop::Failed) => 2,
        Err(Stop::Interrupted) => 5,
    }
}
