//! The faults of making a world.
ghost use Rattle.std.specs.Prelude.{◌≡◌};
ghost use Rattle.trace_types.specs.declared.world_fault.WorldFault.TheVariants.{Memory as OutOfMemory};

use crate::Memory;
use thiserror::Error;

/// Why a world or a hub of tenants is not made.
#[derive(Clone, Copy, Debug, PartialEq, Eq, Error)]
pub enum WorldFault {
    /// No name is given, more than 16 are, or one stands twice.
    #[error("bad tenants")]
    Names,
    /// The cache of comparisons is to remember no pair, or more than 65536.
    #[error("bad capacity")]
    Capacity,
    /// The call ran out of memory.
    #[error("no memory")]
    Memory,
}

impl From<Memory> for WorldFault {
    ghost from_gives = { λ _ fault. fault ≡ OutOfMemory };

    fn from(_refused: Memory) -> WorldFault {
        WorldFault::Memory
    }
}
