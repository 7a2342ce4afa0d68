//! What a forest asks of the values that it keeps.
ghost use Rattle.std.specs.Prelude.{◌≡◌, ℕ, ◌↔◌, IsTrue, IfOk};

use std::alloc::Global;
use trace_types::Memory;

/// A value that a forest can keep once for all that have it.
pub trait Shape {
    ghost digest_of: { Self → ℕ };

    /// Whether both are one value. It takes no memory.
    fn same(&self, other: &Self) -> bool
        ensures { IsTrue result ↔ (self.now ≡ other.now) };

    /// A number by which a forest finds the value. Other values may share it. It takes no memory.
    fn digest(&self) -> u64
        ensures { result ≡ digest_of self.now };

    /// An equal value. Returns `Memory` if it runs out of memory.
    fn share(&self, alloc: Global) -> Result<Self, Memory>
        ensures { IfOk result (λ shared. shared ≡ self.now) };
}
