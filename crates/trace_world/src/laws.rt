//! What tenant isolation means, and places of names. Each law is the contract of a function that does nothing.
ghost use Rattle.std.specs.Prelude.{◌≡◌, ◌↔◌, ℕ, List, [], Some, slice_get};
ghost use Rattle.trace_types.specs.text.Name.{Text};
ghost use Rattle.trace_types.specs.tenant.Limits.{Limits};
ghost use Rattle.trace_types.specs.world.Interleaving.{Call, calls_of, kept, alone};
ghost use Rattle.trace_types.specs.world.Replay.{Entry, calls_by, output, place_of};
ghost use Rattle.trace_world.specs.Isolation.{due_replies, replies_to_tenant, lines_of, output_to};

use crate::World;

/// Isolation of the calls that [`World::step`] and [`World::take`] do.
///
/// However the calls of all tenants are mixed, the replies that are due to one tenant are those that its own requests
/// alone give. Calls that ran out of memory are left out: they changed nothing, and nothing is said of when memory lacks.
/// But for these, a tenant cannot tell from its replies what the others ask, how much they report, or whether they are
/// there.
pub fn isolation()
    ensures alone { (limits : Limits) (tenant : ℕ) (calls : List Call)
        → due_replies limits tenant [] calls ≡ alone limits (kept (calls_of tenant calls)) }
    // Two runs in which the tenant asks the same.
    ensures whatever_others_ask { (limits : Limits) (tenant : ℕ) (first second : List Call)
        → kept (calls_of tenant first) ≡ kept (calls_of tenant second)
        → due_replies limits tenant [] first ≡ due_replies limits tenant [] second }
{}

/// Isolation of the lines that [`crate::replay`] answers.
///
/// What is written for the lines that name one tenant is, byte for byte, what these lines give without all others. The
/// same of them have to run out of memory. So lines that name the others, or nobody, change none of its bytes. If some of
/// its requests run out of memory, the replies to the rest are still those that the rest alone gives.
pub fn isolation_in_bytes()
    ensures lines_alone { (names : List Text) (limits : Limits) (tenant : ℕ) (entries : List Entry)
        → output_to names limits tenant [] entries ≡ output names limits [] (lines_of tenant entries) }
    // Two inputs with the same lines of the tenant, of which the same find no memory.
    ensures whatever_others_write { (names : List Text) (limits : Limits) (tenant : ℕ) (first second : List Entry)
        → lines_of tenant first ≡ lines_of tenant second
        → output_to names limits tenant [] first ≡ output_to names limits tenant [] second }
    ensures requests_alone { (limits : Limits) (tenant : ℕ) (entries : List Entry)
        → replies_to_tenant limits tenant [] entries ≡ alone limits (kept (calls_of tenant (calls_by entries))) }
    // Two inputs by which the tenant asks the same.
    ensures whatever_others_ask { (limits : Limits) (tenant : ℕ) (first second : List Entry)
        → kept (calls_of tenant (calls_by first)) ≡ kept (calls_of tenant (calls_by second))
        → replies_to_tenant limits tenant [] first ≡ replies_to_tenant limits tenant [] second }
{}

/// In any world, a name is found exactly at its place.
pub fn places(world: &World)
    ensures { (name : Text) (place : ℕ)
        → (place_of world.now.names name ≡ Some place) ↔ (slice_get world.now.names place ≡ Some name) }
{
    world.law();
}
