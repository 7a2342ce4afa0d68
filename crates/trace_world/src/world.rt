//! Worlds of tenants.
ghost use Rattle.std.specs.Prelude.{◌≡◌, ◌↔◌, ◌<◌, ℕ, true, false, [], length, map, Some, slice_get, IfOk, IfSome, IsErrOf, IsTrue};
ghost use Rattle.trace_types.specs.text.Name.{is_name};
ghost use Rattle.order_cache.specs.Capacity.{IsCapacity};
ghost use Rattle.trace_types.specs.tenant.Tenant.{fresh, is_report};
ghost use Rattle.trace_types.specs.world.Replay.{place_of};
ghost use Rattle.trace_types.specs.world.World.{StepsOne, IsAfter, IsDue};
ghost use Rattle.tenant_ledger.specs.Answers.{taken_answer};
ghost use Rattle.trace_world.specs.Exported.{IsHeaderOf};
ghost use Rattle.trace_world.specs.Tenants.{IsLedTo, IsShortAt, IsWorld, StepsAt, can_be_tenants};

use std::alloc::Global;
use std::marker::Model;
use std::sync::{Arc, Wait};
use tenant_ledger::{Ledger, Shared};
use trace_export::Header;
use trace_types::{Code, Limits, Memory, Name, Reply, Request, TenantNames, WorldFault};

/// The ledger of a tenant that keeps its ids and trees together with all others.
pub(crate) type SharedLedger = Ledger<Arc<Shared>>;

/// All tenants: their names, the limits that each of them has by itself, and what each has reported.
///
/// They keep their ids and trees together, and compare them there. No reply shows it.
#[derive(Drop)]
pub struct World {
    names: TenantNames,
    limits: Limits,
    /// The ledgers, in the order of the names.
    ledgers: Vec<SharedLedger>,
    shared: Arc<Shared>,
}

impl Model for World {
    ghost use Rattle.trace_types.specs.world.World.{World as Tenants};
    ghost use Rattle.trace_world.specs.Tenants.{IsWorld};

    ghost Value = { Tenants };

    ghost view = { λ w. record { names = w.names; limits = w.limits; tenants = w.ledgers.items } };

    ghost invariant = { λ w. IsWorld (record { names = w.names; limits = w.limits; tenants = w.ledgers.items }) };
}

impl World {
    /// Tenants of these names that have reported nothing. Their cache remembers at most `cache` comparisons of two trees.
    ///
    /// | Fault | When it comes |
    /// |---|---|
    /// | `Names` | There are not 1 to 16 names, or one stands twice |
    /// | `Capacity` | The names are right, and `cache` is outside 1 to 65536 |
    /// | `Memory` | Else, if it runs out of memory |
    pub fn new(
        alloc: Global,
        names: &[Name],
        limits: Limits,
        cache: u64,
    ) -> Result<World, WorldFault>
        ensures names { IsErrOf result WorldFault.Names ↔ (can_be_tenants names.now ≡ false) }
        ensures capacity { IsErrOf result WorldFault.Capacity ↔ (can_be_tenants names.now ≡ true) × (IsCapacity cache → ⊥) }
        ensures world { IfOk result (λ world. world ≡ record { names = names.now; limits = limits; tenants = map (λ name. fresh limits) names.now }) }
        ensures fresh { IfOk result (λ world. IsAfter world []) }
    {
        let Some(names) = TenantNames::of(names) else {
            return Err(WorldFault::Names);
        };
        let shared = Shared::by_all(alloc, cache)?;
        let ledgers = fresh_ledgers(alloc, names.as_slice(), limits, &shared)?;
        Ok(World {
            names,
            limits,
            ledgers,
            shared,
        })
    }

    /// What the tenants share, for the operator.
    pub fn shared(&self) -> &Shared {
        &self.shared
    }

    /// What holds of every world, and that some calls of its tenants led to it.
    ///
    /// It does nothing: it is a law.
    pub fn law(&self)
        ensures world { IsWorld self.now }
        ensures led { IsLedTo self.now }
    {
        // For the proof, which knows what holds of a world once it is read.
        let _ = &self.names;
    }

    /// The place of the tenant of this name, from 0.
    pub fn find(&self, name: &Name) -> Option<usize>
        ensures place { result ≡ place_of self.now.names name.now }
        ensures stands { (place : ℕ) → (result ≡ Some place) ↔ (slice_get self.now.names place ≡ Some name.now) }
        ensures within { IfSome result (λ place. place < length self.now.tenants) }
    {
        self.find_text(name.as_bytes())
    }

    /// The place of the tenant whose name has this text.
    #[inline(always)]
    pub(crate) fn find_text(&self, text: &[u8]) -> Option<usize>
        ensures place { result ≡ place_of self.now.names text.now }
        ensures stands { (place : ℕ) → (result ≡ Some place) ↔ (slice_get self.now.names place ≡ Some text.now) }
        ensures within { IfSome result (λ place. place < length self.now.tenants) }
        ensures name { IfSome result (λ _. IsTrue (is_name text.now)) }
    {
        self.names.find(text)
    }

    /// The ledger of the tenant at this place.
    #[inline(always)]
    pub(crate) fn ledger(&self, tenant: usize) -> &SharedLedger
        requires { tenant < length self.now.tenants }
        ensures { slice_get self.now.tenants tenant ≡ Some result.now }
    {
        &self.ledgers[tenant]
    }

    /// The name of the tenant at this place.
    #[inline(always)]
    pub(crate) fn name(&self, tenant: usize) -> &Name
        requires { tenant < length self.now.tenants }
        ensures { slice_get self.now.names tenant ≡ Some result.now }
    {
        &self.names.as_slice()[tenant]
    }

    /// The header of the export of the tenant at this place.
    pub(crate) fn header(&self, tenant: usize) -> Header
        requires { tenant < length self.now.tenants }
        ensures { IsHeaderOf self.now tenant result }
    {
        Header {
            tenant: *self.name(tenant),
            limits: self.limits,
        }
    }

    /// Does one request of the tenant at this place. It answers `NoMemory` (507) only if it runs out of memory. It may
    /// wait for another thread that uses what the tenants share.
    pub fn step<R: Wait>(&mut self, rt: &R, tenant: usize, request: &Request) -> Reply
        requires { tenant < length self.old.tenants }
        ensures step { StepsOne self.old tenant request.now result self.new }
        ensures due { IsDue self.old tenant request.now result self.new }
        ensures short { IsShortAt self.old.tenants tenant request.now result }
        // There are such calls as `due` speaks of, whatever the world.
        ensures led { IsLedTo self.old }
    {
        report(rt, &mut self.ledgers, tenant, request)
    }

    /// Takes one report of the tenant at this place as [`World::step`] does. It gives the number of the event, or the code of
    /// the refusal.
    pub fn take<R: Wait>(&mut self, rt: &R, tenant: usize, request: &Request) -> Result<u64, Code>
        requires tenant { tenant < length self.old.tenants }
        requires report { is_report request.now ≡ true }
        ensures step { StepsOne self.old tenant request.now (taken_answer result) self.new }
        ensures due { IsDue self.old tenant request.now (taken_answer result) self.new }
        // There are such calls as `due` speaks of, whatever the world.
        ensures led { IsLedTo self.old }
    {
        take(rt, &mut self.ledgers, tenant, request)
    }
}

/// The ledgers of tenants of these names that have reported nothing.
fn fresh_ledgers(
    alloc: Global,
    names: &[Name],
    limits: Limits,
    shared: &Arc<Shared>,
) -> Result<Vec<SharedLedger>, Memory>
    ensures { IfOk result (λ ledgers. ledgers.items ≡ map (λ name. fresh limits) names.now) }
{
    let mut ledgers = Vec::with_capacity(alloc, names.len())?;
    for _ in names {
        let share = Arc::try_clone(shared)?;
        ledgers.push(Ledger::with_share(alloc, limits, share)?)?;
    }
    Ok(ledgers)
}

/// Does one request of the tenant whose ledger stands at this place.
fn report<R: Wait>(rt: &R, ledgers: &mut [SharedLedger], tenant: usize, request: &Request) -> Reply
    requires { tenant < length ledgers.old }
    ensures step { StepsAt ledgers.old tenant request.now result ledgers.new }
    ensures short { IsShortAt ledgers.old tenant request.now result }
{
    let ledger = &mut ledgers[tenant];
    ledger.report(rt, request)
}

/// Takes one report of the tenant whose ledger stands at this place.
#[inline(always)]
fn take<R: Wait>(
    rt: &R,
    ledgers: &mut [SharedLedger],
    tenant: usize,
    request: &Request,
) -> Result<u64, Code>
    requires tenant { tenant < length ledgers.old }
    requires report { is_report request.now ≡ true }
    ensures step { StepsAt ledgers.old tenant request.now (taken_answer result) ledgers.new }
{
    ledgers[tenant].take(rt, request)
}
