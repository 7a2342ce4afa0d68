//! Hubs, from which sessions borrow desks and views.
ghost use Rattle.std.specs.Prelude.{◌≡◌, ◌↔◌, ◌++◌, ◌∷◌, [], true, false, IfNone, IfOk, IfSome, IsErrOf, Some, None};
ghost use Rattle.trace_session.specs.Hubs.{IsHubOf, Owner, tenant_named};
ghost use Rattle.order_cache.specs.Capacity.{IsCapacity};
ghost use Rattle.trace_types.specs.world.TenantNames.{can_be_tenants};

use crate::tenant::Tenant;
use std::alloc::Global;
use std::marker::Model;
use std::sync::{Arc, Wait};
use tenant_ledger::Shared;
use trace_types::{Limits, Memory, Name, TenantNames, WorldFault};

/// The desks and views of all tenants. A session borrows what it needs. What is not borrowed rests with the tenant.
///
/// Contracts see the tenants: of each its name, its limits, and the log in which its rows stand. A hub cannot be dropped:
/// end it by [`Hub::close`].
pub struct Hub {
    tenants: Vec<Tenant>,
}

impl Model for Hub {
    ghost use Rattle.trace_session.specs.Hubs.{Hub as Seen};

    ghost Value = { Seen };

    ghost view = { λ hub. hub.tenants.items };
}

impl Hub {
    /// Tenants of these names that have reported nothing, each with these limits by itself, a desk and eight views. Their
    /// cache remembers at most `cache` comparisons of two trees.
    ///
    /// | Fault | When it comes |
    /// |---|---|
    /// | `Names` | There are not 1 to 16 names, or one stands twice |
    /// | `Capacity` | The names are right, and `cache` is outside 1 to 65536 |
    /// | `Memory` | Else, if it runs out of memory |
    pub fn new<R: Wait>(
        rt: &R,
        alloc: Global,
        names: &[Name],
        limits: Limits,
        cache: u64,
    ) -> Result<Hub, WorldFault>
        ensures names { IsErrOf result WorldFault.Names ↔ (can_be_tenants names.now ≡ false) }
        ensures capacity { IsErrOf result WorldFault.Capacity ↔ (can_be_tenants names.now ≡ true) × (IsCapacity cache → ⊥) }
        ensures hub { IfOk result (IsHubOf names.now limits) }
    {
        if TenantNames::of(names).is_none() {
            return Err(WorldFault::Names);
        }
        let shared = Shared::by_all(alloc, cache)?;
        Ok(Hub::with_tenants(rt, alloc, names, limits, &shared)?)
    }

    /// The tenants of these names, each with these limits.
    fn with_tenants<R: Wait>(
        rt: &R,
        alloc: Global,
        names: &[Name],
        limits: Limits,
        shared: &Arc<Shared>,
    ) -> Result<Hub, Memory>
        ensures { IfOk result (IsHubOf names.now limits) }
    {
        let mut hub = Hub {
            tenants: Vec::with_capacity(alloc, names.len())?,
        };
        for name in names {
            hub = hub.with_tenant(rt, alloc, *name, limits, shared)?;
        }
        Ok(hub)
    }

    /// The same tenants and one more. It ends all of them if it runs out of memory.
    fn with_tenant<R: Wait>(
        mut self,
        rt: &R,
        alloc: Global,
        name: Name,
        limits: Limits,
        shared: &Arc<Shared>,
    ) -> Result<Hub, Memory>
        ensures { IfOk result (λ hub. (tenant : Owner) × (hub ≡ self ++ tenant ∷ []) × (tenant.name ≡ name) × (tenant.limits ≡ limits) × (tenant.log.tenant ≡ name)) }
    {
        let Ok(tenant) = Tenant::new(rt, alloc, name, limits, shared) else {
            self.close(rt);
            return Err(Memory);
        };
        if let Err(failed) = self.tenants.push(tenant) {
            failed.value.close(rt);
            self.close(rt);
            return Err(Memory);
        }
        Ok(self)
    }

    /// The tenant of this name, if there is one.
    pub(crate) fn find(&self, name: &Name) -> Option<&Tenant>
        ensures none { IfNone result (tenant_named name.now self.now ≡ None) }
        ensures named { IfSome result (λ tenant. tenant_named name.now self.now ≡ Some tenant.now) }
    {
        tenant_of(&self.tenants, name)
    }

    /// Ends the hub and its desks. It waits for views that still read.
    pub fn close<R: Wait>(self, rt: &R) {
        let Hub { mut tenants } = self;
        while let Some(tenant) = tenants.pop() {
            tenant.close(rt);
        }
        tenants.destroy_empty();
    }

    /// Ends the hub as [`Hub::close`] does, and leaves the memory of its desks to the end of the process.
    pub fn close_at_exit<R: Wait>(self, rt: &R) {
        let Hub { mut tenants } = self;
        while let Some(tenant) = tenants.pop() {
            tenant.close_at_exit(rt);
        }
        tenants.destroy_empty();
    }
}

/// The tenant of this name, if there is one.
fn tenant_of<'a>(tenants: &'a [Tenant], name: &Name) -> Option<&'a Tenant>
    ensures none { IfNone result (tenant_named name.now tenants.now ≡ None) }
    ensures named { IfSome result (λ tenant. tenant_named name.now tenants.now ≡ Some tenant.now) }
{
    for tenant in tenants {
        if *tenant.name() == *name {
            return Some(tenant);
        }
    }
    None
}
