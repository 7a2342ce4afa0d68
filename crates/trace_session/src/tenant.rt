//! Tenants, which lend what no session has.
ghost use Rattle.std.specs.Prelude.{◌≡◌, IfOk, IfSome};
ghost use Rattle.trace_session.specs.Belonging.{Belongs};
ghost use Rattle.trace_session.specs.Witnesses.{told_of};

use crate::desk_or_view::Lent;
use crate::owner::Owner;
use crate::shelf::Shelf;
use crate::shelf_contents::Resting;
use std::alloc::Global;
use std::marker::Model;
use std::sync::{Arc, Wait};
use tenant_desk::Told;
use tenant_ledger::Shared;
use trace_types::{Limits, Memory, Name};

/// One tenant. A clause sees its name, its limits, and the log in which the rows of all that it lends stand.
///
/// It cannot be dropped: end it by [`Tenant::close`].
pub(crate) struct Tenant {
    owner: Owner,
    shelf: Shelf,
}

impl Model for Tenant {
    ghost use Rattle.std.specs.Prelude.{◌≡◌};
    ghost use Rattle.trace_session.specs.Hubs.{Owner as Seen};

    ghost Value = { Seen };

    ghost view = { λ tenant. tenant.owner };

    ghost invariant = { λ tenant. tenant.shelf.table.shared.key ≡ tenant.owner };
}

impl Tenant {
    /// A tenant that has reported nothing. Returns `Memory` if it runs out of memory.
    pub(crate) fn new<R: Wait>(
        rt: &R,
        alloc: Global,
        name: Name,
        limits: Limits,
        shared: &Arc<Shared>,
    ) -> Result<Tenant, Memory>
        ensures name { IfOk result (λ tenant. tenant.name ≡ name) }
        ensures limits { IfOk result (λ tenant. tenant.limits ≡ limits) }
        ensures log { IfOk result (λ tenant. tenant.log.tenant ≡ name) }
    {
        let shared = Arc::try_clone(shared)?;
        let (resting, told) = Resting::new(rt, alloc, &name, limits, shared)?;
        let owner = Owner { name, limits, told };
        match Shelf::new(alloc, &owner, resting) {
            Ok(shelf) => Ok(Tenant { owner, shelf }),
            Err(resting) => {
                if let Some(desk) = resting.into_desk() {
                    desk.close(rt);
                }
                Err(Memory)
            }
        }
    }

    /// Its name.
    pub(crate) fn name(&self) -> &Name
        ensures { result.now ≡ self.now.name }
    {
        &self.owner.name
    }

    /// Lends a desk or a view of this tenant, if there is one that no session has. It cannot be dropped, so the session has
    /// to give it back.
    pub(crate) fn lend<L: Lent, R: Wait>(&self, rt: &R) -> Option<L>
        ensures { IfSome result (Belongs L.is_sound L.tenant_of L.log_of self.now) }
    {
        self.shelf.lend(rt)
    }

    /// Takes back what was lent of this tenant, and tells of it.
    pub(crate) fn take_back<L: Lent, R: Wait>(&self, rt: &R, lent: L) -> Told
        requires { Belongs L.is_sound L.tenant_of L.log_of self.now lent }
        ensures { result ≡ told_of L.tenant_of L.log_of lent }
    {
        let told = lent.tell();
        self.shelf.take_back(rt, lent);
        told
    }

    /// Ends the desk. It waits for views that still read.
    pub(crate) fn close<R: Wait>(self, rt: &R) {
        let Tenant { owner: _, shelf } = self;
        if let Some(desk) = shelf.into_resting().and_then(Resting::into_desk) {
            desk.close(rt);
        }
    }

    /// Ends the desk as [`Tenant::close`] does, and leaves its memory to the end of the process.
    pub(crate) fn close_at_exit<R: Wait>(self, rt: &R) {
        let Tenant { owner: _, shelf } = self;
        if let Some(desk) = shelf.into_resting().and_then(Resting::into_desk) {
            desk.close_at_exit(rt);
        }
    }
}
