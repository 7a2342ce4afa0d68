//! What a desk publishes, and what changes it.
ghost use Rattle.std.specs.Prelude.{◌≡◌};
ghost use Rattle.tenant_ledger.specs.Ledger.{roomless};
ghost use Rattle.tenant_desk.specs.Publications.{left_by};

use crate::row_log::Front;
use left_right::Absorb;
use std::alloc::AllocError;
use std::marker::Model;
use std::sync::Arc;
use tenant_ledger::{Book, Draft, Shared};

/// What is kept of a tenant, with the trees in the forest that all tenants share.
pub(crate) type SharedBook = Book<Arc<Shared>>;

/// What is to be kept of an event there.
pub(crate) type SharedDraft = Draft<Arc<Shared>>;

/// The events of a tenant, and how far they go in its log. Contracts do not see for how many more there is room.
#[derive(Drop)]
pub(crate) struct Published {
    events: SharedBook,
    front: Front,
}

impl Model for Published {
    ghost use Rattle.std.specs.Coded.{codes};
    ghost use Rattle.event_tree.specs.EventTreeCode.{event_tree_code};
    ghost use Rattle.id_tree.specs.IdCode.{id_code};
    ghost use Rattle.tenant_ledger.specs.Ledger.{roomless};
    ghost use Rattle.tenant_desk.specs.Events.{Published as Seen};

    ghost Value = { Seen };

    ghost coded = { Prim.hlevel (codes, event_tree_code, id_code) };

    ghost view = { λ p. record { events = roomless p.events; front = p.front } };
}

/// Adds its event, if it has one, behind those that are there. `front` is how far the log is then.
#[derive(Drop)]
pub(crate) struct Operation {
    pub(crate) event: Option<SharedDraft>,
    pub(crate) front: Front,
}

impl Published {
    /// These events, which go so far in the log.
    pub(crate) fn new(events: SharedBook, front: Front) -> Published
        ensures { result ≡ record { events = roomless events; front = front } }
    {
        Published { events, front }
    }

    /// What is kept of the tenant.
    pub(crate) fn events(&self) -> &SharedBook
        ensures { roomless result.now ≡ self.now.events }
    {
        &self.events
    }

    /// How far the events go in the log.
    pub(crate) fn front(&self) -> &Front
        ensures { result.now ≡ self.now.front }
    {
        &self.front
    }
}

impl Absorb<Operation> for Published {
    type State = Published;

    ghost state = { λ published. published };

    ghost applied = { left_by };

    fn absorb_first(
        &mut self,
        operation: &Operation,
        _other: &Published,
    ) -> Result<(), AllocError> {
        if let Some(event) = &operation.event {
            if !self.events.has_room() {
                return Err(AllocError);
            }
            let Ok(event) = event.share() else {
                return Err(AllocError);
            };
            self.events.commit(event);
        }
        self.front = operation.front.again();
        Ok(())
    }

    fn absorb_second(&mut self, operation: Operation, _other: &Published) -> Result<(), Operation> {
        if operation.event.is_some() && !self.events.has_room() {
            return Err(operation);
        }
        let Operation { event, front } = operation;
        if let Some(event) = event {
            self.events.commit(event);
        }
        self.front = front;
        Ok(())
    }
}
