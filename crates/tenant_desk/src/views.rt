//! The views that are still to be handed out.
ghost use Rattle.std.specs.Prelude.{◌≡◌, ◌+◌, [], IfOk, MatchOption};
ghost use Rattle.tenant_desk.specs.Views.{new_view};

use crate::publisher::{Publisher, VIEWS};
use crate::row_log::Front;
use crate::view::View;
use std::alloc::Global;
use std::marker::Model;
use trace_types::{Limits, Memory};

/// The views of a tenant that were not handed out yet.
///
/// Contracts see how many they are, and of which desk.
#[derive(Drop)]
pub struct Views {
    views: Vec<View>,
    limits: Limits,
    front: Front,
}

impl Model for Views {
    ghost use Rattle.std.specs.Prelude.{◌≡◌, length, All};
    ghost use Rattle.tenant_desk.specs.Views.{Remaining, new_view};

    ghost Value = { Remaining };

    ghost view = { λ v. record { left = length v.views.items; limits = v.limits; log = v.front.log } };

    ghost invariant = { λ v. All (λ view. view ≡ new_view v.limits v.front.log) v.views.items };
}

impl Views {
    /// Eight views of what is shown, which has no rows. Returns `Memory` if it runs out of memory.
    pub(crate) fn new(
        alloc: Global,
        limits: Limits,
        publisher: &mut Publisher,
    ) -> Result<Views, Memory>
        requires rows { publisher.old.front.rows ≡ [] }
        requires limits { publisher.old.events.limits ≡ limits }
        ensures same { publisher.new ≡ publisher.old }
        ensures views { IfOk result (λ views. views ≡ record { left = 8; limits = limits; log = publisher.old.front.log }) }
    {
        let mut views = Vec::with_capacity(alloc, VIEWS)?;
        for _number in 0..VIEWS {
            views.push(View::new(limits, publisher)?)?;
        }
        Ok(Views {
            views,
            limits,
            front: publisher.front().again(),
        })
    }

    /// Hands out a view: each of eight once, and then `None`. A view that is dropped does not come back.
    pub fn view(&mut self) -> Option<View>
        ensures limits { self.new.limits ≡ self.old.limits }
        ensures log { self.new.log ≡ self.old.log }
        ensures view { MatchOption result ((self.old.left ≡ 0) × (self.new.left ≡ 0))
            (λ view. (self.old.left ≡ self.new.left + 1) × (view ≡ new_view self.old.limits self.old.log)) }
    {
        self.views.pop()
    }
}
