//! What lies on a shelf: all of a tenant that no session has.
ghost use Rattle.std.specs.Prelude.{◌≡◌, ◌<◌, ◌≤◌, ◌++◌, ◌∷◌, [], Some, None, IfNone, IfOk, length, vec_capacity, All};
ghost use Rattle.std.specs.Option.{option_to_list};
ghost use Rattle.tenant_desk.specs.Views.{new_view};
ghost use Rattle.trace_session.specs.Belonging.{RestOf, IsViewOf};
ghost use Rattle.trace_session.specs.Hubs.{Owner};
ghost use Rattle.trace_session.specs.Resting.{IsWhole};

use std::alloc::Global;
use std::marker::Model;
use std::sync::{Arc, Wait};
use tenant_desk::{Desk, Told, View, Views, named_desk_and_views};
use tenant_ledger::Shared;
use trace_types::{Limits, Memory, Name};

/// The desk and the views of one tenant, as far as no session has them.
///
/// It cannot be dropped: take the desk by [`Resting::into_desk`] and end that.
pub(crate) struct Resting {
    desk: Option<Desk>,
    views: Vec<View>,
}

impl Model for Resting {
    ghost use Rattle.std.specs.Prelude.{◌≤◌, vec_capacity};
    ghost use Rattle.trace_session.specs.Resting.{Rests};

    ghost Value = { Rests };

    ghost view = { λ r. record { desk = r.desk; views = r.views.items } };

    ghost invariant = { λ r. 8 ≤ vec_capacity r.views };
}

impl Resting {
    /// A new desk of this tenant and its eight views, and what that desk tells of. Returns `Memory` if it runs out of memory.
    pub(crate) fn new<R: Wait>(
        rt: &R,
        alloc: Global,
        name: &Name,
        limits: Limits,
        shared: Arc<Shared>,
    ) -> Result<(Resting, Told), Memory>
        ensures whole { IfOk result (λ made. IsWhole limits made.1.log made.0) }
        ensures log { IfOk result (λ made. made.1.log.tenant ≡ name.now) }
    {
        let (desk, views) = named_desk_and_views(rt, alloc, name, limits, shared)?;
        match all_views(alloc, views) {
            Ok(views) => {
                let told = desk.tell();
                let desk = Some(desk);
                Ok((Resting { desk, views }, told))
            }
            Err(refused) => {
                desk.close(rt);
                Err(refused)
            }
        }
    }

    /// Lends the desk, if no session has it.
    pub(crate) fn take_desk(&mut self) -> Option<Desk>
        ensures lent { result ≡ self.old.desk }
        ensures rests { self.new ≡ record self.old { desk = None } }
    {
        self.desk.take()
    }

    /// Takes the desk back, and gives out a desk that was there.
    pub(crate) fn put_desk(&mut self, desk: Desk) -> Option<Desk>
        ensures other { result ≡ self.old.desk }
        ensures rests { self.new ≡ record self.old { desk = Some desk } }
    {
        self.desk.replace(desk)
    }

    /// Lends a view, if there is one that no session has.
    pub(crate) fn take_view(&mut self) -> Option<View>
        ensures lent { self.old.views ≡ self.new.views ++ option_to_list result }
        ensures none { IfNone result (self.old.views ≡ []) }
        ensures desk { self.new.desk ≡ self.old.desk }
    {
        self.views.pop()
    }

    /// Takes a view back. There is room for all that were lent.
    pub(crate) fn put_view(&mut self, view: View)
        ensures rests { length self.old.views < 8 → self.new.views ≡ self.old.views ++ view ∷ [] }
        ensures desk { self.new.desk ≡ self.old.desk }
        ensures owner { (owner : Owner) → RestOf owner self.old → IsViewOf owner view → RestOf owner self.new }
    {
        // There is room, so nothing is refused.
        let _ = self.views.push(view);
    }

    /// The desk, if no session has it.
    pub(crate) fn into_desk(self) -> Option<Desk>
        ensures { result ≡ self.desk }
    {
        let Resting { desk, views: _ } = self;
        desk
    }
}

/// All the views that are left. Returns `Memory` if it runs out of memory.
fn all_views(alloc: Global, mut views: Views) -> Result<Vec<View>, Memory>
    ensures count { IfOk result (λ all. length all.items ≡ views.left) }
    ensures same { IfOk result (λ all. All (λ view. view ≡ new_view views.limits views.log) all.items) }
    ensures room { IfOk result (λ all. 8 ≤ vec_capacity all) }
{
    let mut all = Vec::with_capacity(alloc, 8)?;
    while let Some(view) = views.view() {
        all.push(view)?;
    }
    Ok(all)
}
