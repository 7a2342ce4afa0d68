//! Ids that events make.
ghost use Rattle.std.specs.Prelude.{◌≡◌, ◌+◌, ◌<◌, IfOk, option_to_list, ◌++◌, map};
ghost use Rattle.trace_types.specs.clock.Id.{Zero};
ghost use Rattle.trace_types.specs.clock.Clock.{tree_clock};
ghost use Rattle.trace_types.specs.clock.Stamps.{id_of, of_named};
ghost use Rattle.tenant_ledger.specs.Contents.{history_in};
ghost use Rattle.tenant_ledger.specs.Kept.{IsKept};
ghost use Rattle.tenant_ledger.specs.Reports.{IsReport, kind_of, name_of};
ghost use Rattle.tenant_ledger.specs.Making.{id_for, ids_made, made_ids};

use super::report::Deed;
use super::{Book, Report};
use crate::share::{Keep, Share};
use id_tree::IdTree;
use trace_types::Memory;

/// The ids that an event makes.
#[derive(Drop)]
pub(super) enum Ids {
    Same,
    /// The part that the task keeps, and the part of the task that it starts.
    Split(IdTree, IdTree),
    Sum(IdTree),
}

impl Ids {
    /// The id with which the event is made, if its task has this one.
    #[inline(always)]
    pub(super) fn acting<'a>(&'a self, own: &'a IdTree) -> &'a IdTree
        ensures { result.now ≡ id_for self.now own.now }
    {
        match self {
            Ids::Same | Ids::Split(..) => own,
            Ids::Sum(id) => id,
        }
    }

    /// Keeps the ids by the share.
    #[inline(always)]
    pub(super) fn keep<R, S: Share<R>>(
        self,
        rt: &R,
        share: &S,
    ) -> Result<(Option<S::Id>, Option<S::Id>), Memory>
        ensures { IfOk result (λ kept. map S.Id.id (option_to_list kept.0 ++ option_to_list kept.1) ≡ made_ids self) }
    {
        match self {
            Ids::Same => Ok((None, None)),
            Ids::Split(kept, given) => {
                let kept = share.keep_id(rt, kept)?;
                let given = share.keep_id(rt, given)?;
                Ok((Some(kept), Some(given)))
            }
            Ids::Sum(id) => Ok((Some(share.keep_id(rt, id)?), None)),
        }
    }
}

impl<S: Keep> Book<S> {
    /// The ids that the report makes, whose task has this one.
    #[inline(always)]
    pub(super) fn ids_made(&self, report: &Report, own: &IdTree) -> Result<Ids, Memory>
        requires own { own.now ≡ id_of tree_clock (history_in self.now) report.now.task }
        requires book { IsKept self.now }
        requires seeded { 0 < self.now.kept_ids }
        requires report { IsReport self.now report.now }
        ensures { IfOk result (λ ids. ids ≡ ids_made (kind_of report.now.deed) (id_of tree_clock (history_in self.now) report.now.task)
            (of_named Zero (id_of tree_clock (history_in self.now)) (name_of report.now.deed))) }
    {
        match report.deed {
            Deed::Local | Deed::Send(_) | Deed::Recv(..) | Deed::End => Ok(Ids::Same),
            Deed::Spawn(_) => {
                let (kept, given) = own.split(self.alloc)?;
                Ok(Ids::Split(kept, given))
            }
            Deed::Join(_, _, joined) => {
                let joined = self.id(joined.id)?;
                Ok(Ids::Sum(own.sum(self.alloc, joined.as_tree())?))
            }
        }
    }
}
