//! Drafts of events.
ghost use Rattle.std.specs.Prelude.{◌≡◌, ◌<◌, ◌≤◌, [], true, IfOk, OnOk, IfSome, IfNone, Some, length, slice_get};
ghost use Rattle.trace_types.specs.tenant.Reachability.{increasing};
ghost use Rattle.trace_types.specs.clock.Clock.{tree_clock};
ghost use Rattle.trace_types.specs.clock.Stamps.{tree_of, acting_id};
ghost use Rattle.trace_types.specs.tenant.Tenant.{is_report};
ghost use Rattle.trace_types.specs.clock.EventTree.{Leaf};
ghost use Rattle.tenant_ledger.specs.Contents.{history_in};
ghost use Rattle.tenant_ledger.specs.Kept.{IsKept};
ghost use Rattle.tenant_ledger.specs.Room.{HasRoom};
ghost use Rattle.tenant_ledger.specs.Reports.{IsReport, row_of_report};
ghost use Rattle.tenant_ledger.specs.Making.{tree_of_report, MayRaise, IsMadeOf};
ghost use Rattle.tenant_ledger.specs.Events.{event_of};
ghost use Rattle.tenant_ledger.specs.Taking.{Drafts, Prepares, Takes, TakesReport};

use super::report::Deed;
use super::{Book, Report, Room, Task};
use crate::share::{Keep, KeptId, Share};
use crate::{Shared, Stack};
use event_tree::{EvTree, RaisedPoint};
use id_tree::IdTree;
use std::alloc::Global;
use std::marker::Model;
use std::sync::Arc;
use trace_query::Meant;
use trace_types::{Code, Memory, Name, Preds, Request, Row};
use tree_forest::Tree;

/// What is to be kept of an event that may be added to a book. Dropping it leaves the book as it is.
#[derive(Drop)]
pub struct Draft<S: Keep> {
    pub(super) row: Row,
    pub(super) made: Made<S>,
    /// What is to be kept of the acting task, and where the table of tasks has it.
    pub(super) acting: Task,
    pub(super) index: usize,
    /// What is to be kept of the task that the event names.
    pub(super) named: Option<Task>,
    /// The place of what the event joins or receives among the tasks or messages, or 0.
    pub(super) place: usize,
}

impl<S: Keep> Model for Draft<S> {
    ghost use Rattle.std.specs.Coded.{codes};
    ghost use Rattle.event_tree.specs.EventTreeCode.{event_tree_code};
    ghost use Rattle.id_tree.specs.IdCode.{id_code};
    ghost use Rattle.tenant_ledger.specs.Events.{Event};

    ghost Value = { Event };

    ghost coded = { Prim.hlevel (codes, event_tree_code, id_code) };

    ghost view = { λ d. record {
      home = d.made.home;
      row = d.row;
      tree = d.made.tree;
      point = d.made.point;
      ids = d.made.ids;
      acting = d.acting;
      named = d.named;
    } };
}

/// What is made of an event. The share keeps its tree and its ids.
#[derive(Drop)]
pub(super) struct Made<S: Keep> {
    pub(super) tree: S::Kept,
    /// A point that the event raised, if one was found.
    pub(super) point: Option<RaisedPoint>,
    /// The ids that the event makes, which come behind those that the book has.
    pub(super) first: Option<S::Id>,
    pub(super) second: Option<S::Id>,
}

impl<S: Keep> Model for Made<S> {
    ghost use Rattle.std.specs.Prelude.{◌++◌, map, option_to_list};
    ghost use Rattle.std.specs.Coded.{codes};
    ghost use Rattle.event_tree.specs.EventTreeCode.{event_tree_code};
    ghost use Rattle.id_tree.specs.IdCode.{id_code};
    ghost use Rattle.tenant_ledger.specs.Making.{Made as Seen};

    ghost Value = { Seen };

    ghost coded = { Prim.hlevel (codes, event_tree_code, id_code) };

    ghost view = { λ m. record {
      home = S.home_of m.tree;
      tree = S.Kept.tree m.tree;
      point = m.point;
      ids = map S.Id.id (option_to_list m.first ++ option_to_list m.second);
    } };
}

impl<S: Keep> Draft<S> {
    pub fn row(&self) -> &Row
        ensures { result.now ≡ self.now.row }
    {
        &self.row
    }

    /// What the event knows, as it is kept.
    pub(crate) fn tree(&self) -> &S::Kept
        ensures { S.Kept.tree result.now ≡ self.now.tree }
    {
        &self.made.tree
    }

    /// A point that the event raised, if one was found.
    pub(crate) fn point(&self) -> Option<RaisedPoint>
        ensures { result ≡ self.now.point }
    {
        self.made.point.as_ref().map(|point| point.share())
    }

    /// The first of the ids that the event makes, if it makes one.
    pub(super) fn first_id(&self) -> Option<&S::Id>
        ensures some { IfSome result (λ id. slice_get self.now.ids 0 ≡ Some (S.Id.id id.now)) }
        ensures none { IfNone result (self.now.ids ≡ []) }
    {
        self.made.first.as_ref().or(self.made.second.as_ref())
    }
}

impl Draft<Arc<Shared>> {
    /// An equal draft. It takes no memory. Returns `Memory` if one of its trees would be shared more often than can be
    /// counted.
    pub fn share(&self) -> Result<Draft<Arc<Shared>>, Memory>
        ensures { IfOk result (λ draft. draft ≡ self.now) }
    {
        Ok(Draft {
            row: self.row.share(),
            made: Made {
                tree: self.made.tree.share()?,
                point: self.point(),
                first: shared_id(&self.made.first)?,
                second: shared_id(&self.made.second)?,
            },
            acting: self.acting,
            index: self.index,
            named: self.named,
            place: self.place,
        })
    }
}

/// An equal id, if there is one.
#[inline(always)]
fn shared_id(id: &Option<Tree<IdTree>>) -> Result<Option<Tree<IdTree>>, Memory>
    ensures { IfOk result (λ shared. shared ≡ id.now) }
{
    match id {
        Some(id) => Ok(Some(id.share()?)),
        None => Ok(None),
    }
}

impl<S: Keep> Book<S> {
    /// What is to be kept of the event of a report, if that is accepted. It is to be added before any other.
    ///
    /// The report is refused with the first code that applies of those that `refusals` of `trace_types` has for it. Else it
    /// is refused with `NoMemory` (507) if it runs out of memory.
    pub fn draft<R>(&self, rt: &R, stack: &mut Stack, request: &Request) -> Result<Draft<S>, Code>
    where
        S: Share<R>,
        requires book { IsKept self.now }
        requires seeded { 0 < self.now.kept_ids }
        requires report { is_report request.now ≡ true }
        ensures { Drafts result self.now request.now }
    {
        // A `?` would move the report once more.
        let report = match self.report(request) {
            Ok(report) => report,
            Err(code) => return Err(code),
        };
        self.make_stack_room(stack, &report)?;
        let made = self.made(rt, &report)?;
        Ok(self.event(&report, made))
    }

    /// Drafts a report, and makes room for its event.
    pub(crate) fn prepare<R>(
        &mut self,
        rt: &R,
        stack: &mut Stack,
        request: &Request,
    ) -> Result<Draft<S>, Code>
    where
        S: Share<R>,
        requires book { IsKept self.old }
        requires report { is_report request.now ≡ true }
        ensures { Prepares result self.old request.now self.new }
    {
        // A `?` would move the report once more.
        let report = match self.report(request) {
            Ok(report) => report,
            Err(code) => return Err(code),
        };
        self.ready(rt, stack, &report)?;
        let made = self.made(rt, &report)?;
        Ok(self.event(&report, made))
    }

    /// Takes a report: adds its event and gives its number, or refuses it.
    ///
    /// Each kind is taken by a function of its own, which has on the stack what that kind needs. In each of them stand the
    /// calls of [`Book::prepare`] and [`Book::commit`], where the kind is known: one function that all kinds share would be too
    /// large to be inlined.
    pub(crate) fn take<R>(
        &mut self,
        rt: &R,
        stack: &mut Stack,
        request: &Request,
    ) -> Result<u64, Code>
    where
        S: Share<R>,
        requires book { IsKept self.old }
        requires report { is_report request.now ≡ true }
        ensures { Takes result self.old request.now self.new }
    {
        // A `?` would move the report once more.
        let report = match self.report(request) {
            Ok(report) => report,
            Err(code) => return Err(code),
        };
        match &report.deed {
            Deed::Local => self.take_local(rt, stack, &report),
            Deed::Spawn(child) => self.take_spawn(rt, stack, &report, child),
            Deed::Send(message) => self.take_send(rt, stack, &report, message),
            Deed::Recv(message, place, sent) => {
                self.take_recv(rt, stack, &report, message, *place, *sent)
            }
            Deed::End => self.take_end(rt, stack, &report),
            Deed::Join(child, place, found) => {
                self.take_join(rt, stack, &report, child, *place, found)
            }
        }
    }

    /// Takes the report as one of an event of its task alone.
    #[inline(never)]
    fn take_local<R>(&mut self, rt: &R, stack: &mut Stack, report: &Report) -> Result<u64, Code>
    where
        S: Share<R>,
        requires book { IsKept self.old }
        requires report { IsReport self.old (record report.now { deed = Deed.Local }) }
        ensures { TakesReport result self.old (record report.now { deed = Deed.Local }) self.new }
    {
        let deed = Deed::Local;
        let report = &Report { deed, ..*report };
        self.ready(rt, stack, report)?;
        let made = self.made(rt, report)?;
        Ok(self.commit(self.event(report, made)))
    }

    /// Takes the report as one that starts this task.
    #[inline(never)]
    fn take_spawn<R>(
        &mut self,
        rt: &R,
        stack: &mut Stack,
        report: &Report,
        child: &Name,
    ) -> Result<u64, Code>
    where
        S: Share<R>,
        requires book { IsKept self.old }
        requires report { IsReport self.old (record report.now { deed = Deed.Spawn child.now }) }
        ensures { TakesReport result self.old (record report.now { deed = Deed.Spawn child.now }) self.new }
    {
        let deed = Deed::Spawn(*child);
        let report = &Report { deed, ..*report };
        self.ready(rt, stack, report)?;
        let made = self.made(rt, report)?;
        Ok(self.commit(self.event(report, made)))
    }

    /// Takes the report as one that sends this message.
    #[inline(never)]
    fn take_send<R>(
        &mut self,
        rt: &R,
        stack: &mut Stack,
        report: &Report,
        message: &Name,
    ) -> Result<u64, Code>
    where
        S: Share<R>,
        requires book { IsKept self.old }
        requires report { IsReport self.old (record report.now { deed = Deed.Send message.now }) }
        ensures { TakesReport result self.old (record report.now { deed = Deed.Send message.now }) self.new }
    {
        let deed = Deed::Send(*message);
        let report = &Report { deed, ..*report };
        self.ready(rt, stack, report)?;
        let made = self.made(rt, report)?;
        Ok(self.commit(self.event(report, made)))
    }

    /// Takes the report as one that receives this message.
    #[inline(never)]
    fn take_recv<R>(
        &mut self,
        rt: &R,
        stack: &mut Stack,
        report: &Report,
        message: &Name,
        place: usize,
        sent: u64,
    ) -> Result<u64, Code>
    where
        S: Share<R>,
        requires book { IsKept self.old }
        requires report { IsReport self.old (record report.now { deed = Deed.Recv message.now place sent }) }
        ensures { TakesReport result self.old (record report.now { deed = Deed.Recv message.now place sent }) self.new }
    {
        let deed = Deed::Recv(*message, place, sent);
        let report = &Report { deed, ..*report };
        self.ready(rt, stack, report)?;
        let made = self.made(rt, report)?;
        Ok(self.commit(self.event(report, made)))
    }

    /// Takes the report as one of the end of its task.
    #[inline(never)]
    fn take_end<R>(&mut self, rt: &R, stack: &mut Stack, report: &Report) -> Result<u64, Code>
    where
        S: Share<R>,
        requires book { IsKept self.old }
        requires report { IsReport self.old (record report.now { deed = Deed.End }) }
        ensures { TakesReport result self.old (record report.now { deed = Deed.End }) self.new }
    {
        let deed = Deed::End;
        let report = &Report { deed, ..*report };
        self.ready(rt, stack, report)?;
        let made = self.made(rt, report)?;
        Ok(self.commit(self.event(report, made)))
    }

    /// Takes the report as one that joins this task.
    #[inline(never)]
    fn take_join<R>(
        &mut self,
        rt: &R,
        stack: &mut Stack,
        report: &Report,
        child: &Name,
        place: usize,
        found: &Task,
    ) -> Result<u64, Code>
    where
        S: Share<R>,
        requires book { IsKept self.old }
        requires report { IsReport self.old (record report.now { deed = Deed.Join child.now place found.now }) }
        ensures { TakesReport result self.old (record report.now { deed = Deed.Join child.now place found.now }) self.new }
    {
        let deed = Deed::Join(*child, place, *found);
        let report = &Report { deed, ..*report };
        self.ready(rt, stack, report)?;
        let made = self.made(rt, report)?;
        Ok(self.commit(self.event(report, made)))
    }

    /// Makes room for the report's event, and has the ids of its tasks at hand. Returns `Memory` if it runs out of memory.
    #[inline(always)]
    fn ready<R>(&mut self, rt: &R, stack: &mut Stack, report: &Report) -> Result<(), Memory>
    where
        S: Share<R>,
        ensures same { self.new ≡ record self.old { kept_ids = self.new.kept_ids; room = self.new.room } }
        ensures seeded { self.old.kept_ids ≤ self.new.kept_ids }
        ensures room { OnOk result (HasRoom self.new) }
    {
        self.make_room(rt)?;
        self.unpack_ids(report);
        self.make_stack_room(stack, report)
    }

    /// What is made of the report's event. Returns `Memory` if it runs out of memory.
    #[inline(always)]
    fn made<R>(&self, rt: &R, report: &Report) -> Result<Made<S>, Memory>
    where
        S: Share<R>,
        requires book { IsKept self.now }
        requires seeded { 0 < self.now.kept_ids }
        requires report { IsReport self.now report.now }
        ensures { IfOk result (IsMadeOf self.now report.now) }
    {
        let held = self.id(report.acting.id)?;
        let own = held.as_tree();
        let ids = self.ids_made(report, own)?;
        let id = ids.acting(own);
        let (tree, point) = self.tree_after(report, id)?;
        let tree = self.share.keep_tree(rt, tree)?;
        let (first, second) = ids.keep(rt, &self.share)?;
        Ok(Made {
            tree,
            point,
            first,
            second,
        })
    }

    /// What is to be kept of the report's event, of which this was made.
    #[inline(always)]
    fn event(&self, report: &Report, made: Made<S>) -> Draft<S>
        requires book { IsKept self.now }
        requires seeded { 0 < self.now.kept_ids }
        requires report { IsReport self.now report.now }
        requires made { IsMadeOf self.now report.now made }
        ensures event { result ≡ event_of self.now report.now result.point }
        ensures point { MayRaise self.now report.now result.point }
    {
        let row = self.row_after(report);
        let event = self.event_count() + 1;
        let after = report.left(event, self.id_count());
        Draft {
            row,
            made,
            acting: after.acting,
            index: report.index,
            named: after.named,
            place: after.place,
        }
    }

    /// The row of the report, which follows the last event of its task and the second event.
    #[inline(always)]
    fn row_after(&self, report: &Report) -> Row
        requires book { IsKept self.now }
        requires report { IsReport self.now report.now }
        ensures { result ≡ row_of_report self.now report.now }
    {
        Row {
            task: report.task,
            kind: report.deed.kind(),
            name: report.deed.name(),
            preds: increasing(self.alloc, report.acting.last, report.deed.second()),
        }
    }

    /// What the report's event knows, which is made with this id, and a point that the event raised.
    #[inline(always)]
    fn tree_after(
        &self,
        report: &Report,
        id: &IdTree,
    ) -> Result<(EvTree, Option<RaisedPoint>), Memory>
        requires book { IsKept self.now }
        requires report { IsReport self.now report.now }
        requires id { id.now ≡ acting_id tree_clock (history_in self.now) (row_of_report self.now report.now) }
        ensures tree { IfOk result (λ found. found.0 ≡ tree_of_report self.now report.now) }
        ensures point { IfOk result (λ found. MayRaise self.now report.now found.1) }
    {
        let start = EvTree::leaf(0);
        let own = self.known(report.acting.last, &start);
        if report.deed.takes_in() {
            let known = own.join(self.alloc, self.known(report.deed.second(), &start))?;
            EvTree::event_with_point(self.alloc, id, &known)
        } else {
            EvTree::event_with_point(self.alloc, id, own)
        }
    }

    /// What the event knows, or `start` if the number is 0.
    #[inline(always)]
    fn known<'a>(&'a self, event: u64, start: &'a EvTree) -> &'a EvTree
        requires book { IsKept self.now }
        requires event { event ≤ length self.now.rows }
        requires start { start.now ≡ Leaf 0 }
        ensures { result.now ≡ tree_of tree_clock (history_in self.now) event }
    {
        if event == 0 {
            start
        } else {
            self.tree_at(event).tree_value()
        }
    }

    /// Keeps the id of `root`, unless that was done. It makes room for one event, its ids, its tasks, its message and its
    /// receipt.
    #[inline(always)]
    fn make_room<R>(&mut self, rt: &R) -> Result<(), Memory>
    where
        S: Share<R>,
        ensures same { self.new ≡ record self.old { kept_ids = self.new.kept_ids; room = self.new.room } }
        ensures seeded { self.old.kept_ids ≤ self.new.kept_ids }
        ensures room { OnOk result (HasRoom self.new) }
    {
        if self.has_room() {
            return Ok(());
        }
        self.make_more_room(rt)
    }

    /// Makes room as [`Book::make_room`] does, where there may be none.
    #[inline(never)]
    fn make_more_room<R>(&mut self, rt: &R) -> Result<(), Memory>
    where
        S: Share<R>,
        ensures same { self.new ≡ record self.old { kept_ids = self.new.kept_ids; room = self.new.room } }
        ensures seeded { self.old.kept_ids ≤ self.new.kept_ids }
        ensures room { OnOk result (HasRoom self.new) }
    {
        self.seed(rt)?;
        self.make_room_for(Room {
            events: 1,
            receipts: 1,
            ids: 2,
            tasks: 2,
            messages: 1,
        })
    }

    /// Makes room on the stack for walks over the trees, if the report divides a deep id. No tree has more levels than some
    /// id.
    #[inline(always)]
    fn make_stack_room(&self, stack: &mut Stack, report: &Report) -> Result<(), Memory> {
        if matches!(report.deed, Deed::Spawn(_))
            && self.tasks.len() >= Stack::LEVELS
            && let Some(id) = self.ids.get(report.acting.id)
        {
            let id = id.tree(self.alloc)?;
            // There are as many inner nodes as levels at least.
            stack.make_room(self.alloc, id.as_tree().inner() as usize)?;
        }
        Ok(())
    }
}

/// The events among two numbers, increasing and each once. 0 is no event.
fn increasing(alloc: Global, first: u64, second: u64) -> Preds
    ensures { result ≡ increasing first second }
{
    match (first, second) {
        (0, 0) => Preds::of(alloc, &[]),
        (0, event) | (event, 0) => Preds::of(alloc, &[event]),
        _ if first == second => Preds::of(alloc, &[first]),
        _ if first < second => Preds::of(alloc, &[first, second]),
        _ => Preds::of(alloc, &[second, first]),
    }
}
