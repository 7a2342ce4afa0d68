//! What a desk shows to its views.
ghost use Rattle.std.specs.Prelude.{◌≡◌, ◌<◌, [], true, Some, IfOk, IsTrue, MatchBool, drop};
ghost use Rattle.std.specs.Arc.{arc_value};
ghost use Rattle.left_right.specs.Sides.{view as known_at};
ghost use Rattle.tenant_ledger.specs.Ledger.{IsKept, roomless, tenant_of, with_event};
ghost use Rattle.trace_types.specs.tenant.Tenant.{Steps, is_report};
ghost use Rattle.tenant_desk.specs.Events.{no_events};
ghost use Rattle.tenant_desk.specs.Publications.{IsFor, IsShown, left_by, with_next};
ghost use Rattle.tenant_desk.specs.Rules.{IsPublished, sight_of};

use crate::published::{Operation, Published, SharedBook, SharedDraft};
use crate::publishing_rule::{Knows, Learning, Noting, Publishing, Seeing};
use crate::row_log::{Front, Head, new_log};
use core::mem::replace_with;
use left_right::reader::{Reader, Reading};
use left_right::writer::Writer;
use std::alloc::Global;
use std::marker::Model;
use std::sync::{Arc, Wait};
use tenant_ledger::{Book, Keep, Shared, Stack};
use trace_types::{Code, Limits, Memory, Name, Reply, Request};

type DeskWriter = Writer<Published, Operation, Knows, Publishing>;

/// Reads what a desk shows.
pub(crate) type DeskReader = Reader<Published, Knows, Publishing>;

/// A reader with what it reads.
pub(crate) type DeskReading = Reading<Published, Knows, Publishing>;

/// Shows the events of one tenant to its views. Contracts see what is shown.
///
/// It cannot be dropped: end it by [`Publisher::close`].
pub(crate) struct Publisher {
    writer: DeskWriter,
    head: Head,
}

impl Model for Publisher {
    ghost use Rattle.std.specs.Prelude.{◌≡◌};
    ghost use Rattle.std.specs.Coded.{codes};
    ghost use Rattle.event_tree.specs.EventTreeCode.{event_tree_code};
    ghost use Rattle.id_tree.specs.IdCode.{id_code};
    ghost use Rattle.left_right.specs.Sides.{view as known_at};
    ghost use Rattle.tenant_desk.specs.Histories.{head_of};
    ghost use Rattle.tenant_desk.specs.Publications.{IsShown};
    ghost use Rattle.tenant_desk.specs.Events.{Published};

    ghost Value = { Published };

    ghost coded = { Prim.hlevel (codes, event_tree_code, id_code) };

    ghost view = { λ p. p.writer.desk.shown.value };

    ghost invariant = { λ p. (p.head ≡ head_of p.writer.desk.shown.value.front.log) × IsShown p.writer.desk.shown.value (known_at p.writer.desk.place) };
}

/// How many views a desk has. Each has a reader.
pub(crate) const VIEWS: usize = 8;

/// Shows what the operation makes, and says whether it did. It does not if it runs out of memory.
#[inline(always)]
fn show<R: Wait>(rt: &R, writer: &mut DeskWriter, operation: Operation) -> bool
    requires waiting { drop writer.old.behind writer.old.log.items ≡ [] }
    requires operation { IsFor writer.old.desk.shown.value operation }
    ensures shown { MatchBool result (writer.new.desk.shown.value ≡ left_by writer.old.desk.shown.value operation) (writer.new.desk.shown.value ≡ writer.old.desk.shown.value) }
    ensures known { MatchBool result (known_at writer.new.desk.place ≡ Some (sight_of writer.new.desk.shown.value)) (known_at writer.new.desk.place ≡ known_at writer.old.desk.place) }
    ensures waiting { IsTrue result → drop writer.new.behind writer.new.log.items ≡ [] }
{
    let Ok(()) = writer.append(operation) else {
        return false;
    };
    replace_with(writer, rt, Writer::publish_as::<Seeing, R>).is_ok()
}

/// Shows again what is shown, and says whether it did. It does not if it runs out of memory.
#[inline(never)]
#[tactic(auto, using(crate::proofs::Publishing::is_for_none))]
fn show_again<R: Wait>(rt: &R, writer: &mut DeskWriter) -> bool
    requires sound { IsPublished writer.old.desk.shown.value }
    requires waiting { drop writer.old.behind writer.old.log.items ≡ [] }
    ensures same { writer.new.desk.shown.value ≡ writer.old.desk.shown.value }
    ensures shown { IsTrue result → IsShown writer.new.desk.shown.value (known_at writer.new.desk.place) }
    ensures waiting { IsTrue result → drop writer.new.behind writer.new.log.items ≡ [] }
{
    let operation = Operation {
        event: None,
        front: writer.published().front().again(),
    };
    show(rt, writer, operation)
}

/// No events, with room for as many as the limits allow.
fn no_events<R: Wait>(
    rt: &R,
    alloc: Global,
    limits: Limits,
    shared: &Arc<Shared>,
    front: &Front,
) -> Result<Published, Memory>
    ensures { IfOk result (λ published. published ≡ record { events = no_events (⟦<Shared as Keep>⟧.home (arc_value shared.now)) limits; front = front.now }) }
{
    let events = Book::with_room(rt, alloc, limits, Arc::try_clone(shared)?)?;
    Ok(Published::new(events, front.again()))
}

/// A writer that shows no events, in a log without rows.
fn new_writer<R: Wait>(
    rt: &R,
    alloc: Global,
    limits: Limits,
    shared: &Arc<Shared>,
    front: &Front,
) -> Result<DeskWriter, Memory>
    requires { front.now.rows ≡ [] }
    ensures shown { IfOk result (λ writer. writer.desk.shown.value ≡ record { events = no_events (⟦<Shared as Keep>⟧.home (arc_value shared.now)) limits; front = front.now }) }
    ensures sound { IfOk result (λ writer. IsPublished writer.desk.shown.value) }
    ensures waiting { IfOk result (λ writer. drop writer.behind writer.log.items ≡ []) }
{
    let first = no_events(rt, alloc, limits, shared, front)?;
    let second = no_events(rt, alloc, limits, shared, front)?;
    Ok(Writer::new(alloc, first, second, VIEWS)?)
}

impl Publisher {
    /// Shows no events of this tenant. Returns `Memory` if it runs out of memory. All memory that publishing takes later is
    /// taken here.
    pub(crate) fn new<R: Wait>(
        rt: &R,
        alloc: Global,
        tenant: &Name,
        limits: Limits,
        shared: &Arc<Shared>,
    ) -> Result<Publisher, Memory>
        ensures events { IfOk result (λ publisher. publisher.events ≡ no_events (⟦<Shared as Keep>⟧.home (arc_value shared.now)) limits) }
        ensures rows { IfOk result (λ publisher. publisher.front.rows ≡ []) }
        ensures tenant { IfOk result (λ publisher. publisher.front.log.tenant ≡ tenant.now) }
    {
        let (head, front) = new_log(tenant);
        let mut writer = new_writer(rt, alloc, limits, shared, &front)?;
        // The second operation stands in the log behind the first one, as that of a report behind the last report's.
        if !show_again(rt, &mut writer) || !show_again(rt, &mut writer) {
            writer.take(rt);
            return Err(Memory);
        }
        Ok(Publisher { writer, head })
    }

    /// How far the log is shown.
    pub(crate) fn front(&self) -> &Front
        ensures front { result.now ≡ self.now.front }
        ensures rows { result.now.rows ≡ self.now.events.rows }
    {
        self.writer.published().front()
    }

    /// The events that are shown.
    pub(crate) fn events(&self) -> &SharedBook
        ensures events { roomless result.now ≡ self.now.events }
        ensures kept { IsKept result.now }
        ensures seeded { 0 < result.now.kept_ids }
        ensures rows { self.now.front.rows ≡ self.now.events.rows }
    {
        self.writer.published().events()
    }

    /// A reader of what is shown, which knows it. Returns `Memory` if none is left, or no memory for it.
    pub(crate) fn reader(&mut self) -> Result<DeskReader, Memory>
        ensures same { self.new ≡ self.old }
        ensures knows { IfOk result (λ reader. known_at reader.place ≡ Some (sight_of self.old)) }
    {
        let mut reader = self.writer.factory().reader()?;
        let note = self.writer.tell::<Noting>();
        reader.learn::<Learning>(note);
        Ok(reader)
    }

    /// Takes a report, and shows its event too if it is accepted. It puts the reply in place of this one. If the event cannot
    /// be shown, or if memory runs out, it is refused with `NoMemory`.
    pub(crate) fn report<R: Wait>(
        &mut self,
        rt: &R,
        stack: &mut Stack,
        request: &Request,
        reply: &mut Reply,
    )
        requires { is_report request.now ≡ true }
        ensures steps { Steps (tenant_of self.old.events) request.now reply.new (tenant_of self.new.events) }
        ensures home { self.new.events.home ≡ self.old.events.home }
        ensures log { self.new.front.log ≡ self.old.front.log }
    {
        match self.events().draft(rt, stack, request) {
            Ok(draft) => {
                if self.publish(rt, draft) {
                    let count = self.events().rows().len() as u64;
                    *reply = Reply::Accepted(count);
                } else {
                    *reply = Reply::Refused(Code::NoMemory);
                }
            }
            Err(code) => *reply = Reply::Refused(code),
        }
    }

    /// Shows the next event too, and says whether it did. It takes no memory beyond what was taken when this was made.
    /// Nothing is shown any more behind an event that could not be.
    fn publish<R: Wait>(&mut self, rt: &R, event: SharedDraft) -> bool
        requires { IsKept (with_event event self.old.events) }
        ensures { MatchBool result (self.new ≡ with_next event self.old) (self.new ≡ self.old) }
    {
        if self.writer.has_pending_operations() {
            return false;
        }
        let Some(front) = self.front().grown(&self.head, event.row()) else {
            return false;
        };
        let operation = Operation {
            event: Some(event),
            front,
        };
        show(rt, &mut self.writer, operation)
    }

    /// Waits for the views that read, and gives out what was shown. From then on it shows nothing.
    pub(crate) fn close<R: Wait>(self, rt: &R) -> Box<Published>
        ensures { result.value ≡ self }
    {
        let Publisher { writer, head: _ } = self;
        writer.take(rt)
    }
}
