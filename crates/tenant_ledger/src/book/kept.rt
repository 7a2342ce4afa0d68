//! What is kept of a tenant, as queries are answered from it.
ghost use Rattle.std.specs.Prelude.{◌≡◌, ◌<◌, All, IfOk, IfSome, OnErr, is_some, length, map, suc, true};
ghost use Rattle.trace_types.specs.clock.Clock.{tree_clock};
ghost use Rattle.trace_types.specs.clock.Stamps.{tree_of};
ghost use Rattle.trace_types.specs.tenant.Rows.{is_event, is_sent, message_count, task_count};
ghost use Rattle.tenant_ledger.specs.Answers.{message_due, task_due};
ghost use Rattle.tenant_ledger.specs.Contents.{history_in};
ghost use Rattle.tenant_ledger.specs.Told.{id_after, of_each, start_of};
ghost use Rattle.tenant_ledger.specs.Points.{ArePoints};
ghost use Rattle.tenant_ledger.specs.Kept.{IsKept};

use super::Book;
use crate::share::{Keep, KeptId};
use event_tree::RaisedPoint;
use std::alloc::Global;
use trace_query::Meant;
use trace_types::{Memory, Name, Receipts, Row, TaskState};

impl<S: Keep> Book<S> {
    /// What lists and texts are taken from.
    pub fn alloc(&self) -> Global {
        self.alloc
    }

    /// The accepted rows, the oldest first.
    pub fn rows(&self) -> &[Row]
        ensures { result.now ≡ self.now.rows }
    {
        &self.rows
    }

    /// What each event knows, in the order of the events.
    pub fn trees(&self) -> &[S::Kept]
        requires { IsKept self.now }
        ensures trees { map S.Kept.tree result.now ≡ of_each (tree_of tree_clock) (history_in self.now) }
        ensures kept { All (λ kept. S.home_of kept ≡ self.now.home) result.now }
    {
        &self.trees
    }

    /// A point that each event raised, with the value there, in the order of the events. Some events have none.
    pub fn points(&self) -> &[Option<RaisedPoint>]
        requires { IsKept self.now }
        ensures { ArePoints (history_in self.now) result.now }
    {
        &self.points
    }

    /// The event that started each event's task, or 0, in the order of the events.
    pub fn starts(&self) -> &[u64]
        requires { IsKept self.now }
        ensures { result.now ≡ of_each start_of (history_in self.now) }
    {
        &self.starts
    }

    /// How far the task has come, and its last event, else the event that started it, else 0. It is `None` if there is no
    /// such task.
    pub fn task(&self, name: &Name) -> Option<(TaskState, u64)>
        requires { IsKept self.now }
        ensures { result ≡ task_due (history_in self.now) name.now }
    {
        match self.known_task(name) {
            Ok((task, _)) => Some((task.state, task.last)),
            Err(_) => None,
        }
    }

    /// The event that sent the message, and its receipts. It is `None` if there is no such message. Returns `Memory` if
    /// there is one, and it runs out of memory.
    pub fn message(&self, name: &Name) -> Result<Option<(u64, Receipts)>, Memory>
        requires { IsKept self.now }
        ensures found { IfOk result (λ found. found ≡ message_due (history_in self.now) name.now) }
        ensures sent { OnErr result (is_sent (history_in self.now) name.now ≡ true) }
    {
        match self.messages.find(name) {
            Some(message) => Ok(Some((message.sent(), message.receipts(self.alloc)?))),
            None => Ok(None),
        }
    }

    /// How many tasks there ever were, root included.
    pub fn task_count(&self) -> u64
        requires { IsKept self.now }
        ensures { result ≡ task_count (history_in self.now) }
    {
        self.tasks.len() as u64
    }

    /// How many messages there are.
    pub fn message_count(&self) -> u64
        requires { IsKept self.now }
        ensures { result ≡ message_count (history_in self.now) }
    {
        self.messages.message_count()
    }

    /// The place of the event in the lists, or `None` if there is no such event.
    pub(crate) fn place_of(&self, event: u64) -> Option<usize>
        requires { IsKept self.now }
        ensures there { is_some result ≡ is_event (history_in self.now) event }
        ensures place { IfSome result (λ place. (event ≡ suc place) × (place < length self.now.rows)) }
    {
        let place = event.checked_sub(1)?;
        if place < self.rows.len() as u64 {
            Some(place as usize)
        } else {
            None
        }
    }

    /// What is kept of the event's stamp: the id that its task has after it, and what the event knows. It is `None` if there
    /// is no such event. All that is told of a stamp is made of these.
    pub fn stamp_parts(&self, event: u64) -> Option<(&S::Id, &S::Kept)>
        requires { IsKept self.now }
        ensures there { is_some result ≡ is_event (history_in self.now) event }
        ensures id { IfSome result (λ parts. S.Id.id parts.0.now ≡ id_after (history_in self.now) event) }
        ensures tree { IfSome result (λ parts. S.Kept.tree parts.1.now ≡ tree_of tree_clock (history_in self.now) event) }
    {
        let place = self.place_of(event)?;
        Some((self.event_id(event), &self.trees()[place]))
    }
}
