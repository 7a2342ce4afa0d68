//! All that is kept of one tenant.
ghost use Rattle.std.specs.Prelude.{◌≡◌, ◌-◌, ◌<◌, ◌≤◌, ◌==◌, if◌then◌else◌, true, IsTrue, IfOk, IfErr, IsOk, OnOk, MatchBool, Some, None, length, slice_get};
ghost use Rattle.trace_types.specs.tenant.Limits.{are_limits};
ghost use Rattle.trace_types.specs.tenant.Rows.{is_event};
ghost use Rattle.tenant_ledger.specs.IdValues.{id_of};
ghost use Rattle.tenant_ledger.specs.Contents.{history_in, task_in};
ghost use Rattle.tenant_ledger.specs.Told.{id_after};
ghost use Rattle.tenant_ledger.specs.Kept.{IsKept};
ghost use Rattle.tenant_ledger.specs.Room.{HasAllRoom, HasRoom, HasRoomFor, roomless};
ghost use Rattle.tenant_ledger.specs.NewBook.{new_book};

mod commit;
mod draft;
mod ids;
mod kept;
mod packing;
mod report;
mod room;
mod task;

use crate::share::{IdValue, Keep, KeptId, Share};
pub use draft::Draft;
use event_tree::RaisedPoint;
use id_tree::IdTree;
use ids::Ids;
use indexmap::IndexMap;
use message_book::MessageBook;
use report::Report;
use room::Room;
use std::alloc::Global;
use std::marker::Model;
pub(crate) use task::Task;
use trace_types::{Code, Limits, Memory, Name, Row, TaskState};

/// So many events have numbers of 32 bits. A tenant has far fewer.
const MOST_EVENTS: usize = 4294967295;

/// All that is kept of one tenant: its rows, what is kept of each event, and its tasks and messages by their names.
///
/// An event is added in two steps. A draft reads the book, and may run out of memory. Adding the draft takes none, if the book has
/// room ([`Book::has_room`]).
///
/// Contracts see the trees and the ids as what they mean.
#[derive(Drop)]
pub struct Book<S: Keep> {
    /// What keeps the trees and the ids.
    share: S,
    limits: Limits,
    rows: Vec<Row>,
    alloc: Global,
    /// What each event knows, in the order of the events.
    trees: Vec<S::Kept>,
    /// A point that each event raised, in the order of the events. Some events have none.
    points: Vec<Option<RaisedPoint>>,
    /// The event that started each event's task, or 0, in the order of the events.
    starts: Vec<u64>,
    /// The place of the id of each event's task after it, in the order of the events.
    places: Vec<usize>,
    /// For how many more events, receipts, ids, tasks and messages there is room.
    room: Room,
    /// Each id that some task has or had, that of `root` first.
    ids: Vec<S::Id>,
    /// How many nodes of these ids could be given back, or fewer. It is there for less memory alone.
    loose: u64,
    tasks: IndexMap<Name, Task>,
    /// Each message, and its receipts. A task is named by the event that started it, or by 0.
    messages: MessageBook<u32>,
}

impl<S: Keep> Model for Book<S> {
    ghost use Rattle.std.specs.Prelude.{◌≡◌, ◌+◌, ◌-◌, ◌≤◌, length, map, vec_len, vec_capacity};
    ghost use Rattle.std.specs.Coded.{codes};
    ghost use Rattle.indexmap.specs.IndexMap.{spare};
    ghost use Rattle.event_tree.specs.EventTreeCode.{event_tree_code};
    ghost use Rattle.id_tree.specs.IdCode.{id_code};
    ghost use Rattle.tenant_ledger.specs.Contents.{Contents, with_seed};

    ghost Value = { Contents };

    ghost coded = { Prim.hlevel (codes, event_tree_code, id_code) };

    ghost view = { λ b. record {
      home = S.home b.share;
      limits = b.limits;
      rows = b.rows.items;
      trees = map S.Kept.tree b.trees.items;
      homes = map S.home_of b.trees.items;
      points = b.points.items;
      starts = b.starts.items;
      places = b.places.items;
      ids = with_seed (map S.Id.id b.ids.items);
      kept_ids = length b.ids.items;
      tasks = b.tasks.entries;
      messages = b.messages.book.messages;
      room = b.room;
    } };

    ghost invariant = { λ b. (vec_len b.rows + b.room.events ≤ vec_capacity b.rows) × (vec_len b.trees + b.room.events ≤ vec_capacity b.trees)
        × (vec_len b.points + b.room.events ≤ vec_capacity b.points) × (vec_len b.starts + b.room.events ≤ vec_capacity b.starts)
        × (vec_len b.places + b.room.events ≤ vec_capacity b.places) × (b.room.receipts ≡ b.messages.room.receipts)
        × (vec_len b.ids + b.room.ids ≡ vec_capacity b.ids) × (b.room.tasks ≡ spare b.tasks)
        × (b.room.messages ≡ b.messages.room.messages) × (b.messages.book.limit ≡ b.limits.messages)
        × (vec_len b.rows + b.room.events ≤ 4294967295) };
}

impl<S: Keep> Book<S> {
    /// The book of a tenant that has reported nothing: it has the task `root`. Returns `Memory`, and drops the share, if
    /// it runs out of memory.
    pub(crate) fn new(alloc: Global, limits: Limits, share: S) -> Result<Book<S>, Memory>
        ensures { IfOk result (λ book. roomless book ≡ new_book (S.home share) limits 0) }
    {
        let mut tasks = IndexMap::new(alloc);
        let root = Task {
            state: TaskState::Live,
            last: 0,
            start: 0,
            id: 0,
        };
        tasks.insert(Name::root(), root)?;
        let ids = Vec::new(alloc);
        let messages = MessageBook::new(alloc, limits.messages())?;
        let room = Room::of(0, &ids, &tasks, &messages);
        Ok(Book {
            share,
            limits,
            rows: Vec::new(alloc),
            alloc,
            trees: Vec::new(alloc),
            points: Vec::new(alloc),
            starts: Vec::new(alloc),
            places: Vec::new(alloc),
            room,
            ids,
            loose: 0,
            tasks,
            messages,
        })
    }

    /// The book of a tenant that has reported nothing, with the id of `root`, and with room for all that the limits allow.
    /// Returns `Memory`, and drops the share, if it runs out of memory.
    pub fn with_room<R>(rt: &R, alloc: Global, limits: Limits, share: S) -> Result<Book<S>, Memory>
    where
        S: Share<R>,
        ensures book { IfOk result (λ book. roomless book ≡ new_book (S.home share) limits 1) }
        ensures room { IfOk result (λ book. HasAllRoom limits book.room) }
    {
        let mut book = Book::new(alloc, limits, share)?;
        book.seed(rt)?;
        let (events, tasks) = (limits.events() as usize, limits.tasks() as usize);
        book.make_room_for(Room {
            events,
            receipts: events,
            // Each task is split from another and joined at most once.
            ids: 3 * tasks,
            // Room for two tasks and for a message is asked for before each event, also where all are there.
            tasks: tasks + 1,
            messages: limits.messages() as usize + 1,
        })?;
        Ok(book)
    }

    /// Makes room for so many more, and counts for how many there is room. Returns `Memory` if it runs out of memory.
    fn make_room_for(&mut self, more: Room) -> Result<(), Memory>
        ensures same { self.new ≡ record self.old { room = self.new.room } }
        ensures room { OnOk result (HasRoomFor more self.new.room) }
        ensures more { HasRoomFor self.old.room self.new.room }
        ensures there { HasRoomFor more self.old.room → IsOk result }
    {
        self.rows.reserve(more.events)?;
        self.trees.reserve(more.events)?;
        self.points.reserve(more.events)?;
        self.starts.reserve(more.events)?;
        self.places.reserve(more.events)?;
        let ids = self.ids.reserve(more.ids);
        let tasks = self.tasks.reserve(more.tasks);
        let messages = self.messages.reserve(more.messages, more.receipts);
        let events = (self.rows.capacity() - self.rows.len())
            .min(self.trees.capacity() - self.trees.len())
            .min(self.points.capacity() - self.points.len())
            .min(self.starts.capacity() - self.starts.len())
            .min(self.places.capacity() - self.places.len())
            .min(MOST_EVENTS.saturating_sub(self.rows.len()));
        self.room = Room::of(events, &self.ids, &self.tasks, &self.messages);
        if events < more.events {
            return Err(Memory);
        }
        ids.and(tasks)?;
        messages
    }

    /// Keeps the id of `root`, unless that was done.
    fn seed<R>(&mut self, rt: &R) -> Result<(), Memory>
    where
        S: Share<R>,
        ensures same { self.new ≡ record self.old { kept_ids = self.new.kept_ids; room = self.new.room } }
        ensures kept { OnOk result (self.new.kept_ids ≡ (if self.old.kept_ids == 0 then 1 else self.old.kept_ids)) }
        ensures more { self.old.kept_ids ≤ self.new.kept_ids }
    {
        if self.ids.is_empty() {
            let id = self.share.keep_id(rt, IdTree::one())?;
            let kept = self.ids.push(id);
            self.room.ids = self.ids.capacity() - self.ids.len();
            kept?;
        }
        Ok(())
    }

    /// Whether there is an id, and the room that the book counts is enough for an event. This is room for its row, for a receipt,
    /// for two ids, for two tasks and for a message.
    #[inline(always)]
    pub fn has_room(&self) -> bool
        ensures { MatchBool result (HasRoom self.now) (HasRoom self.now → ⊥) }
    {
        self.room.events > 0
            && self.room.receipts > 0
            && self.room.ids >= 2
            && self.room.tasks >= 2
            && self.room.messages > 0
            && !self.ids.is_empty()
    }

    /// The limits of the tenant.
    pub fn limits(&self) -> Limits
        ensures limits { result ≡ self.now.limits }
        ensures ranges { IsTrue (are_limits self.now.limits.events self.now.limits.tasks self.now.limits.messages) }
    {
        // For the proof: it says that these are limits.
        let _ = self.limits.events();
        self.limits
    }

    fn event_count(&self) -> u64
        ensures { result ≡ length self.now.rows }
    {
        self.rows.len() as u64
    }

    /// What keeps the trees and the ids.
    pub fn share(&self) -> &S
        ensures { S.home result.now ≡ self.now.home }
    {
        &self.share
    }

    /// The id that the event's task has after it, as it is kept.
    pub fn event_id(&self, event: u64) -> &S::Id
        requires kept { IsKept self.now }
        requires event { is_event (history_in self.now) event ≡ true }
        ensures { S.Id.id result.now ≡ id_after (history_in self.now) event }
    {
        self.id_at(self.place(event))
    }

    /// What is kept of the event's tree.
    fn tree_at(&self, event: u64) -> &S::Kept
        requires { (0 < event) × (event ≤ length self.now.trees) }
        ensures { slice_get self.now.trees (event - 1) ≡ Some (S.Kept.tree result.now) }
    {
        &self.trees[event as usize - 1]
    }

    /// The place of the id of the event's task after it.
    fn place(&self, event: u64) -> usize
        requires { (0 < event) × (event ≤ length self.now.places) }
        ensures { slice_get self.now.places (event - 1) ≡ Some result }
    {
        self.places[event as usize - 1]
    }

    /// What is kept of the id at the place.
    fn id_at(&self, place: usize) -> &S::Id
        requires place { place < length self.now.ids }
        requires seeded { 0 < self.now.kept_ids }
        ensures { slice_get self.now.ids place ≡ Some (S.Id.id result.now) }
    {
        &self.ids[place]
    }

    /// The id that is kept at the place. Returns `Memory` if it is not kept as a tree, and memory runs out.
    #[inline(always)]
    fn id(&self, place: usize) -> Result<IdValue<'_>, Memory>
        requires place { place < length self.now.ids }
        requires seeded { 0 < self.now.kept_ids }
        ensures { IfOk result (λ id. slice_get self.now.ids place ≡ Some (id_of id)) }
    {
        self.id_at(place).tree(self.alloc)
    }

    /// How many ids are kept.
    fn id_count(&self) -> usize
        requires { 0 < self.now.kept_ids }
        ensures count { result ≡ length self.now.ids }
        ensures small { result < 18446744073709551615 }
    {
        self.ids.len()
    }

    /// The task of this name, and its place in the table of tasks, or `NoTask` if there is none.
    fn known_task(&self, name: &Name) -> Result<(&Task, usize), Code>
        ensures ok { IfOk result (λ found. task_in self.now name.now ≡ Some found.0.now) }
        ensures err { IfErr result (λ code. (code ≡ Code.NoTask) × (task_in self.now name.now ≡ None)) }
    {
        match self.tasks.get_full(name) {
            Some((place, _, task)) => Ok((task, place)),
            None => Err(Code::NoTask),
        }
    }
}
