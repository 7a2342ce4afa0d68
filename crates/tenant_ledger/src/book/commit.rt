//! Drafts are committed.
ghost use Rattle.std.specs.Prelude.{◌≡◌, suc, ◌+◌, ◌<◌, ◌≤◌, ◌∷◌, IsTrue, Some, length, option_to_list, slice_get, vec_len, vec_capacity, ◌++◌};
ghost use Rattle.indexmap.specs.IndexMap.{insert_entry, spare};
ghost use Rattle.trace_types.specs.text.Name.{Text as Characters, is_same};
ghost use Rattle.trace_types.specs.clock.Clock.{tree_clock};
ghost use Rattle.trace_types.specs.clock.Stamps.{id_of};
ghost use Rattle.tenant_ledger.specs.Contents.{history_in};
ghost use Rattle.tenant_ledger.specs.Room.{HasRoom, UsesRoomOfOne};
ghost use Rattle.tenant_ledger.specs.Adding.{IsReady, entries_with, messages_after, with_event};

use super::draft::Made;
use super::{Book, Draft};
use crate::share::{Keep, KeptId};
use indexmap::IndexMap;
use message_book::MessageBook;
use trace_types::{Kind, Name, Row};

impl<S: Keep> Book<S> {
    /// The id that the draft's task has after its event: the first that the event makes, else the one from before.
    pub(crate) fn id_after<'a>(&'a self, draft: &'a Draft<S>) -> &'a S::Id
        requires { IsReady self.now draft.now }
        ensures { S.Id.id result.now ≡ id_of tree_clock (draft.now.row ∷ history_in self.now) draft.now.row.task }
    {
        match draft.first_id() {
            Some(id) => id,
            None => self.id_at(draft.acting.id),
        }
    }

    /// Adds the event of the draft, and gives its number. It takes no memory.
    ///
    /// The tables of names are looked at where the draft found its names, and searched where these do not stand there.
    #[inline(always)]
    pub fn commit(&mut self, draft: Draft<S>) -> u64
        requires { HasRoom self.old }
        ensures book { self.new ≡ record (with_event draft self.old) { room = self.new.room } }
        ensures room { UsesRoomOfOne self.old.room self.new.room }
        ensures event { result ≡ suc (length self.old.rows) }
    {
        let places = self.places_left(&draft);
        let event = self.add(draft);
        self.retire_at(places.0);
        self.retire_at(places.1);
        event
    }

    /// Adds the event of the draft, and gives its number.
    #[inline(always)]
    fn add(&mut self, draft: Draft<S>) -> u64
        requires { HasRoom self.old }
        ensures book { self.new ≡ record (with_event draft self.old) { room = self.new.room } }
        ensures room { UsesRoomOfOne self.old.room self.new.room }
        ensures event { result ≡ suc (length self.old.rows) }
    {
        let Draft {
            row,
            made,
            acting,
            index,
            named,
            place,
        } = draft;
        let Made {
            tree,
            point,
            first,
            second,
        } = made;
        let (room, name) = (&mut self.room, &row.name);
        let event = self.rows.len() as u64 + 1;
        self.loose = self
            .loose
            .saturating_add(loose_nodes(&first))
            .saturating_add(loose_nodes(&second));
        add_some(&mut self.ids, &mut room.ids, first);
        add_some(&mut self.ids, &mut room.ids, second);
        put_some(&mut self.tasks, &mut room.tasks, place, name, named);
        put(&mut self.tasks, &mut room.tasks, index, &row.task, acting);
        let (messages, receipts) = (&mut room.messages, &mut room.receipts);
        note(
            &mut self.messages,
            messages,
            receipts,
            &row,
            acting.start,
            place,
            event as u32,
        );
        room.events -= 1;
        self.rows.push_reserved(row);
        self.trees.push_reserved(tree);
        self.points.push_reserved(point);
        self.starts.push_reserved(acting.start as u64);
        self.places.push_reserved(acting.id);
        event
    }
}

/// How many inner nodes of the id may be given back, if there is one.
#[inline(always)]
fn loose_nodes<I: KeptId>(id: &Option<I>) -> u64 {
    match id {
        Some(id) => id.loose_nodes(),
        None => 0,
    }
}

/// Adds an item for which there is room, if one is given. What room is left is counted.
#[inline(always)]
fn add_some<T>(items: &mut Vec<T>, room: &mut usize, item: Option<T>)
    requires some { 0 < room.old }
    requires room { vec_len items.old + room.old ≡ vec_capacity items.old }
    ensures items { items.new.items ≡ items.old.items ++ option_to_list item }
    ensures room { vec_len items.new + room.new ≡ vec_capacity items.new }
    ensures used { room.old ≤ room.new + 1 }
{
    if let Some(item) = item {
        items.push_reserved(item);
        *room = items.capacity() - items.len();
    }
}

/// Notes the message that an event sends or receives, if it does. A message that is received is looked for at this place first. There
/// is room for it, and what is left for messages and receipts is counted.
#[inline(always)]
fn note(
    messages: &mut MessageBook<u32>,
    for_messages: &mut usize,
    for_receipts: &mut usize,
    row: &Row,
    start: u32,
    place: usize,
    event: u32,
)
    requires some { (0 < for_messages.old) × (0 < for_receipts.old) }
    requires room { (for_messages.old ≡ messages.old.room.messages) × (for_receipts.old ≡ messages.old.room.receipts) }
    ensures limit { messages.new.book.limit ≡ messages.old.book.limit }
    ensures messages { messages.new.book.messages ≡ messages_after row.now.kind row.now.name start event messages.old.book }
    ensures room { (for_messages.new ≡ messages.new.room.messages) × (for_receipts.new ≡ messages.new.room.receipts) }
    ensures used { (for_messages.old ≤ for_messages.new + 1) × (for_receipts.old ≤ for_receipts.new + 1) }
{
    match (row.kind, &row.name) {
        (Kind::Send, Some(name)) => {
            let _ = messages.send(*name, event);
            *for_messages = messages.message_room();
        }
        (Kind::Recv, Some(name)) => {
            let _ = messages.receive_at(place, name, start, event);
            *for_receipts = messages.receipt_room();
        }
        _ => {}
    }
}

/// Keeps a value under the name that a report has, if there is one. There is room for it, and what is left is counted.
#[inline(always)]
fn put_some<V: Copy>(
    map: &mut IndexMap<Name, V>,
    room: &mut usize,
    place: usize,
    name: &Option<Name>,
    value: Option<V>,
)
    requires some { 0 < room.old }
    requires room { room.old ≡ spare map.old }
    ensures entries { map.new.entries ≡ entries_with value name.now map.old.entries }
    ensures room { room.new ≡ spare map.new }
    ensures used { room.old ≤ room.new + 1 }
{
    if let (Some(value), Some(name)) = (value, name) {
        put(map, room, place, name, value);
    }
}

/// Keeps the value under the name, which is looked for at this place first. There is room for it, and what is left is
/// counted.
#[inline(always)]
fn put<V: Copy>(map: &mut IndexMap<Name, V>, room: &mut usize, place: usize, name: &Name, value: V)
    requires some { 0 < room.old }
    requires room { room.old ≡ spare map.old }
    ensures entries { map.new.entries ≡ insert_entry is_same map.old.entries name.now value }
    ensures room { room.new ≡ spare map.new }
    ensures used { room.old ≤ room.new + 1 }
{
    if stands_at(map, place, name) {
        set(map, place, value);
    } else {
        map.insert(*name, value).unwrap();
        *room = map.capacity() - map.len();
    }
}

/// Whether the name stands at the place.
#[inline(always)]
fn stands_at<V: Copy>(map: &IndexMap<Name, V>, place: usize, name: &Name) -> bool
    ensures { IsTrue result → (before : V) × (slice_get map.now.entries place ≡ Some (name.now, before)) }
{
    match map.get_index(place) {
        Some((there, _)) => there == name,
        None => false,
    }
}

/// Keeps the value at the place where its name stands.
#[inline(always)]
fn set<V: Copy>(map: &mut IndexMap<Name, V>, place: usize, value: V)
    ensures entries { (name : Characters) (before : V) → slice_get map.old.entries place ≡ Some (name, before)
        → map.new.entries ≡ insert_entry is_same map.old.entries name value }
    ensures room { spare map.new ≡ spare map.old }
{
    if let Some(kept) = map.get_index_mut(place) {
        *kept = value;
    }
}
