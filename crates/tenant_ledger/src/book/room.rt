//! For how much more there is room.
ghost use Rattle.std.specs.Prelude.{◌≡◌, ◌+◌, vec_capacity, vec_len};
ghost use Rattle.indexmap.specs.IndexMap.{spare};

use super::Task;
use indexmap::IndexMap;
use message_book::MessageBook;
use trace_types::Name;

/// For how many more a book has room.
#[derive(Clone, Copy)]
pub(crate) struct Room {
    /// At least so many, by all lists of events.
    pub(crate) events: usize,
    pub(crate) receipts: usize,
    pub(crate) ids: usize,
    pub(crate) tasks: usize,
    pub(crate) messages: usize,
}

impl Room {
    /// Room for so many events, and for what these tables have room for.
    pub(super) fn of<T>(
        events: usize,
        ids: &Vec<T>,
        tasks: &IndexMap<Name, Task>,
        messages: &MessageBook<u32>,
    ) -> Room
        ensures events { result.events ≡ events }
        ensures receipts { result.receipts ≡ messages.now.room.receipts }
        ensures ids { vec_len ids.now + result.ids ≡ vec_capacity ids.now }
        ensures tasks { result.tasks ≡ spare tasks.now }
        ensures messages { result.messages ≡ messages.now.room.messages }
    {
        Room {
            events,
            receipts: messages.receipt_room(),
            ids: ids.capacity() - ids.len(),
            tasks: tasks.capacity() - tasks.len(),
            messages: messages.message_room(),
        }
    }
}
