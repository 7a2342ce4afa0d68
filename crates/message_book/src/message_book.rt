//! The book, with its sends and receipts, and how the last of them are taken back.
ghost use Rattle.std.specs.Prelude.{◌≡◌, ◌+◌, ◌<◌, ◌≤◌, [], true, false, length, None, Some, IfOk, IfErr, IfNone, IfSome, OnErr, OnOk, IsOk, IsOkAnd, map, unwrap_or, slice_get};
ghost use Rattle.std.specs.List.{IsDistinct};
ghost use Rattle.std.specs.Option.{option_map};
ghost use Rattle.std.specs.Result.{result_err};
ghost use Rattle.indexmap.specs.IndexMap.{set_value_at, spare};
ghost use Rattle.message_book.specs.Book.{AreNamedOnce, LastIsUnreceived, entry_of, has_receipt, with_message, with_receipt, without_last, without_last_receipt, refusal_of_send, refusal_of_receive};
ghost use Rattle.message_book.specs.Receiving.{IsAt, Receives};
ghost use Rattle.message_book.specs.declared.message.Message.{Message as Kept};
ghost use Rattle.trace_types.specs.text.Name.{Text as Characters, is_same};

use crate::Entry;
use crate::message::{Later, Message, Received};
use crate::others::Others;
use indexmap::IndexMap;
use std::alloc::Global;
use std::hash::Hash;
use std::marker::Model;
use trace_types::{Code, Memory, Name};

/// The messages of one tenant, each found by its name. `T` is what names a task that receives one.
///
/// A contract sees the limit, and the messages in the order of their sends. Beside them it sees for how many more messages
/// and receipts there is room. A refused call changes nothing.
#[derive(Drop)]
pub struct MessageBook<T: Copy + Eq + Hash + Drop> {
    limit: u64,
    /// The messages, each with its first receipt.
    messages: IndexMap<Name, Message<T>>,
    others: Others<T>,
}

impl<T: Copy + Eq + Hash + Drop> Model for MessageBook<T> {
    ghost use Rattle.indexmap.specs.IndexMap.{spare};
    ghost use Rattle.message_book.specs.Book.{Roomy};
    ghost use Rattle.message_book.specs.Chains.{IsSound, book_of};

    ghost Value = { Roomy T };

    ghost view = { λ b. record {
      book = book_of b.limit b.others.later b.messages.entries;
      room = record { messages = spare b.messages; receipts = b.others.room };
    } };

    ghost invariant = { λ b. IsSound T.eq b.limit b.others b.messages.entries };
}

impl<T: Copy + Eq + Hash + Drop> MessageBook<T> {
    /// The book of a tenant that has sent nothing and may send at most `limit` messages. It takes no memory yet, and
    /// always succeeds.
    pub fn new(alloc: Global, limit: u64) -> Result<MessageBook<T>, Memory>
        ensures { IsOkAnd result (λ book. book.book ≡ record { limit = limit; messages = [] }) }
    {
        Ok(MessageBook {
            limit,
            messages: IndexMap::new(alloc),
            others: Others::new(alloc),
        })
    }

    /// How many messages there are: never more than the limit, and no two of one name.
    pub fn message_count(&self) -> u64
        ensures count { result ≡ length self.now.book.messages }
        ensures few { result ≤ self.now.book.limit }
        ensures once { AreNamedOnce self.now.book.messages }
    {
        self.messages.len() as u64
    }

    /// For how many more messages there is room.
    pub fn message_room(&self) -> usize
        ensures { result ≡ self.now.room.messages }
    {
        self.messages.capacity() - self.messages.len()
    }

    /// For how many more receipts there is room.
    pub fn receipt_room(&self) -> usize
        ensures { result ≡ self.now.room.receipts }
    {
        self.others.room()
    }

    /// Makes room for so many more messages and receipts. Returns `Memory` if it runs out of memory. There is then no less
    /// room than before.
    pub fn reserve(&mut self, messages: usize, receipts: usize) -> Result<(), Memory>
        ensures book { self.new.book ≡ self.old.book }
        ensures room { OnOk result ((messages ≤ self.new.room.messages) × (receipts ≤ self.new.room.receipts)) }
        ensures more { (self.old.room.messages ≤ self.new.room.messages) × (self.old.room.receipts ≤ self.new.room.receipts) }
        ensures there { messages ≤ self.old.room.messages → receipts ≤ self.old.room.receipts → IsOk result }
    {
        self.messages.reserve(messages)?;
        self.others.reserve(receipts)
    }

    /// What the book has of the message of this name. It takes no memory.
    pub fn find(&self, name: &Name) -> Option<Entry<'_, T>>
        ensures { result ≡ entry_of self.now.book.messages name.now }
    {
        match self.messages.get(name) {
            Some(message) => Some(Entry::of(message, self.others.as_slice())),
            None => None,
        }
    }

    /// The code with which [`MessageBook::send`] would refuse the message, running out of memory aside. It is
    /// `MessageExists` (406) if there is a message of this name, else `MessagesFull` (415) at the limit. It takes no
    /// memory.
    pub fn check_send(&self, name: &Name) -> Result<(), Code>
        ensures { result_err result ≡ refusal_of_send self.now.book name.now }
    {
        if self.find(name).is_some() {
            Err(Code::MessageExists)
        } else if self.message_count() >= self.limit {
            Err(Code::MessagesFull)
        } else {
            Ok(())
        }
    }

    /// Adds a message that this event sends.
    ///
    /// It is refused as [`MessageBook::check_send`] says, else with `NoMemory` (507) if it runs out of memory.
    pub fn send(&mut self, name: Name, event: u32) -> Result<(), Code>
        ensures allowed { OnOk result (refusal_of_send self.old.book name ≡ None) }
        ensures ok { OnOk result (self.new.book ≡ record self.old.book { messages = with_message name event self.old.book.messages }) }
        ensures code { IfErr result (λ code. code ≡ unwrap_or (refusal_of_send self.old.book name) Code.NoMemory) }
        ensures err { OnErr result (self.new.book ≡ self.old.book) }
        ensures room { 0 < self.old.room.messages → result_err result ≡ refusal_of_send self.old.book name }
        ensures kept { OnErr result (self.old.room.messages ≤ self.new.room.messages) }
        ensures used { (self.old.room.messages ≤ self.new.room.messages + 1) × (self.new.room.receipts ≡ self.old.room.receipts) }
    {
        self.check_send(&name)?;
        Ok(self.add(name, event)?)
    }

    /// Adds a message that can be sent, by this event.
    ///
    /// Returns `Memory`, and changes nothing, if it runs out of memory.
    pub fn add(&mut self, name: Name, event: u32) -> Result<(), Memory>
        requires { refusal_of_send self.old.book name ≡ None }
        ensures ok { OnOk result (self.new.book ≡ record self.old.book { messages = with_message name event self.old.book.messages }) }
        ensures err { OnErr result (self.new.book ≡ self.old.book) }
        ensures room { 0 < self.old.room.messages → IsOk result }
        ensures kept { OnErr result (self.old.room.messages ≤ self.new.room.messages) }
        ensures used { (self.old.room.messages ≤ self.new.room.messages + 1) × (self.new.room.receipts ≡ self.old.room.receipts) }
    {
        let message = Message {
            sent: event,
            received: None,
        };
        self.messages.insert(name, message)?;
        Ok(())
    }

    /// The event that sent the message of this name, if the task can receive it. Else it is `NoMessage` (405) if there is
    /// no such message, and `AlreadyReceived` (407) if the task received it before. It takes no memory.
    pub fn check_receive(&self, name: &Name, task: &T) -> Result<u64, Code>
        ensures code { result_err result ≡ refusal_of_receive T.eq self.now.book name.now task.now }
        ensures sent { IfOk result (λ event. option_map (λ entry. entry.sent) (entry_of self.now.book.messages name.now) ≡ Some event) }
    {
        let (event, _) = self.find_to_receive(name, task)?;
        Ok(event)
    }

    /// The event that sent the message of this name, and the message's place, if the task can receive it. It is refused as
    /// [`MessageBook::check_receive`] says. The first message that was sent has the place 0. It takes no memory.
    pub fn find_to_receive(&self, name: &Name, task: &T) -> Result<(u64, usize), Code>
        ensures code { result_err result ≡ refusal_of_receive T.eq self.now.book name.now task.now }
        ensures sent { IfOk result (λ found. option_map (λ entry. entry.sent) (entry_of self.now.book.messages name.now) ≡ Some found.0) }
        ensures place { IfOk result (λ found. option_map (λ message. message.0) (slice_get self.now.book.messages found.1) ≡ Some name.now) }
    {
        match self.messages.get_full(name) {
            None => Err(Code::NoMessage),
            Some((place, _, message)) => {
                if self.others.has_receiver(place, &message.received, *task) {
                    Err(Code::AlreadyReceived)
                } else {
                    Ok((u64::from(message.sent), place))
                }
            }
        }
    }

    /// Adds the receipt of a message by this task and event.
    ///
    /// It is refused as [`MessageBook::check_receive`] says, else with `NoMemory` (507) if it runs out of memory. The
    /// first receipt of a message takes no memory.
    pub fn receive(&mut self, name: &Name, task: T, event: u32) -> Result<(), Code>
        ensures allowed { OnOk result (refusal_of_receive T.eq self.old.book name.now task ≡ None) }
        ensures ok { OnOk result (self.new.book ≡ record self.old.book { messages = with_receipt name.now task event self.old.book.messages }) }
        ensures code { IfErr result (λ code. code ≡ unwrap_or (refusal_of_receive T.eq self.old.book name.now task) Code.NoMemory) }
        ensures err { OnErr result (self.new.book ≡ self.old.book) }
        ensures first { has_receipt (entry_of self.old.book.messages name.now) ≡ false → result_err result ≡ refusal_of_receive T.eq self.old.book name.now task }
        ensures room { 0 < self.old.room.receipts → result_err result ≡ refusal_of_receive T.eq self.old.book name.now task }
        ensures used { (self.old.room.receipts ≤ self.new.room.receipts + 1) × (self.new.room.messages ≡ self.old.room.messages) }
    {
        self.receive_at(usize::MAX, name, task, event)
    }

    /// The same, where the message is looked for at this place first. If there is room for a receipt, it takes no memory.
    pub fn receive_at(&mut self, place: usize, name: &Name, task: T, event: u32) -> Result<(), Code>
        ensures received { Receives T.eq name.now task event self.old.book self.new.book result }
        ensures room { 0 < self.old.room.receipts → result_err result ≡ refusal_of_receive T.eq self.old.book name.now task }
        ensures used { (self.old.room.receipts ≤ self.new.room.receipts + 1) × (self.new.room.messages ≡ self.old.room.messages) }
    {
        match self.place_of(place, name) {
            Some(place) => self.receive_in(place, task, event),
            None => Err(Code::NoMessage),
        }
    }

    /// The place of the message of this name, which is looked for at this place first.
    #[inline(always)]
    fn place_of(&self, place: usize, name: &Name) -> Option<usize>
        ensures some { IfSome result (λ place. IsAt self.now.book.messages name.now place) }
        ensures none { IfNone result (entry_of self.now.book.messages name.now ≡ None) }
    {
        match self.messages.get_index(place) {
            Some((there, _)) if there == name => Some(place),
            _ => match self.messages.get_full(name) {
                Some((place, _, _)) => Some(place),
                None => None,
            },
        }
    }

    /// Adds the receipt of the message at this place, of which nothing is said if there is none.
    #[inline(always)]
    fn receive_in(&mut self, place: usize, task: T, event: u32) -> Result<(), Code>
        ensures received { (name : Characters) → IsAt self.old.book.messages name place → Receives T.eq name task event self.old.book self.new.book result }
        ensures room { (name : Characters) → IsAt self.old.book.messages name place → 0 < self.old.room.receipts → result_err result ≡ refusal_of_receive T.eq self.old.book name task }
        ensures used { (self.old.room.receipts ≤ self.new.room.receipts + 1) × (self.new.room.messages ≡ self.old.room.messages) }
    {
        let Some((_, message)) = self.messages.get_index(place) else {
            return Err(Code::NoMessage);
        };
        match message.received {
            None => {
                let first = Received {
                    task,
                    event,
                    others: 0,
                    newest: 0,
                };
                set_received(&mut self.messages, place, Some(first));
                Ok(())
            }
            Some(first) => {
                if first.task == task {
                    return Err(Code::AlreadyReceived);
                }
                let one = Later {
                    task,
                    event,
                    before: first.newest,
                };
                let newest = self.others.add(place, one)?;
                let others = first.others + 1;
                let received = Received {
                    others,
                    newest,
                    ..first
                };
                set_received(&mut self.messages, place, Some(received));
                Ok(())
            }
        }
    }

    /// Takes the last send back, so the message is there no more. It takes no memory.
    pub fn undo_send(&mut self)
        requires { LastIsUnreceived self.old.book.messages }
        ensures book { self.new.book ≡ record self.old.book { messages = without_last self.old.book.messages } }
        ensures room { (self.old.room.messages ≤ self.new.room.messages) × (self.new.room.receipts ≡ self.old.room.receipts) }
    {
        self.messages.pop();
    }

    /// Takes the last receipt of a message back, so its task can receive the message again. It takes no memory.
    pub fn undo_receive(&mut self, name: &Name)
        requires { has_receipt (entry_of self.old.book.messages name.now) ≡ true }
        ensures book { self.new.book ≡ record self.old.book { messages = without_last_receipt name.now self.old.book.messages } }
        ensures room { (self.old.room.receipts ≤ self.new.room.receipts) × (self.new.room.messages ≡ self.old.room.messages) }
    {
        let Some((place, _, message)) = self.messages.get_full(name) else {
            return;
        };
        let Some(first) = message.received else {
            return;
        };
        if first.others == 0 {
            set_received(&mut self.messages, place, None);
            return;
        }
        let newest = self.others.forget(place, first.newest);
        let others = first.others - 1;
        let received = Received {
            others,
            newest,
            ..first
        };
        set_received(&mut self.messages, place, Some(received));
    }
}

/// Keeps these receipts of the message at the place.
#[inline(always)]
fn set_received<T: Copy + Eq + Hash + Drop>(
    messages: &mut IndexMap<Name, Message<T>>,
    place: usize,
    received: Option<Received<T>>,
)
    ensures entries { (name : Characters) (before : Kept T) → slice_get messages.old.entries place ≡ Some (name, before)
        → messages.new.entries ≡ set_value_at messages.old.entries place (record before { received = received }) }
    ensures unique { IsDistinct is_same (map (λ message. message.0) messages.old.entries) }
    ensures room { spare messages.new ≡ spare messages.old }
{
    if let Some(message) = messages.get_index_mut(place) {
        message.received = received;
    }
}
