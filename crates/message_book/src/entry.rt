//! What the book has of one message.
ghost use Rattle.std.specs.Prelude.{◌≡◌, ◌<◌, ◌≤◌, ◌-◌, true, drop, length, map, IfOk, IsOk};
ghost use Rattle.message_book.specs.Chains.{follow, is_chain, is_chained, sent_in};

use crate::message::{Later, Message};
use std::alloc::Global;
use std::hash::Hash;
use std::marker::Model;
use trace_types::{Memory, Receipts};

/// What the book has of one message, lent.
///
/// A contract sees the event that sent the message, and the receipts in their order, each a task and an event.
#[derive(Drop)]
pub struct Entry<'a, T: Copy + Eq + Hash> {
    message: &'a Message<T>,
    later: &'a [Later<T>],
}

impl<'a, T: Copy + Eq + Hash> Model for Entry<'a, T> {
    ghost use Rattle.std.specs.Prelude.{◌≡◌, true};
    ghost use Rattle.message_book.specs.Book.{Sent};
    ghost use Rattle.message_book.specs.Chains.{is_chained, sent_in};

    ghost Value = { Sent T };

    ghost view = { λ e. sent_in e.later.now e.message.now };

    ghost invariant = { λ e. is_chained T.eq e.later.now e.message.now.received ≡ true };
}

impl<'a, T: Copy + Eq + Hash> Entry<'a, T> {
    /// The message, whose later receipts are among these.
    pub(crate) fn of(message: &'a Message<T>, later: &'a [Later<T>]) -> Entry<'a, T>
        requires { is_chained T.eq later.now message.now.received ≡ true }
        ensures { result ≡ sent_in later.now message.now }
    {
        Entry { message, later }
    }

    /// The number of the event that sent the message, from 1.
    pub fn sent(&self) -> u64
        ensures { result ≡ self.now.sent }
    {
        u64::from(self.message.sent)
    }

    /// The events that received the message, in the order of the receipts. Returns `Memory` if it runs out of memory.
    /// None and one take none.
    pub fn receipts(&self, alloc: Global) -> Result<Receipts, Memory>
        ensures events { IfOk result (λ events. events ≡ map (λ receipt. receipt.event) self.now.receipts) }
        ensures few { length self.now.receipts ≤ 1 → IsOk result }
    {
        match &self.message.received {
            None => Ok(Receipts::none(alloc)),
            Some(first) if first.others == 0 => Ok(Receipts::one(alloc, u64::from(first.event))),
            Some(first) => {
                let mut events = Vec::new(alloc);
                events.resize(first.others as usize + 1, 0)?;
                fill(self.later, events.as_mut_slice(), first.newest);
                events[0] = u64::from(first.event);
                Ok(Receipts::from(events))
            }
        }
    }
}

/// Writes the events of receipts of a message from the last place back to the second. The newest receipt is at this place.
fn fill<T: Copy + Eq + Hash>(later: &[Later<T>], events: &mut [u64], newest: u32)
    requires some { 0 < length events.old }
    requires chain { is_chain T.eq later.now (length events.old - 1) newest ≡ true }
    ensures { drop 1 events.new ≡ map (λ receipt. receipt.event) (follow later.now (length events.old - 1) newest) }
{
    let (mut left, mut place) = (events.len() - 1, newest as usize);
    while left > 0 {
        let one = &later[place];
        events[left] = u64::from(one.event);
        place = one.before as usize;
        left -= 1;
    }
}
