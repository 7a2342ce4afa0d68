//! The receipts that are not the first ones of their messages.
ghost use Rattle.std.specs.Prelude.{◌≡◌, ℕ, [], ◌+◌, ◌^◌, ◌≤◌, ◌<◌, ◌∷◌, ◌++◌, ◌&&◌, ◌||◌, not, false, if◌then◌else◌, length, slice_get, Some, IsOk, IfOk, IfErr, OnOk, OnErr};
ghost use Rattle.message_book.specs.Chains.{has_key, is_receiver, is_same_receipt};
ghost use Rattle.message_book.specs.declared.message.Later.{Later as Further};

use crate::message::{Later, Received};
use indexmap::IndexSet;
use std::alloc::Global;
use std::hash::Hash;
use std::marker::Model;
use trace_types::{Code, Memory};

/// So many receipts can be told apart by their places.
const MOST: usize = 4294967295;

/// The receipts of all messages but for the first one of each, and which tasks they are by, found by hash.
///
/// A contract sees them in the order in which they were taken, the tasks with the places of their messages, and for how
/// many more there is room.
#[derive(Drop)]
pub(crate) struct Others<T: Copy + Eq + Hash + Drop> {
    later: Vec<Later<T>>,
    receivers: IndexSet<(T, usize)>,
}

impl<T: Copy + Eq + Hash + Drop> Model for Others<T> {
    ghost use Rattle.std.specs.Prelude.{◌-◌, min, vec_capacity, vec_len};
    ghost use Rattle.indexmap.specs.IndexSet.{spare};
    ghost use Rattle.message_book.specs.Chains.{Kept};

    ghost Value = { Kept T };

    ghost view = { λ o. record {
      later = o.later.items;
      keys = o.receivers.keys;
      room = min (min (spare o.receivers) (vec_capacity o.later - vec_len o.later)) (4294967295 - vec_len o.later);
    } };
}

impl<T: Copy + Eq + Hash + Drop> Others<T> {
    /// None. It takes no memory.
    pub(crate) fn new(alloc: Global) -> Others<T>
        ensures later { result.later ≡ [] }
        ensures keys { result.keys ≡ [] }
    {
        Others {
            later: Vec::new(alloc),
            receivers: IndexSet::new(alloc),
        }
    }

    /// All of them, in the order in which they were taken.
    #[inline(always)]
    pub(crate) fn as_slice(&self) -> &[Later<T>]
        ensures { result.now ≡ self.now.later }
    {
        &self.later
    }

    /// Whether the task received the message at this place, whose receipts are these. It takes no memory, and at most one
    /// look-up by hash.
    #[inline(always)]
    pub(crate) fn has_receiver(&self, place: usize, received: &Option<Received<T>>, task: T) -> bool
        ensures { result ≡ is_receiver T.eq self.now.keys place received.now task }
    {
        match received {
            None => false,
            Some(first) => first.task == task || self.has(task, place),
        }
    }

    /// Whether the task has one of the message at this place. It takes no memory, and one look-up by hash.
    #[inline(always)]
    fn has(&self, task: T, place: usize) -> bool
        ensures { result ≡ has_key T.eq self.now.keys (task, place) }
    {
        self.receivers.contains(&(task, place))
    }

    /// For how many more there is room.
    #[inline(always)]
    pub(crate) fn room(&self) -> usize
        ensures { result ≡ self.now.room }
    {
        let keys = self.receivers.capacity() - self.receivers.len();
        keys.min(self.later.capacity() - self.later.len())
            .min(MOST.saturating_sub(self.later.len()))
    }

    /// Makes room for so many more. Returns `Memory` if it runs out of memory. There is then no less room than before.
    pub(crate) fn reserve(&mut self, more: usize) -> Result<(), Memory>
        ensures later { self.new.later ≡ self.old.later }
        ensures keys { self.new.keys ≡ self.old.keys }
        ensures room { OnOk result (more ≤ self.new.room) }
        ensures no_less { self.old.room ≤ self.new.room }
        ensures there { more ≤ self.old.room → IsOk result }
    {
        if more > MOST.saturating_sub(self.later.len()) {
            return Err(Memory);
        }
        self.receivers.reserve(more)?;
        Ok(self.later.reserve(more)?)
    }

    /// Adds one by this task, of the message at this place, and gives its own place.
    ///
    /// Returns `AlreadyReceived` (407) if the task has one of the message, else `NoMemory` (507) if it runs out of memory.
    #[inline(always)]
    pub(crate) fn add(&mut self, place: usize, one: Later<T>) -> Result<u32, Code>
        ensures allowed { OnOk result (has_key T.eq self.old.keys (one.task, place) ≡ false) }
        ensures newest { IfOk result (λ newest. newest ≡ length self.old.later) }
        ensures later { OnOk result (self.new.later ≡ self.old.later ++ one ∷ []) }
        ensures fits { OnOk result (length self.new.later < 2 ^ 32) }
        ensures keys { OnOk result ((task : T) (at : ℕ) → has_key T.eq self.new.keys (task, at) ≡ (is_same_receipt T.eq (one.task, place) (task, at) || has_key T.eq self.old.keys (task, at))) }
        ensures code { IfErr result (λ code. code ≡ (if has_key T.eq self.old.keys (one.task, place) then Code.AlreadyReceived else Code.NoMemory)) }
        ensures err { OnErr result ((self.new.later ≡ self.old.later) × (self.new.keys ≡ self.old.keys)) }
        ensures room { 0 < self.old.room → has_key T.eq self.old.keys (one.task, place) ≡ false → IsOk result }
        ensures used { self.old.room ≤ self.new.room + 1 }
    {
        let newest = self.later.len();
        if newest >= MOST || self.later.reserve(1).is_err() {
            if self.has(one.task, place) {
                return Err(Code::AlreadyReceived);
            }
            return Err(Code::NoMemory);
        }
        match self.receivers.insert((one.task, place)) {
            Ok(true) => {
                self.later.push_reserved(one);
                Ok(newest as u32)
            }
            Ok(false) => Err(Code::AlreadyReceived),
            Err(_) => Err(Code::NoMemory),
        }
    }

    /// Forgets that the task of the receipt at `newest` received the message at this place, and gives the place of the
    /// receipt before it. It takes no memory. The receipt itself stays, and nothing asks for it any more.
    pub(crate) fn forget(&mut self, place: usize, newest: u32) -> u32
        requires { newest < length self.old.later }
        ensures later { self.new.later ≡ self.old.later }
        ensures room { self.old.room ≤ self.new.room }
        ensures before { (one : Further T) → slice_get self.old.later newest ≡ Some one → result ≡ one.before }
        ensures keys { (one : Further T) → slice_get self.old.later newest ≡ Some one → (task : T) (at : ℕ)
            → has_key T.eq self.new.keys (task, at) ≡ (not (is_same_receipt T.eq (one.task, place) (task, at)) && has_key T.eq self.old.keys (task, at)) }
    {
        let one = self.later[newest as usize];
        self.receivers.swap_remove(&(one.task, place));
        one.before
    }
}
