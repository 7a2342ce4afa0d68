//! Receipts of messages, the first of them stored inline.
ghost use Rattle.std.specs.Prelude.{◌≡◌, ◌≤◌, ◌<◌, ◌-◌, [], ◌∷◌, ◌++◌, length, reverse, take, nat_eq, IsOk, IfOk, OnOk, OnErr};
ghost use Rattle.std.specs.Cmp.{partial_equiv_from_equiv};
ghost use Rattle.std.specs.Cmp.Lexicographic.{pointwise, nat_list_eq_equiv};

use crate::Memory;
use smallvec::SmallVec;
use std::alloc::Global;
use std::marker::Model;

/// The receipts of a message: the number of each event that received the message, in the order of the receipts.
///
/// The first number is stored inline, so a message with one receiver takes no memory for its receipts. A contract sees
/// the list.
#[derive(Debug, Drop)]
pub struct Receipts {
    events: SmallVec<u64, 1>,
}

impl Model for Receipts {
    ghost use Rattle.std.specs.Prelude.{ℕ, ◌≤◌, List};

    ghost Value = { List ℕ };

    ghost view = { λ r. r.events.items };

    ghost invariant = { λ r. 1 ≤ r.events.capacity };
}

impl Receipts {
    /// No receipts. It takes no memory.
    pub fn none(alloc: Global) -> Receipts
        ensures { result ≡ [] }
    {
        let events = SmallVec::new(alloc);
        Receipts { events }
    }

    /// One receipt. It takes no memory.
    pub fn one(alloc: Global, event: u64) -> Receipts
        ensures { result ≡ event ∷ [] }
    {
        let events = SmallVec::from_buf(alloc, [event]);
        Receipts { events }
    }

    /// The events that received the message, the first one first.
    pub fn as_slice(&self) -> &[u64]
        ensures { result.now ≡ self.now }
    {
        self.events.as_slice()
    }

    /// Adds a receipt. Returns `Memory`, with the receipts as before, if it runs out of memory. The first receipt takes
    /// none.
    pub fn add(&mut self, event: u64) -> Result<(), Memory>
        ensures ok { OnOk result (self.new ≡ self.old ++ event ∷ []) }
        ensures err { OnErr result (self.new ≡ self.old) }
        ensures first { self.old ≡ [] → IsOk result }
    {
        self.events.push(event)?;
        Ok(())
    }

    /// Takes the last receipt back, if there is one. It takes no memory.
    pub fn remove_last(&mut self)
        ensures { self.new ≡ take (length self.old - 1) self.old }
    {
        self.events.pop();
    }

    /// Puts the receipts in the opposite order. It takes no memory.
    pub fn reverse(&mut self)
        ensures { self.new ≡ reverse self.old }
    {
        self.events.as_mut_slice().reverse();
    }

    /// Equal receipts. Returns `Memory` if it runs out of memory. Up to one receipt takes none.
    pub fn share(&self) -> Result<Receipts, Memory>
        ensures equal { IfOk result (λ receipts. receipts ≡ self.now) }
        ensures few { length self.now ≤ 1 → IsOk result }
    {
        let events = SmallVec::from_slice(*self.events.allocator(), self.as_slice())?;
        Ok(Receipts { events })
    }
}

impl From<Vec<u64>> for Receipts {
    ghost from_gives = { λ events receipts. receipts ≡ events.items };

    fn from(events: Vec<u64>) -> Receipts {
        let events = SmallVec::from_vec(events);
        Receipts { events }
    }
}

impl PartialEq for Receipts {
    ghost eq = { pointwise nat_eq };

    ghost laws = { partial_equiv_from_equiv nat_list_eq_equiv };

    fn eq(&self, other: &Receipts) -> bool {
        self.as_slice() == other.as_slice()
    }
}

impl Eq for Receipts {
    ghost laws = { nat_list_eq_equiv };
}
