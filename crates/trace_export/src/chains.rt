//! Chains of events, in each of which every event follows the one before it.
ghost use Rattle.std.specs.Prelude.{◌≡◌, ◌*◌, ◌-◌, ◌<◌, ◌≤◌, ◌⊎◌, suc, [], IfOk, OnOk, length, vec_len, vec_capacity, Contains};
ghost use Rattle.trace_export.specs.Bits.{HasBit};
ghost use Rattle.trace_export.specs.Chains.{IsInside, IsOnChain, IsPutBehind, LeadBack, before_of};
ghost use Rattle.trace_export.specs.Graph.{AreEarlier};

use crate::bits::{add_bit, has_bit, no_bits, remove_bit};
use std::alloc::{AllocError, Global};

/// Events in chains. The events of a chain that reach another event are its first ones, so the first one that does not
/// reach it tells of all.
#[derive(Drop)]
pub(crate) struct Chains {
    /// The event before each event in its chain, or 0 if there is none. That of event k is at k - 1.
    before: Vec<u16>,
    /// The last events of the chains: event k has bit k - 1.
    pub(crate) tails: Vec<u64>,
}

impl Chains {
    /// No chains, with room for the ends of those of so many events.
    pub(crate) fn new(alloc: Global, events: usize) -> Result<Chains, AllocError>
        ensures none { IfOk result (λ chains. chains.before.items ≡ []) }
        ensures room { IfOk result (λ chains. events < 64 * length chains.tails.items) }
    {
        Ok(Chains {
            before: Vec::new(alloc),
            tails: no_bits(alloc, events)?,
        })
    }

    /// Makes room for one event.
    pub(crate) fn make_room(&mut self) -> Result<(), AllocError>
        ensures before { self.new.before.items ≡ self.old.before.items }
        ensures tails { self.new.tails ≡ self.old.tails }
        ensures room { OnOk result (vec_len self.new.before < vec_capacity self.new.before) }
    {
        self.before.reserve(1)
    }

    /// Puts the next event, which follows these, behind the first of them that is the last of its chain. It begins a chain
    /// if none of them is. There is room for it.
    pub(crate) fn put(&mut self, preds: &[u64])
        requires preds { AreEarlier preds.now (suc (length self.old.before.items)) }
        requires few { length self.old.before.items < 16384 }
        requires room { (vec_len self.old.before < vec_capacity self.old.before) × (16384 < 64 * length self.old.tails.items) }
        ensures put { IsPutBehind preds.now self.old.before.items self.old.tails.items self.new.before.items self.new.tails.items }
        ensures len { length self.new.tails.items ≡ length self.old.tails.items }
    {
        let last = self.last_among(preds);
        if last != 0 {
            remove_bit(&mut self.tails, last as usize - 1);
        }
        add_bit(&mut self.tails, self.before.len());
        self.before.push_reserved(last as u16);
    }

    /// The first of these events that is the last of its chain, or 0 if none is.
    fn last_among(&self, events: &[u64]) -> u64
        ensures { (result ≡ 0) ⊎ Contains events.now result }
    {
        for event in events.iter() {
            if *event != 0 && has_bit(&self.tails, *event as usize - 1) {
                return *event;
            }
        }
        0
    }

    /// The first event of a chain that is not in the set, if this one is not. The set has with an event all that are before
    /// it in its chain.
    pub(crate) fn first_outside(&self, set: &[u64], event: usize) -> usize
        requires event { (0 < event) × (event ≤ length self.now.before.items) }
        requires back { LeadBack self.now.before.items }
        ensures placed { (0 < result) × (result ≤ event) }
        ensures chain { IsOnChain self.now.before.items result event }
        ensures outside { ¬ HasBit set.now (event - 1) → ¬ HasBit set.now (result - 1) }
        ensures first { IsInside set.now (before_of self.now.before.items result) }
    {
        let mut first = event;
        loop {
            let before = self.before[first - 1] as usize;
            if before == 0 || has_bit(set, before - 1) {
                return first;
            }
            first = before;
        }
    }
}
