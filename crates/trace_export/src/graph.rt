//! What is kept of right lines, with which the next one is compared.
ghost use Rattle.std.specs.Prelude.{◌≡◌, ℕ, suc, ◌+◌, ◌*◌, ◌<◌, ◌≤◌, ◌++◌, ◌∷◌, ◌↔◌, ◌⊎◌, ◌-◌, [], IfErr, IfNone, IfOk, IfSome, IsTrue, length, vec_len, vec_capacity, All, Contains, OnOk, false};
ghost use Rattle.trace_types.specs.clock.EventTree.{Leaf};
ghost use Rattle.trace_types.specs.tenant.Rows.{history_of};
ghost use Rattle.trace_export.specs.Bits.{HasBit};
ghost use Rattle.trace_export.specs.Edges.{IsPlaced, AreOrderedAlike, listed_preds, listed_tree, placed_at};
ghost use Rattle.trace_export.specs.Following.{placing_of};
ghost use Rattle.trace_export.specs.Graph.{AreEarlier, HaveRoom, IsJoinOf, IsKeptGraph, IsReachedBy, IsWhole, rows_of, reaching_row};
ghost use Rattle.trace_export.specs.Raised.{IsPointOf};
ghost use Rattle.trace_export.specs.Verdict.{IsOrderedNext};

use crate::bits::{add_bit, add_bits, no_bits};
use crate::chains::Chains;
use crate::follower::PackedLedger;
use crate::hints::Hints;
use crate::placed::{Placed, place_all};
use crate::sides::Sides;
use event_tree::{EvTree, RaisedPoint};
use std::alloc::{AllocError, Global};
use std::mem;
use trace_types::{Limits, Memory, Preds};

mod listed;
mod ordering;

/// What is kept of right lines. Of those that were due to a tenant, no more is kept than what they list. The rest is made
/// before the first event is compared.
#[derive(Drop)]
pub(crate) struct Graph {
    /// What is listed of each event. Event k is at k - 1.
    placed: Vec<Placed>,
    /// The events that reach each of the first events, without itself.
    reaching: Vec<Vec<u64>>,
    /// The events that some of those events follow.
    followed: Vec<u64>,
    /// Those events in chains.
    chains: Chains,
    /// What tells soon how the trees of events compare.
    hints: Hints,
}

impl Graph {
    /// The most events of an export.
    pub(crate) const MOST: usize = Limits::MOST_EVENTS as usize;

    /// Nothing yet.
    pub(crate) fn new(alloc: Global) -> Result<Graph, AllocError>
        ensures graph { IfOk result IsKeptGraph }
        ensures none { IfOk result (λ graph. graph.placed.items ≡ []) }
    {
        Ok(Graph {
            placed: Vec::new(alloc),
            reaching: Vec::new(alloc),
            followed: no_bits(alloc, Graph::MOST)?,
            chains: Chains::new(alloc, Graph::MOST)?,
            hints: Hints::new(alloc),
        })
    }

    /// How many events there are.
    pub(crate) fn len(&self) -> usize
        ensures { result ≡ length self.now.placed.items }
    {
        self.placed.len()
    }

    /// Adds the event that comes next if its tree and the earlier ones compare as the edges say, and says whether it did. It
    /// looks first where the tree is above this join of the trees of its predecessors.
    pub(crate) fn add(
        &mut self,
        alloc: Global,
        placed: Placed,
        join: &EvTree,
    ) -> Result<bool, AllocError>
        requires graph { IsKeptGraph self.old }
        requires preds { AreEarlier placed.preds (suc (length self.old.placed.items)) }
        requires few { length self.old.placed.items < 16384 }
        ensures ordered { IfOk result (λ added. IsTrue added → IsOrderedNext self.old.placed.items placed) }
        ensures added { IfOk result (λ added. IsTrue added → (self.new.placed.items ≡ self.old.placed.items ++ placed ∷ []) × IsKeptGraph self.new) }
        ensures refuted { IfOk result (λ added. added ≡ false → ((other : ℕ) × IsPlaced self.old.placed.items other
            × (¬ AreOrderedAlike (self.old.placed.items ++ placed ∷ []) other (suc (length self.old.placed.items))))) }
        ensures same { IfOk result (λ added. added ≡ false → self.new.placed.items ≡ self.old.placed.items) }
        ensures memory { IfErr result (λ _. (self.new.placed.items ≡ self.old.placed.items) × IsKeptGraph self.new) }
        ensures given_back { self.old.hints.are_kept ≡ false → self.new.hints.are_kept ≡ false }
    {
        self.complete(alloc)?;
        let reaching = self.reached_by(alloc, placed.preds.as_slice())?;
        let (own, point) = first_hints(alloc, &placed, join);
        let mut hints = mem::replace(&mut self.hints, Hints::new(alloc));
        hints.own = own;
        let is_ordered = self.is_ordered(&reaching, &placed, &mut hints);
        self.hints = hints;
        if !is_ordered {
            return Ok(false);
        }
        self.make_room()?;
        let place = self.placed.len();
        self.put(placed, reaching);
        self.hints.put(alloc, place, point);
        Ok(true)
    }

    /// Makes room for what so many events list, of which none is there yet.
    pub(crate) fn make_room_for(&mut self, events: usize) -> Result<(), AllocError>
        requires graph { IsKeptGraph self.old }
        ensures graph { IsKeptGraph self.new }
        ensures same { self.new.placed.items ≡ self.old.placed.items }
    {
        self.placed.reserve(events)
    }

    /// Lists all events of the tenant, whose trees compare as its edges say, and gives the rest of the tenant back. No more than
    /// what is listed of them is kept before another event has to be compared.
    pub(crate) fn list(&mut self, alloc: Global, ledger: PackedLedger) -> Result<(), Memory>
        requires graph { IsKeptGraph self.old }
        requires none { self.old.placed.items ≡ [] }
        requires few { length ledger.rows ≤ 16384 }
        ensures placed { OnOk result (self.new.placed.items ≡ placing_of (history_of ledger.rows)) }
        ensures graph { OnOk result (IsKeptGraph self.new) }
    {
        let _ = ledger.rows();
        place_all(&mut self.placed, alloc, &ledger)
    }

    /// Gives back what is kept for speed alone, and keeps none of it from now on. It says whether there was anything.
    pub(crate) fn give_back(&mut self, alloc: Global) -> bool
        requires graph { IsKeptGraph self.old }
        ensures told { result ≡ self.old.hints.are_kept }
        ensures given_back { self.new.hints.are_kept ≡ false }
        ensures placed { self.new.placed.items ≡ self.old.placed.items }
        ensures graph { IsKeptGraph self.new }
    {
        self.hints.give_back(alloc)
    }

    /// Makes of all events what was not made before.
    fn complete(&mut self, alloc: Global) -> Result<(), AllocError>
        requires { IsKeptGraph self.old }
        ensures placed { self.new.placed ≡ self.old.placed }
        ensures graph { IsKeptGraph self.new }
        ensures whole { OnOk result (IsWhole self.new) }
        ensures given_back { self.old.hints.are_kept ≡ false → self.new.hints.are_kept ≡ false }
    {
        while self.reaching.len() < self.placed.len() {
            self.add_row(alloc)?;
        }
        self.find_hints(alloc);
        Ok(())
    }

    /// Makes what is kept of the first event of which nothing was made.
    fn add_row(&mut self, alloc: Global) -> Result<(), AllocError>
        requires graph { IsKeptGraph self.old }
        requires some { length self.old.reaching.items < length self.old.placed.items }
        ensures placed { self.new.placed ≡ self.old.placed }
        ensures graph { IsKeptGraph self.new }
        ensures one { OnOk result (length self.new.reaching.items ≡ suc (length self.old.reaching.items)) }
        ensures hints { self.new.hints ≡ self.old.hints }
    {
        let preds = self.placed[self.reaching.len()].preds.share();
        let row = self.reached_by(alloc, preds.as_slice())?;
        self.reaching.reserve(1)?;
        self.chains.make_room()?;
        self.put_row(preds.as_slice(), row);
        Ok(())
    }

    /// Finds the hints of the events that have none, as far as there is memory for them.
    fn find_hints(&mut self, alloc: Global)
        requires { IsKeptGraph self.old }
        ensures placed { self.new.placed ≡ self.old.placed }
        ensures reaching { self.new.reaching ≡ self.old.reaching }
        ensures graph { IsKeptGraph self.new }
        ensures given_back { self.old.hints.are_kept ≡ false → self.new.hints.are_kept ≡ false }
    {
        for place in self.hints.len()..self.placed.len() {
            if !self.hints.are_kept() {
                return;
            }
            let placed = self.at(place + 1);
            let join = self.join_of(alloc, &placed.preds);
            let (sides, point) = first_hints(alloc, placed, &join);
            self.hints.own = sides;
            self.hints.put(alloc, place, point);
        }
    }

    /// Makes room for one event.
    fn make_room(&mut self) -> Result<(), AllocError>
        requires graph { IsKeptGraph self.old }
        ensures graph { IsKeptGraph self.new }
        ensures placed { self.new.placed.items ≡ self.old.placed.items }
        ensures reaching { self.new.reaching.items ≡ self.old.reaching.items }
        ensures hints { self.new.hints ≡ self.old.hints }
        ensures room { OnOk result ((vec_len self.new.placed < vec_capacity self.new.placed) × (vec_len self.new.reaching < vec_capacity self.new.reaching)
            × (vec_len self.new.chains.before < vec_capacity self.new.chains.before)) }
    {
        self.placed.reserve(1)?;
        self.reaching.reserve(1)?;
        self.chains.make_room()?;
        Ok(())
    }

    /// Adds the event that these reach, for which there is room.
    fn put(&mut self, placed: Placed, reaching: Vec<u64>)
        requires graph { IsKeptGraph self.old }
        requires whole { IsWhole self.old }
        requires preds { AreEarlier placed.preds (suc (length self.old.placed.items)) }
        requires few { length self.old.placed.items < 16384 }
        requires ordered { IsOrderedNext self.old.placed.items placed }
        requires reaching { (place : ℕ) → HasBit reaching.items place ↔ IsReachedBy (rows_of self.old) placed.preds place }
        requires short { 64 * length reaching.items ≤ suc (length self.old.reaching.items) + 63 }
        requires room { (vec_len self.old.placed < vec_capacity self.old.placed) × (vec_len self.old.reaching < vec_capacity self.old.reaching)
            × (vec_len self.old.chains.before < vec_capacity self.old.chains.before) }
        ensures placed { self.new.placed.items ≡ self.old.placed.items ++ placed ∷ [] }
        ensures graph { IsKeptGraph self.new }
        ensures points { self.new.hints ≡ self.old.hints }
    {
        let preds = placed.preds.share();
        self.placed.push_reserved(placed);
        self.put_row(preds.as_slice(), reaching);
    }

    /// Adds these events, which reach the first event of which nothing was made. That event follows these. There is room.
    fn put_row(&mut self, preds: &[u64], reaching: Vec<u64>)
        requires graph { IsKeptGraph self.old }
        requires some { length self.old.reaching.items < length self.old.placed.items }
        requires preds { preds.now ≡ listed_preds self.old.placed.items (suc (length self.old.reaching.items)) }
        requires reaching { (place : ℕ) → HasBit reaching.items place ↔ IsReachedBy (rows_of self.old) preds.now place }
        requires short { 64 * length reaching.items ≤ suc (length self.old.reaching.items) + 63 }
        requires room { (vec_len self.old.reaching < vec_capacity self.old.reaching) × (vec_len self.old.chains.before < vec_capacity self.old.chains.before) }
        ensures placed { self.new.placed ≡ self.old.placed }
        ensures reaching { self.new.reaching.items ≡ self.old.reaching.items ++ reaching ∷ [] }
        ensures hints { self.new.hints ≡ self.old.hints }
        ensures graph { IsKeptGraph self.new }
    {
        follow(&mut self.followed, preds);
        self.chains.put(preds);
        self.reaching.push_reserved(reaching);
    }

    /// These events and those that reach them.
    fn reached_by(&self, alloc: Global, preds: &[u64]) -> Result<Vec<u64>, AllocError>
        requires rows { HaveRoom (rows_of self.now) }
        requires preds { AreEarlier preds.now (suc (length self.now.reaching.items)) }
        ensures reaching { IfOk result (λ bits. (place : ℕ) → HasBit bits.items place
            ↔ IsReachedBy (rows_of self.now) preds.now place) }
        ensures short { IfOk result (λ bits. 64 * length bits.items ≤ suc (length self.now.reaching.items) + 63) }
    {
        let mut bits = no_bits(alloc, self.reaching.len())?;
        self.add_reaching(&mut bits, preds);
        Ok(bits)
    }

    /// Adds these events and those that reach them.
    fn add_reaching(&self, bits: &mut [u64], preds: &[u64])
        requires rows { HaveRoom (rows_of self.now) }
        requires preds { AreEarlier preds.now (suc (length self.now.reaching.items)) }
        requires room { length self.now.reaching.items < 64 * length bits.old }
        ensures reaching { (place : ℕ) → HasBit bits.new place
            ↔ (HasBit bits.old place ⊎ IsReachedBy (rows_of self.now) preds.now place) }
        ensures room { length bits.new ≡ length bits.old }
    {
        for pred in preds.iter() {
            self.add_one_reaching(bits, *pred);
        }
    }

    /// Adds this event and those that reach it.
    fn add_one_reaching(&self, bits: &mut [u64], event: u64)
        requires rows { HaveRoom (rows_of self.now) }
        requires event { (0 < event) × (event ≤ length self.now.reaching.items) }
        requires room { length self.now.reaching.items < 64 * length bits.old }
        ensures reaching { (place : ℕ) → HasBit bits.new place
            ↔ (HasBit bits.old place ⊎ (HasBit (reaching_row (rows_of self.now) event) place ⊎ (place ≡ event - 1))) }
        ensures room { length bits.new ≡ length bits.old }
    {
        let place = event as usize - 1;
        add_bits(bits, &self.reaching[place]);
        add_bit(bits, place);
    }

    /// The join of the trees of these events. It is 0 everywhere if one of them is not there, or if memory runs out.
    pub(crate) fn join_of(&self, alloc: Global, preds: &Preds) -> EvTree
        ensures { (result ≡ Leaf 0) ⊎ IsJoinOf self.now.placed.items preds.now result }
    {
        match self.try_join(alloc, preds) {
            Some(join) => join,
            None => EvTree::leaf(0),
        }
    }

    /// The join of the trees of these events, if they are there and memory does not run out.
    fn try_join(&self, alloc: Global, preds: &Preds) -> Option<EvTree>
        ensures { IfSome result (IsJoinOf self.now.placed.items preds.now) }
    {
        match *preds.as_slice() {
            [one] => self.tree_of(one)?.share(alloc).ok(),
            [first, second] => self.tree_of(first)?.join(alloc, self.tree_of(second)?).ok(),
            _ => None,
        }
    }

    /// The tree of the event, if it is there.
    fn tree_of(&self, event: u64) -> Option<&EvTree>
        ensures there { IfSome result (λ tree. tree.now ≡ listed_tree self.now.placed.items event) }
        ensures none { IfNone result (IsPlaced self.now.placed.items event → ⊥) }
    {
        if event == 0 || event > self.placed.len() as u64 {
            return None;
        }
        Some(&self.at(event as usize).tree)
    }

    /// What is listed of the event.
    #[inline(always)]
    fn at(&self, event: usize) -> &Placed
        requires { IsPlaced self.now.placed.items event }
        ensures { result.now ≡ placed_at self.now.placed.items event }
    {
        &self.placed[event - 1]
    }
}

/// What is known of an event's tree before it is compared: where it is above the join of the trees of its predecessors. An
/// event raises its tree there. In a tenant's trace, nothing is above that place but what follows the event.
fn first_hints(alloc: Global, placed: &Placed, join: &EvTree) -> (Sides, Option<RaisedPoint>)
    ensures { IsPointOf result.1 placed.now.tree }
{
    let mut sides = Sides::new(alloc);
    let point = match placed.preds.as_slice() {
        [] => None,
        _ => match placed.tree.point_above(join, &mut sides.above) {
            Ok(point) => point,
            Err(_) => None,
        },
    };
    (sides, point)
}

/// Notes that these events are followed.
fn follow(followed: &mut Vec<u64>, events: &[u64])
    requires { All (λ event. (0 < event) × (event ≤ 64 * length followed.old.items)) events.now }
    ensures followed { (place : ℕ) → HasBit followed.new.items place ↔ (HasBit followed.old.items place ⊎ Contains events.now (suc place)) }
    ensures len { length followed.new.items ≡ length followed.old.items }
{
    add_events(followed, events);
}

/// Adds the bits of these events.
fn add_events(bits: &mut [u64], events: &[u64])
    requires { All (λ event. (0 < event) × (event ≤ 64 * length bits.old)) events.now }
    ensures added { (place : ℕ) → HasBit bits.new place ↔ (HasBit bits.old place ⊎ Contains events.now (suc place)) }
    ensures len { length bits.new ≡ length bits.old }
{
    for event in events.iter() {
        add_bit(bits, *event as usize - 1);
    }
}
