//! The cache, and when it looks a pair up.
ghost use Rattle.std.specs.Prelude.{◌≡◌, ◌+◌, ◌-◌, ◌^◌, ◌<◌, ◌≤◌, ◌↔◌, min, IfOk, IfSome, IsErrOf, IsTrue, MatchOption};
ghost use Rattle.std.specs.NonZero.{non_zero_usize_get};
ghost use Rattle.event_tree.specs.Comparison.{StandsAs};
ghost use Rattle.tree_forest.specs.Kept.{IsOf};
ghost use Rattle.order_cache.specs.Capacity.{IsCapacity};
ghost use Rattle.order_cache.specs.declared.cache.CacheFault.TheVariants.{Memory as OutOfMemory};

use crate::compared_pair::Compared;
use crate::home_and_capacity::Extent;
use crate::remembered::Remembered;
use counted_slot::{Counted, FREE, PRESENT, TAKEN};
use event_tree::EvTree;
use std::alloc::{AllocError, Global};
use std::marker::Model;
use std::num::NonZeroUsize;
use std::sync::atomic::{AtomicU64, Ordering};
use thiserror::Error;
use trace_types::{Memory, Order};
use tree_forest::{Forest, Home, Tree};

/// Why a cache of comparisons is not made.
#[derive(Clone, Copy, Debug, PartialEq, Eq, Error)]
pub enum CacheFault {
    /// The capacity is 0, or above 65536.
    #[error("bad capacity")]
    Capacity,
    /// The call ran out of memory.
    #[error("no memory")]
    Memory,
}

impl From<AllocError> for CacheFault {
    ghost from_gives = { λ _ fault. fault ≡ OutOfMemory };

    fn from(_refused: AllocError) -> CacheFault {
        CacheFault::Memory
    }
}

impl From<Memory> for CacheFault {
    ghost from_gives = { λ _ fault. fault ≡ OutOfMemory };

    fn from(_refused: Memory) -> CacheFault {
        CacheFault::Memory
    }
}

/// Remembers how pairs of trees of one forest stand to each other. A clause sees the forest's home, and the capacity.
///
/// One thread at a time is lent what is remembered, for one step of the map. It never compares trees in that time.
/// Another thread does not wait, and compares the trees itself.
#[derive(Drop)]
pub struct OrderCache {
    slot: Counted<Option<Remembered>>,
    /// How often a remembered comparison was the answer. The thread that has the slot counts it.
    hits: AtomicU64,
    /// How many asks are left until walks are taken for short, if no walk is long. It is above `FEW_ASKS` for the first
    /// asks.
    watch: AtomicU64,
    /// How many lookups in a row found nothing.
    misses: AtomicU64,
}

impl Model for OrderCache {
    ghost use Rattle.order_cache.specs.Caches.{Cache};

    ghost Value = { Cache };

    ghost view = { λ c. c.slot };
}

/// The state of the slot while what is remembered is lent.
const LENT: u64 = PRESENT;

/// The greatest capacity.
const MOST: u64 = 65536;

/// How many first asks are looked up, whatever their walks. Walks are taken for short after as many more that a short
/// walk decides.
const FEW_ASKS: u64 = 256;

/// A walk over this many inner nodes takes less time than a lookup.
const SHORT_WALK: u64 = 24;

/// After this many lookups in a row that find nothing, few pairs are expected to come again.
const MANY_MISSES: u64 = 256;

/// From then on one ask in this many is looked up and remembered, until a lookup finds one.
const SELDOM: u64 = 16;

/// One pair in this many is watched while walks are taken for short.
const SAMPLE: u64 = 64;

/// The capacity as the map takes it, or `None` if it is out of range.
fn capacity_of(capacity: u64) -> Option<NonZeroUsize>
    ensures taken { MatchOption result (¬ IsCapacity capacity) (λ _. IsCapacity capacity) }
    ensures same { IfSome result (λ taken. non_zero_usize_get taken ≡ capacity) }
{
    if !OrderCache::takes(capacity) {
        return None;
    }
    NonZeroUsize::new(capacity as usize)
}

/// Whether the least and the greatest values decide how the two trees stand. A comparison then walks nowhere.
#[inline(always)]
fn ranges_decide(first: &EvTree, second: &EvTree) -> bool {
    first.max() <= second.min() || second.max() <= first.min()
}

/// One hit more, or as many if there are 2^64 - 1.
fn one_more(hits: u64) -> u64
    ensures { result ≡ min (hits + 1) (2 ^ 64 - 1) }
{
    hits.saturating_add(1)
}

impl OrderCache {
    /// Whether a cache can have this capacity: 1 to 65536 comparisons.
    pub fn takes(capacity: u64) -> bool
        ensures { IsTrue result ↔ IsCapacity capacity }
    {
        0 < capacity && capacity <= MOST
    }

    /// A cache for trees of this forest, which has room for `capacity` comparisons.
    ///
    /// Whenever a thread is lent what is remembered, it has that room. Returns `Capacity` exactly if the capacity is 0 or above 65536, and `Memory` if it runs out of memory.
    pub fn new(
        alloc: Global,
        capacity: u64,
        forest: &Forest<EvTree>,
    ) -> Result<OrderCache, CacheFault>
        ensures capacity { IsErrOf result CacheFault.Capacity ↔ (¬ IsCapacity capacity) }
        ensures home { IfOk result (λ cache. cache.home ≡ forest.now) }
        ensures room { IfOk result (λ cache. cache.capacity ≡ capacity) }
    {
        let capacity = capacity_of(capacity).ok_or(CacheFault::Capacity)?;
        let extent = Extent::of(Home::of(forest), capacity);
        let remembered = Remembered::new(alloc, &extent)?;
        Ok(OrderCache {
            slot: Counted::new(Some(remembered), &extent),
            hits: AtomicU64::new(0),
            watch: AtomicU64::new(2 * FEW_ASKS),
            misses: AtomicU64::new(0),
        })
    }

    /// How the first tree stands to the second.
    ///
    /// If it runs out of memory, or another thread has what is remembered, it answers and does not remember the
    /// comparison. Two threads that ask for one pair at once may both compare it.
    #[inline(always)]
    pub fn order(
        &self,
        forest: &Forest<EvTree>,
        first: &Tree<EvTree>,
        second: &Tree<EvTree>,
    ) -> Order
        requires cache { self.now.home ≡ forest.now }
        requires first { IsOf forest.now first.now }
        requires second { IsOf forest.now second.now }
        ensures { StandsAs result first.now.value second.now.value }
    {
        if self.takes_for_short(first, second) || ranges_decide(first.value(), second.value()) {
            return first.value().order(second.value());
        }
        self.order_watched(forest, first, second)
    }

    /// Whether the next ask is one of the first, which are all looked up but those that the greatest values decide.
    #[inline(always)]
    pub fn is_at_first_asks(&self) -> bool {
        self.watch.load(Ordering::Relaxed) > FEW_ASKS
    }

    /// How often a remembered comparison was the answer, for the operator. It stays at 2^64 - 1.
    ///
    /// No clause says how often, since threads count at once and no contract tells what an atomic has.
    pub fn hits(&self) -> u64 {
        self.hits.load(Ordering::Relaxed)
    }

    /// Whether the pair is walked to its end at once, since walks are taken for short. One pair in `SAMPLE` is watched
    /// instead.
    #[inline(always)]
    fn takes_for_short(&self, first: &Tree<EvTree>, second: &Tree<EvTree>) -> bool {
        self.watch.load(Ordering::Relaxed) == 0 && (first.number() ^ second.number()) % SAMPLE != 0
    }

    /// How two trees stand to each other. The first asks are looked up, so a pair that comes again is found from the
    /// start. Later ones are walked over a few inner nodes, and looked up only if that does not decide. Two threads at
    /// once may count as one ask.
    #[inline(never)]
    fn order_watched(
        &self,
        forest: &Forest<EvTree>,
        first: &Tree<EvTree>,
        second: &Tree<EvTree>,
    ) -> Order
        requires cache { self.now.home ≡ forest.now }
        requires first { IsOf forest.now first.now }
        requires second { IsOf forest.now second.now }
        ensures { StandsAs result first.now.value second.now.value }
    {
        let watch = self.watch.load(Ordering::Relaxed);
        if watch > FEW_ASKS {
            self.watch.store(watch - 1, Ordering::Relaxed);
            return self.looked_up(forest, first, second);
        }
        match first.value().order_within(second.value(), SHORT_WALK) {
            Some(order) => {
                self.watch.store(watch.saturating_sub(1), Ordering::Relaxed);
                order
            }
            None => {
                self.watch.store(FEW_ASKS, Ordering::Relaxed);
                self.looked_up(forest, first, second)
            }
        }
    }

    /// How two trees stand to each other if a short walk does not decide it.
    fn looked_up(
        &self,
        forest: &Forest<EvTree>,
        first: &Tree<EvTree>,
        second: &Tree<EvTree>,
    ) -> Order
        requires cache { self.now.home ≡ forest.now }
        requires first { IsOf forest.now first.now }
        requires second { IsOf forest.now second.now }
        ensures { StandsAs result first.now.value second.now.value }
    {
        if !self.is_looked_up() {
            return first.value().order(second.value());
        }
        match self.recall(forest, first, second) {
            Some(order) => order,
            None => self.compared(first, second),
        }
    }

    /// Whether this ask is looked up. It counts as a lookup that finds nothing, until it finds something. Two threads at
    /// once may count as one.
    fn is_looked_up(&self) -> bool {
        let misses = self.misses.load(Ordering::Relaxed);
        self.misses.store(misses.wrapping_add(1), Ordering::Relaxed);
        misses < MANY_MISSES || misses % SELDOM == 0
    }

    /// Looks the two trees up, and counts what is found.
    #[inline(never)]
    fn recall(
        &self,
        forest: &Forest<EvTree>,
        first: &Tree<EvTree>,
        second: &Tree<EvTree>,
    ) -> Option<Order>
        requires cache { self.now.home ≡ forest.now }
        requires first { IsOf forest.now first.now }
        requires second { IsOf forest.now second.now }
        ensures { IfSome result (λ order. StandsAs order first.now.value second.now.value) }
    {
        let mut remembered = self.lend()?;
        let order = remembered.recall(forest, first, second);
        if order.is_some() {
            self.count_hit();
        }
        self.take_back(remembered);
        order
    }

    /// Compares the two trees, and remembers the result if there is memory and the slot is free.
    #[inline(never)]
    fn compared(&self, first: &Tree<EvTree>, second: &Tree<EvTree>) -> Order
        requires first { IsOf self.now.home first.now }
        requires second { IsOf self.now.home second.now }
        ensures { StandsAs result first.now.value second.now.value }
    {
        let order = first.value().order(second.value());
        if let Some(mut remembered) = self.lend() {
            remembered.remember(Compared::of(first, second, order));
            self.take_back(remembered);
        }
        order
    }

    /// Counts an ask that found something. Only the thread that has the slot calls it.
    fn count_hit(&self) {
        let hits = self.hits.load(Ordering::Relaxed);
        self.hits.store(one_more(hits), Ordering::Relaxed);
        self.misses.store(0, Ordering::Relaxed);
    }

    /// Lends what is remembered, which has to be given back, or returns `None` if another thread has it.
    fn lend(&self) -> Option<Remembered>
        ensures { IfSome result (λ remembered. remembered ≡ self.now) }
    {
        let (found, claim) = self.slot.turn(FREE, TAKEN);
        if found != FREE {
            claim.done();
            return None;
        }
        claim.put(None, LENT)
    }

    /// Takes back what was lent.
    fn take_back(&self, remembered: Remembered)
        requires { remembered ≡ self.now }
    {
        let (found, claim) = self.slot.turn(LENT, TAKEN);
        if found != LENT {
            claim.done();
            return;
        }
        claim.put(Some(remembered), FREE);
    }
}
