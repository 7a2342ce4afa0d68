//! A share that keeps the ids and trees of all tenants together.
ghost use Rattle.std.specs.Prelude.{◌≡◌, ◌≢◌, ◌↔◌, ◌≤◌, IfErr, IfOk, IfSome, IsErrOf, IsTrue};
ghost use Rattle.trace_types.specs.clock.EventTree.{value};
ghost use Rattle.order_cache.specs.Capacity.{IsCapacity};

use crate::{Keep, Share};
use event_tree::{EvTree, RaisedPoint};
use id_tree::IdTree;
use order_cache::{CacheFault, OrderCache};
use std::alloc::Global;
use std::sync::{Arc, Wait};
use trace_query::{Compare, Earlier};
use trace_types::{Memory, Order, WorldFault};
use tree_forest::{Forest, Home, Tree};

/// Keeps the ids and trees of all tenants, each once, and remembers how the last pairs of trees stood to each other.
///
/// A thread that keeps a tree waits for threads in the same map, for one step of the map. A thread that compares two
/// trees waits for nobody.
#[derive(Drop)]
pub struct Shared {
    ids: Forest<IdTree>,
    trees: Forest<EvTree>,
    orders: OrderCache,
    ghost one_home: { orders.home ≡ trees },
}

impl Shared {
    /// A share without ids and trees, whose cache remembers at most `capacity` pairs of trees.
    ///
    /// Returns `Capacity` if the capacity is outside 1 to 65536, else `Memory` if it runs out of memory.
    pub fn new(alloc: Global, capacity: u64) -> Result<Shared, CacheFault>
        ensures capacity { IsErrOf result CacheFault.Capacity ↔ (¬ IsCapacity capacity) }
        ensures room { IfOk result (λ shared. shared.orders.capacity ≡ capacity) }
    {
        if !OrderCache::takes(capacity) {
            return Err(CacheFault::Capacity);
        }
        let trees = Forest::new(alloc)?;
        let orders = OrderCache::new(alloc, capacity, &trees)?;
        Ok(Shared {
            ids: Forest::new(alloc)?,
            trees,
            orders,
        })
    }

    /// A share that all tenants own together, as [`Shared::new`] makes it.
    ///
    /// Returns `Capacity` if the capacity is outside 1 to 65536, else `Memory` if it runs out of memory.
    pub fn by_all(alloc: Global, capacity: u64) -> Result<Arc<Shared>, WorldFault>
        ensures capacity { IsErrOf result WorldFault.Capacity ↔ (IsCapacity capacity → ⊥) }
        ensures names { IfErr result (λ fault. fault ≢ WorldFault.Names) }
        ensures room { IfOk result (λ shared. shared.value.orders.capacity ≡ capacity) }
    {
        match Shared::new(alloc, capacity) {
            Ok(shared) => Arc::new(alloc, shared).map_err(|_| WorldFault::Memory),
            Err(CacheFault::Capacity) => Err(WorldFault::Capacity),
            Err(CacheFault::Memory) => Err(WorldFault::Memory),
        }
    }

    /// The home of the event trees. It has no bytes.
    pub fn home(&self) -> Home
        ensures { result ≡ ⟦<Shared as Keep>⟧.home self.now }
    {
        Home::of(&self.trees)
    }

    /// How often the cache answered a comparison, for the operator alone.
    pub fn hits(&self) -> u64 {
        self.orders.hits()
    }
}

impl Keep for Shared {
    type Kept = Tree<EvTree>;

    type Id = Tree<IdTree>;

    ghost home = { λ shared. shared.trees };

    ghost home_of = { λ tree. tree.home };

    ghost compares = { λ _ _ is. is };
}

/// Compares the trees that it keeps, by the cache. It waits for nobody.
impl Compare<Tree<EvTree>> for Shared {
    ghost use Rattle.tree_forest.specs.Kept.{IsOf};

    ghost admits = { λ shared tree. IsOf shared.trees tree };

    fn order(&self, first: &Tree<EvTree>, second: &Tree<EvTree>) -> Order {
        self.orders.order(&self.trees, first, second)
    }

    /// By the cache for the first questions, and where the point does not tell it within few levels.
    #[inline(always)]
    fn order_at(
        &self,
        deciding: &RaisedPoint,
        earlier: Earlier,
        first: &Tree<EvTree>,
        second: &Tree<EvTree>,
    ) -> Order {
        if self.orders.is_at_first_asks() {
            return self.order(first, second);
        }
        let (later, standing) = match earlier {
            Earlier::First => (second, Order::Before),
            Earlier::Second => (first, Order::After),
        };
        match is_below_within(deciding, later) {
            Some(true) => standing,
            Some(false) => Order::Concurrent,
            None => self.order(first, second),
        }
    }
}

/// A walk of so many levels takes less time than a look-up.
const FEW_LEVELS: u64 = 16;

/// Whether the tree has the value at the point, if few levels tell it.
#[inline(always)]
fn is_below_within(deciding: &RaisedPoint, tree: &Tree<EvTree>) -> Option<bool>
    ensures { IfSome result (λ is. IsTrue is ↔ (deciding.now.value ≤ value tree.now.value deciding.now.point)) }
{
    tree.value()
        .is_at_least_within(&deciding.point, deciding.value, FEW_LEVELS)
}

impl<R: Wait> Share<R> for Shared {
    fn keep_id(&self, rt: &R, id: IdTree) -> Result<Tree<IdTree>, Memory> {
        self.ids.intern(rt, &id)
    }

    fn keep_tree(&self, rt: &R, tree: EvTree) -> Result<Tree<EvTree>, Memory> {
        self.trees.intern(rt, &tree)
    }
}
