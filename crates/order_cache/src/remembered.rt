//! Remembered comparisons.
ghost use Rattle.std.specs.Prelude.{◌≡◌, IfOk, IfSome};
ghost use Rattle.event_tree.specs.Comparison.{StandsAs};
ghost use Rattle.tree_forest.specs.Kept.{IsOf};

use crate::compared_pair::Compared;
use crate::home_and_capacity::Extent;
use counted_slot::Fits;
use event_tree::EvTree;
use lru::LruCache;
use std::alloc::{AllocError, Global};
use std::marker::Model;
use trace_types::Order;
use tree_forest::{Forest, Home, Tree};

/// The comparisons that were used last, by the numbers of their trees. A clause sees the home of their forest, and how
/// many the map has room for.
///
/// The map is behind a pointer, so lending it moves two words.
#[derive(Drop)]
pub(crate) struct Remembered {
    rows: Box<LruCache<(u64, u64), Compared>>,
    home: Home,
}

impl Model for Remembered {
    ghost use Rattle.order_cache.specs.Caches.{Cache};
    ghost use Rattle.order_cache.specs.Rows.{AreOf};

    ghost Value = { Cache };

    ghost view = { λ r. record { home = r.home; capacity = r.rows.value.cap } };

    ghost invariant = { λ r. AreOf r.home r.rows.value.entries };
}

impl Fits for Remembered {
    ghost use Rattle.std.specs.Prelude.{◌≡◌};

    type Tag = Extent;

    ghost fits = { λ extent remembered. remembered ≡ extent };
}

impl Remembered {
    /// Nothing yet, with room for as many comparisons as the extent says. Returns `AllocError` if it runs out of memory.
    pub(crate) fn new(alloc: Global, extent: &Extent) -> Result<Remembered, AllocError>
        ensures { IfOk result (λ remembered. remembered ≡ extent.now) }
    {
        Ok(Remembered {
            rows: Box::new(alloc, LruCache::new(alloc, extent.capacity())?)?,
            home: extent.home(),
        })
    }

    /// How the two trees stand to each other, if that is remembered. The comparison then counts as used last.
    pub(crate) fn recall(
        &mut self,
        forest: &Forest<EvTree>,
        first: &Tree<EvTree>,
        second: &Tree<EvTree>,
    ) -> Option<Order>
        requires cache { self.old.home ≡ forest.now }
        requires first { IsOf forest.now first.now }
        requires second { IsOf forest.now second.now }
        ensures cache { self.new ≡ self.old }
        ensures order { IfSome result (λ order. StandsAs order first.now.value second.now.value) }
    {
        let key = (first.number(), second.number());
        self.rows.get(&key)?.order_of(forest, first, second)
    }

    /// Remembers this comparison, in place of the one used longest ago if there is no room. All stays as it was if it
    /// runs out of memory.
    pub(crate) fn remember(&mut self, compared: Compared)
        requires { compared ≡ self.old.home }
        ensures { self.new ≡ self.old }
    {
        let _ = self.rows.put(compared.key(), compared);
    }
}
