//! What stays the same of a cache.
ghost use Rattle.std.specs.Prelude.{◌≡◌};
ghost use Rattle.std.specs.NonZero.{non_zero_usize_get};

use std::marker::Model;
use std::num::NonZeroUsize;
use tree_forest::Home;

/// Of which forest a cache compares trees, and how many comparisons it has room for. A cache is made by it.
#[derive(Drop)]
pub(crate) struct Extent {
    home: Home,
    capacity: NonZeroUsize,
}

impl Model for Extent {
    ghost use Rattle.std.specs.NonZero.{non_zero_usize_get};
    ghost use Rattle.order_cache.specs.Caches.{Cache};

    ghost Value = { Cache };

    ghost view = { λ e. record { home = e.home; capacity = non_zero_usize_get e.capacity } };
}

impl Extent {
    /// A cache of this capacity, for trees of the forest of this home.
    pub(crate) fn of(home: Home, capacity: NonZeroUsize) -> Extent
        ensures home { result.home ≡ home }
        ensures capacity { result.capacity ≡ non_zero_usize_get capacity }
    {
        Extent { home, capacity }
    }

    /// The home of the forest.
    pub(crate) fn home(&self) -> Home
        ensures { result ≡ self.now.home }
    {
        self.home.again()
    }

    /// How many comparisons there is room for.
    pub(crate) fn capacity(&self) -> NonZeroUsize
        ensures { non_zero_usize_get result ≡ self.now.capacity }
    {
        self.capacity
    }
}
