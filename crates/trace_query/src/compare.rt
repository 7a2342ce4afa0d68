//! Comparisons of kept trees.
ghost use Rattle.std.specs.Prelude.{◌↔◌, IsTrue};
ghost use Rattle.event_tree.specs.Comparison.{IsBelow, StandsAs};
ghost use Rattle.trace_query.specs.Deciding.{IsDeciding, IsToldAt};

use crate::Meant;
use event_tree::RaisedPoint;
use std::sync::Arc;
use trace_types::Order;

/// Which of two events is the earlier one.
#[derive(Clone, Copy, Debug)]
pub enum Earlier {
    First,
    Second,
}

/// A way to order kept trees. It may hold what it needs for that, as a cache. Each call is one comparison, and takes no memory.
pub trait Compare<K: Meant> {
    // whether it may be asked about this kept tree
    ghost admits: { Self → K → Type 0 };

    /// How the tree of `first` stands to that of `second`.
    fn order(&self, first: &K, second: &K) -> Order
        requires first { admits self.now first.now }
        requires second { admits self.now second.now }
        ensures { StandsAs result (K.tree first.now) (K.tree second.now) };

    /// Whether the tree of `first` is below that of `second`. Both trees are compared, one way.
    #[inline(always)]
    fn is_below(&self, first: &K, second: &K) -> bool
        requires first { admits self.now first.now }
        requires second { admits self.now second.now }
        ensures { IsTrue result ↔ IsBelow (K.tree first.now) (K.tree second.now) }
    {
        first.tree_value().leq(second.tree_value())
    }

    /// Whether the tree of `first` is below that of `second`, by one value. The point decides it, at which `first` has this value.
    #[inline(always)]
    fn is_below_at(&self, deciding: &RaisedPoint, first: &K, second: &K) -> bool
        requires first { admits self.now first.now }
        requires second { admits self.now second.now }
        requires decided { IsDeciding deciding.now (K.tree first.now) (K.tree second.now) }
        ensures { IsTrue result ↔ IsBelow (K.tree first.now) (K.tree second.now) }
    {
        second
            .tree_value()
            .is_at_least(&deciding.point, deciding.value)
    }

    /// How the tree of `first` stands to that of `second`, by one value. The point decides whether the tree of the earlier
    /// event, which has this value there, is below that of the later one. That of the later one is not below it.
    #[inline(always)]
    fn order_at(&self, deciding: &RaisedPoint, earlier: Earlier, first: &K, second: &K) -> Order
        requires first { admits self.now first.now }
        requires second { admits self.now second.now }
        requires told { IsToldAt earlier deciding.now (K.tree first.now) (K.tree second.now) }
        ensures { StandsAs result (K.tree first.now) (K.tree second.now) }
    {
        match earlier {
            Earlier::First => {
                if self.is_below_at(deciding, first, second) {
                    Order::Before
                } else {
                    Order::Concurrent
                }
            }
            Earlier::Second => {
                if self.is_below_at(deciding, second, first) {
                    Order::After
                } else {
                    Order::Concurrent
                }
            }
        }
    }
}

/// Compares as what is behind it does.
impl<K: Meant, C: Compare<K>> Compare<K> for Arc<C> {
    ghost use Rattle.std.specs.Arc.{arc_value};

    ghost admits = { λ compare kept. C.admits (arc_value compare) kept };

    #[inline(always)]
    fn order(&self, first: &K, second: &K) -> Order {
        C::order(self, first, second)
    }

    #[inline(always)]
    fn is_below(&self, first: &K, second: &K) -> bool {
        C::is_below(self, first, second)
    }

    #[inline(always)]
    fn is_below_at(&self, deciding: &RaisedPoint, first: &K, second: &K) -> bool {
        C::is_below_at(self, deciding, first, second)
    }

    #[inline(always)]
    fn order_at(&self, deciding: &RaisedPoint, earlier: Earlier, first: &K, second: &K) -> Order {
        C::order_at(self, deciding, earlier, first, second)
    }
}
