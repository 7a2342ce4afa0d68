//! Comparisons of two trees.
ghost use Rattle.std.specs.Prelude.{◌≡◌, IfSome};
ghost use Rattle.event_tree.specs.Comparison.{StandsAs};
ghost use Rattle.tree_forest.specs.Kept.{IsOf};

use event_tree::EvTree;
use std::marker::Model;
use trace_types::Order;
use tree_forest::{Forest, Mark, Tree};

/// The marks of two trees of one forest, and how the first stands to the second. A clause sees the forest's home.
#[derive(Drop)]
pub(crate) struct Compared {
    first: Mark<EvTree>,
    second: Mark<EvTree>,
    order: Order,
}

impl Model for Compared {
    ghost use Rattle.std.specs.Prelude.{◌≡◌, ℕ, List};
    ghost use Rattle.event_tree.specs.Comparison.{StandsAs};

    ghost Value = { List ℕ };

    ghost view = { λ c. c.first.home };

    ghost invariant = { λ c. (c.second.home ≡ c.first.home) × StandsAs c.order c.first.value c.second.value };
}

impl Compared {
    /// Keeps what a comparison of two trees of one forest gave.
    pub(crate) fn of(first: &Tree<EvTree>, second: &Tree<EvTree>, order: Order) -> Compared
        requires home { second.now.home ≡ first.now.home }
        requires order { StandsAs order first.now.value second.now.value }
        ensures { result ≡ first.now.home }
    {
        Compared {
            first: first.mark().again(),
            second: second.mark().again(),
            order,
        }
    }

    /// The numbers of the two trees, in the order in which they were compared.
    pub(crate) fn key(&self) -> (u64, u64) {
        (self.first.number(), self.second.number())
    }

    /// How the two trees stand to each other, or `None` if others were compared. The numbers of the trees decide which
    /// they are.
    pub(crate) fn order_of(
        &self,
        forest: &Forest<EvTree>,
        first: &Tree<EvTree>,
        second: &Tree<EvTree>,
    ) -> Option<Order>
        requires row { self.now ≡ forest.now }
        requires first { IsOf forest.now first.now }
        requires second { IsOf forest.now second.now }
        ensures { IfSome result (λ order. StandsAs order first.now.value second.now.value) }
    {
        if self.first.number() != first.number() || self.second.number() != second.number() {
            return None;
        }
        self.first.same_number(forest, first.mark());
        self.second.same_number(forest, second.mark());
        Some(self.order)
    }
}
