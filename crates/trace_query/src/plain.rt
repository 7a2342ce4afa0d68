//! Comparisons of kept trees by their values.

use crate::{Compare, Meant};
use trace_types::Order;

/// Compares any two kept trees by their values. It holds nothing and never waits.
#[derive(Clone, Copy, Debug)]
pub struct Plain;

impl<K: Meant> Compare<K> for Plain {
    ghost admits = { λ _ _. Unit {0} };

    fn order(&self, first: &K, second: &K) -> Order {
        first.tree_value().order(second.tree_value())
    }
}
