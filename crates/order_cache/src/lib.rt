//! A cache of comparisons of event trees, which threads share.
//!
//! Use it if pairs of trees of one forest are compared again and again. It never refuses and never waits.
//!
//! The contract that carries it: [`OrderCache::order`] says how the two trees stand to each other, as `event_tree`
//! defines it. A remembered comparison is the answer only for the very two trees that were compared, in that order. All
//! others are compared.
//!
//! The cache remembers only what costs more than a lookup. Trees whose least and greatest values decide are compared at
//! once. After some hundred asks, so are trees that a short walk decides. If many lookups in a row find nothing, most
//! pairs are compared at once, until a lookup finds one again.
//!
//! ```
//! use event_tree::EvTree;
//! use order_cache::OrderCache;
//! use trace_types::Order;
//! use tree_forest::Forest;
//!
//! let forest = Forest::new(alloc)?;
//! let cache = OrderCache::new(alloc, 1024, &forest)?;
//! let left = EvTree::fork(alloc, 0, EvTree::leaf(1), EvTree::leaf(0))?;
//! let right = EvTree::fork(alloc, 0, EvTree::leaf(0), EvTree::leaf(1))?;
//! let left = forest.intern(&rt, &left)?;
//! let right = forest.intern(&rt, &right)?;
//! assert_eq!(rt; cache.order(&forest, &left, &right), Order::Concurrent);
//! assert_eq!(rt; cache.hits(), 0);
//! assert_eq!(rt; cache.order(&forest, &left, &right), Order::Concurrent);
//! assert_eq!(rt; cache.hits(), 1);
//! ```
#![tactic(auto)]

mod cache;
mod compared_pair;
mod home_and_capacity;
mod remembered;

pub use cache::{CacheFault, OrderCache};
