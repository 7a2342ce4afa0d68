//! Queries about the order of events, answered by comparing the event trees that are kept for them.
//!
//! Use it over any list of trees in which event k has the k-th, from 1. Nothing else of the events is known here, but
//! that [`cut`] takes the number of each event's task.
//!
//! The contract that carries it: [`order`], [`past`], [`concurrent_with`] and [`cut`] give exactly what
//! `specs/Queries.antt` defines over the list of trees, whatever trees they are. A [`Compare`] orders kept trees for
//! them: [`Plain`] does so by their values.
//!
//! [`order_by_points`], [`past_by_points`], [`concurrent_by_points`] and [`cut_by_points`] give the same, if no later
//! event's tree is below an earlier one's. They look at one value for each pair, if events have points that decide
//! (`specs/Deciding.antt`). Each comparison is a call of the [`Compare`].
//! [`laws`] says what the definitions mean.
//!
//! ```
//! use event_tree::EvTree;
//! use trace_query::{Plain, concurrent_with, cut, order, past};
//! use trace_types::Order;
//!
//! // Event 1 of one task, and then event 2 of this task and event 3 of another.
//! let left = EvTree::fork(alloc, 1, EvTree::leaf(1), EvTree::leaf(0))?;
//! let right = EvTree::fork(alloc, 1, EvTree::leaf(0), EvTree::leaf(1))?;
//! let trees = [EvTree::leaf(1), left, right];
//! assert_eq!(rt; order(&Plain, &trees, 2, 3)?, Order::Concurrent);
//! assert_eq!(rt; past(&Plain, alloc, &trees, 2)?.as_slice(), [1].as_slice());
//! assert_eq!(rt; concurrent_with(&Plain, alloc, &trees, 2)?.as_slice(), [3].as_slice());
//! assert_eq!(rt; cut(&Plain, alloc, &trees, &[0, 0, 1], 3)?.as_slice(), [1, 3].as_slice());
//! ```
#![tactic(auto)]

mod compare;
mod kept_tree;
pub mod laws;
mod plain;
mod queries;
mod queries_by_points;

pub use compare::{Compare, Earlier};
pub use kept_tree::Meant;
pub use plain::Plain;
pub use queries::{QueryFault, concurrent_with, cut, order, past};
pub use queries_by_points::{concurrent_by_points, cut_by_points, order_by_points, past_by_points};
