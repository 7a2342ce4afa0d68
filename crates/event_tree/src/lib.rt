//! Event trees of interval tree clocks (Almeida, Baquero and Fonte 2008): how much has happened at each point.
//!
//! Use it to keep what an event knows, to join it with what another event knows, and to compare the two.
//!
//! The law that carries it: a join has at each point the greater value. An event lowers no value, and raises at least
//! one, at points of its id alone. An [`EvTree`] is always normal. [`EvTree::order`] compares the values at every point,
//! and [`EvTree::join`] and [`EvTree::event`] give exactly the trees of the published tables. In `trace_types`,
//! `specs/clock/EventTree.antt` defines the trees and their values, and `Norm.antt` beside it the normal form.
//! `Join.antt`, `Fill.antt`, `Grow.antt` and `Event.antt` there have the tables. `specs/Comparison.antt` here defines the
//! order, and [`laws`] says what all this means point by point.
//!
//! ```
//! use event_tree::EvTree;
//! use id_tree::IdTree;
//! use trace_types::Order;
//!
//! let (first, second) = IdTree::one().split(alloc)?;
//! let start = EvTree::leaf(0);
//! let left = EvTree::event(alloc, &first, &start)?;
//! let right = EvTree::event(alloc, &second, &start)?;
//! assert_eq!(rt; left.order(&right), Order::Concurrent);
//! let both = left.join(alloc, &right)?;
//! assert_eq!(rt; left.order(&both), Order::Before);
//! assert_eq!(rt; both.max(), 1);
//! ```
#![tactic(auto)]

mod ev_tree;
pub mod laws;
mod path;
mod point;

pub use ev_tree::{EvTree, Parts};
pub use path::Path;
pub use point::{Point, RaisedPoint};
