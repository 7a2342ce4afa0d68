//! Ids of interval tree clocks (Almeida, Baquero and Fonte 2008): which points a task owns.
//!
//! Use it to divide the points among tasks that come and go. A task that starts another splits its id. A task that joins
//! another sums both ids.
//!
//! The law that carries it: exactly one part of a split owns a point that the whole owned, and no part owns another one.
//! A sum owns what either id owned. An [`IdTree`] is always normal, and `split` and `sum` give exactly the ids of the
//! published tables. In `trace_types`, `specs/clock/Id.antt` says which points an id owns, and
//! `specs/clock/IdOperations.antt` has the tables. [`laws`] says what they mean point by point.
//!
//! ```
//! use id_tree::IdTree;
//!
//! let (first, second) = IdTree::one().split(alloc)?;
//! assert!(rt; first.disjoint(&second));
//! let (third, fourth) = second.split(alloc)?;
//! let most = first.sum(alloc, &third)?;
//! assert!(rt; most.disjoint(&fourth));
//! assert!(rt; !most.is_one());
//! assert!(rt; most.sum(alloc, &fourth)?.is_one());
//! ```
#![tactic(auto)]

pub use id_tree::{IdTree, Parts};

mod id_tree;
pub mod laws;
