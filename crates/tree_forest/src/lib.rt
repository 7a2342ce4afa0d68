//! Forests: tables that keep equal values once for many threads, and name each kept value by a number.
//!
//! Use one to compare many trees again and again, since two numbers are compared in one step. [`Forest`] keeps ids and
//! event trees, and any other [`Shape`].
//!
//! The contract that carries it: [`Forest::intern`] gives a [`Tree`] with the very value that was asked for. Two trees of
//! one forest with one number have one value ([`Tree::same_number`]). Equal values may have two numbers, if two threads
//! intern them at once or if another value has their digest. `specs/Kept.antt` defines what a clause sees of a tree, and
//! when a tree is of a forest.
//!
//! ```
//! use event_tree::EvTree;
//! use tree_forest::Forest;
//!
//! let forest = Forest::new(alloc)?;
//! let first = forest.intern(&rt, &EvTree::leaf(7))?;
//! let again = forest.intern(&rt, &EvTree::leaf(7))?;
//! let other = forest.intern(&rt, &EvTree::leaf(8))?;
//! assert_eq!(rt; first.number(), again.number());
//! assert!(rt; first.number() != other.number());
//! assert_eq!(rt; other.value().max(), 8);
//! ```
#![tactic(auto)]

mod forest;
mod home;
mod mark;
mod shape;
mod stamp_shapes;
mod tree;

pub use forest::Forest;
pub use home::Home;
pub use mark::Mark;
pub use shape::Shape;
pub use tree::Tree;
