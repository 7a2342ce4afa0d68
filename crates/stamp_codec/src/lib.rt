//! Stamps of interval tree clocks (Almeida, Baquero and Fonte 2008), and their text.
//!
//! Use it in a program that stamps its events by itself, or to read and write the stamps of exports.
//!
//! The contract that carries it: [`read_stamp`] gives the stamp that a text spells, or the first fault and its place.
//! [`read_stamp_beside`] gives the same, and shares what it can with a tree that is there already. [`write_stamp`] gives
//! the one text of a stamp, and [`strip_parts`] looks for it at the front of bytes. By the laws in [`laws`] a text spells
//! one stamp at most, and a stamp survives being written and read. `specs/StampText.antt` has the grammar,
//! `specs/Faults.antt` the faults with their places, `specs/Reading.antt` what reading gives, and `specs/Stamp.antt` the
//! operations.
//!
//! ```
//! use stamp_codec::{Stamp, StampFault, read_stamp, read_stamp_beside, strip_parts, write_stamp};
//! use trace_types::Order;
//!
//! let (left, right) = Stamp::seed().fork(alloc)?;
//! let left = left.event(alloc)?;
//! let right = right.event(alloc)?;
//! assert_eq!(rt; left.tree.order(&right.tree), Order::Concurrent);
//! let joined = left.join(alloc, &right)?;
//! assert_eq!(rt; left.tree.order(&joined.tree), Order::Before);
//! assert_eq!(rt; write_stamp(alloc, &joined)?.as_slice(), b"[1;1]".as_slice());
//! assert!(rt; strip_parts(b"[1;1]\n", &joined.id, &joined.tree).is_some_and(|rest| rest.len() == 1));
//! assert!(rt; strip_parts(b"[1;12]", &joined.id, &joined.tree).is_none());
//! assert!(rt; read_stamp(alloc, b"[1;1]")?.tree.same(&joined.tree));
//! assert!(rt; read_stamp_beside(alloc, b"[1;1]", &left.tree)?.tree.same(&joined.tree));
//! assert!(rt; read_stamp(alloc, b"[(1,1);1]").err() == Some(StampFault::NotNormal(1)));
//! ```
#![tactic(auto)]

pub use reading::{StampFault, read_stamp, read_stamp_beside};
pub use spelling::{TakeBytes, spell_parts};
pub use stamp::Stamp;
pub use stripping::strip_parts;
pub use writing::{write_parts, write_stamp};

mod bounds;
mod child;
mod cursor;
mod depth;
mod first_fault;
pub mod laws;
mod one_pass;
mod reading;
mod scan;
mod sharing;
mod spelling;
mod stamp;
mod stripping;
mod taking;
mod writing;
