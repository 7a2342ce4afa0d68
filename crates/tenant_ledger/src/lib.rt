//! One tenant by itself: it takes reports, keeps their rows, and answers queries.
//!
//! Use it in a program that orders its own events, with no lines and no other tenants. It needs no runtime unless its
//! share takes a lock.
//!
//! The law that carries it is the clock theorem ([`laws::clock`]): comparing what two events know gives exactly their
//! order in the graph of events. The contract of [`Ledger::report`] speaks of the reply and of the rows afterwards. They
//! are one step of the tenant alone (`Steps` of `trace_types`), or the request ran out of memory and changed nothing.
//! Contracts see a [`Ledger`] as the tenant's limits and accepted rows. Every query is answered by [`answer`], from
//! the [`Book`] of a tenant.
//!
//! ```
//! use tenant_ledger::Ledger;
//! use trace_types::{Limits, Name, Order, Reply, Request};
//!
//! let mut ledger = Ledger::new(alloc, Limits::default())?;
//! let (root, task) = (Name::root(), Name::read(b"a").ok_or("no name")?);
//! assert_eq!(rt; ledger.report(&rt, &Request::Spawn(root, task)), Reply::Accepted(1));
//! assert_eq!(rt; ledger.report(&rt, &Request::Local(task)), Reply::Accepted(2));
//! assert_eq!(rt; ledger.report(&rt, &Request::Local(root)), Reply::Accepted(3));
//! let order = ledger.report(&rt, &Request::Order(2, 3));
//! assert_eq!(rt; order, Reply::Ordering(Order::Concurrent));
//! let (tree, id) = (ledger.tree(2).ok_or("no event")?, ledger.id(2).ok_or("no event")?);
//! assert!(rt; tree.inner() == 1 && id.inner() == 1);
//! assert!(rt; ledger.tree(4).is_none() && ledger.id(4).is_none());
//! ```
#![tactic(auto)]

mod book;
pub mod laws;
mod ledger;
mod packed_id;
mod packed_share;
mod plain_share;
mod prepared;
mod query_answers;
mod share;
mod shared;
mod stack;

pub use book::{Book, Draft};
pub use ledger::Ledger;
pub use packed_id::PackedId;
pub use packed_share::PackedShare;
pub use plain_share::PlainShare;
pub use prepared::Prepared;
pub use query_answers::{answer, counts_of, order_of};
pub use share::{IdValue, Keep, KeptId, MeantId, Share};
pub use shared::Shared;
pub use stack::Stack;
