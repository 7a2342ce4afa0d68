//! The words of the trace collector: names, limits, requests, rows and replies of one tenant. Its `specs/` define what
//! all contracts of the other crates say.
//!
//! Use it in a crate that takes a tenant's requests or gives replies. Read its `specs/` to check what a contract means.
//!
//! Its contract is a set of definitions in four folders of `specs/`. `clock` has ids, event trees and the clock that they
//! make. `tenant` has what a tenant alone is due, `text` how lines are read and written, and `world` what many tenants
//! are due. The laws in [`laws`] say that the definitions mean what they should. For example, an event is found by
//! walking back from another exactly if a path of predecessors leads there.
//!
//! ```
//! use trace_types::{Code, Limits, Name, Request};
//!
//! let message = Name::read(b"m_1").ok_or("no name")?;
//! assert!(rt; Name::read(b"two words").is_none());
//! assert!(rt; Request::Send(Name::root(), message).is_report());
//! assert!(rt; !Request::Cut(7).is_report());
//! assert!(rt; Limits::read(16385, 1, 1).is_none());
//! assert_eq!(rt; Code::AlreadyReceived.number(), 407);
//! ```
#![tactic(auto)]

mod code;
mod digest;
pub mod laws;
mod limits;
mod memory;
mod name;
mod numbers;
mod order;
mod preds;
mod receipts;
mod reply;
mod request;
mod row;
mod task_state;
mod tenant_names;
mod text;
mod world_fault;

pub use code::Code;
pub use digest::digest_of_both;
pub use limits::Limits;
pub use memory::Memory;
pub use name::Name;
pub use numbers::Numbers;
pub use order::Order;
pub use preds::Preds;
pub use receipts::Receipts;
pub use reply::Reply;
pub use request::{Reported, Request};
pub use row::{Kind, Row};
pub use task_state::TaskState;
pub use tenant_names::TenantNames;
pub use text::Text;
pub use world_fault::WorldFault;
