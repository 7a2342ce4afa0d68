//! One tenant over threads: a desk takes its reports, and up to eight views answer beside the desk.
//!
//! Use it if other threads are to ask about events while reports come in. A view waits for nobody.
//!
//! The contract that carries it: [`Desk::call`] is one step of the tenant alone, or it runs out of memory and changes
//! nothing. When it returns, all accepted rows are published. [`View::ask`] answers as the tenant is due at a legal list
//! of rows. A view never goes back: that list begins with every list that the view saw or was told of. A view that
//! learned what the desk tells ([`Desk::tell`]) answers at all rows that were accepted by then. `specs/Views.antt` and
//! `specs/Desks.antt` define what contracts see of both.
//!
//! ```
//! use std::sync::Arc;
//! use tenant_desk::desk_and_views;
//! use tenant_ledger::Shared;
//! use trace_types::{Limits, Name, Reply, Request};
//!
//! let shared = Arc::new(alloc, Shared::new(alloc, 1024)?)?;
//! let (mut desk, mut views) = desk_and_views(&rt, alloc, Limits::default(), shared)?;
//! let reply = desk.call(&rt, &Request::Local(Name::root()));
//! let seen = views.view().map(|mut view| view.ask(&Request::Count));
//! desk.close(&rt);
//! assert_eq!(rt; reply, Reply::Accepted(1));
//! assert!(rt; seen == Some(Reply::Count(1, 1, 0)));
//! ```
#![tactic(auto)]

mod desk;
mod learned_lists;
mod published;
mod published_answer;
mod publisher;
mod publishing_rule;
mod row_log;
mod stamp_parts;
mod told_rows;
mod view;
mod views;

pub use desk::{Desk, desk_and_views, named_desk_and_views};
pub use told_rows::Told;
pub use view::View;
pub use views::Views;
