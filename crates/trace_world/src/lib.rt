//! All tenants on one thread, and the replay of their lines.
//!
//! Use it to answer a stream of lines of many tenants, or to write the export of one of them.
//!
//! The law that carries it is tenant isolation. A tenant gets the replies that its own requests alone give, whatever the
//! other tenants ask and however all are mixed. It holds of steps ([`World::step`], [`World::take`]) and of bytes
//! ([`replay`]). [`laws::isolation`] and [`laws::isolation_in_bytes`] say what it comes to. [`replay_export`] writes the
//! export of what one tenant's own requests leave, in place of replies. The words are defined in `Interleaving`, `Replay`
//! and `World` of `trace_types`, and in `Replayed` and `Exported` of this crate's `specs/`.
//!
//! ```
//! use trace_types::{Limits, Name};
//! use trace_world::{World, replay_bytes};
//!
//! let names = [Name::read(b"x").ok_or("no name")?, Name::read(b"y").ok_or("no name")?];
//! let mut world = World::new(alloc, &names, Limits::default(), 1024)?;
//! let lines = b"x local root\ny local root\nx local root\nx order 1 2\nz count\n".as_slice();
//! let written = replay_bytes(&rt, alloc, &mut world, lines)?;
//! let due = b"x 201 1\ny 201 1\nx 201 2\nx 200 before\n? 420 no tenant\n".as_slice();
//! assert!(rt; written.as_slice() == due);
//! ```
#![tactic(auto)]

mod counts;
mod export_replay;
pub mod laws;
mod ledger_stamps;
mod line_answer;
mod replaying;
mod replaying_bytes;
mod world;

pub use counts::Counts;
pub use export_replay::replay_export;
pub use line_protocol::StreamFault as ReplayFault;
pub use replaying::replay;
pub use replaying_bytes::replay_bytes;
pub use world::World;
