//! Sessions: each reports to the desk of one tenant or asks one of its views, line by line.
//!
//! Use it to serve clients over connections of any kind. A [`Door`] gives the connections, a [`Hub`] has the desks and
//! views of all tenants, and [`serve`] holds sessions at once.
//!
//! The contract that carries it: [`report_lines`] and [`view_lines`] answer the first lines that were read in turn, each
//! as the desk takes its request or as the view answers it. Exactly these replies are written, a line each, or a prefix
//! of them at a fault. [`laws::reports_run`] says that a session that reports gives the replies of a run from the rows of
//! its desk. [`session`] is held with a desk or a view of the tenant that its first line names. The rows of all that a
//! tenant lends stand in one log, which the hub keeps for that tenant. [`laws::tenants_have_their_own_logs`] says that no
//! other tenant of the hub has that log. [`witnessed_session`] also gives a [`Witness`] of the rows of the log with which the
//! session began, and of those with which it ended.
//!
//! ```
//! use line_protocol::{FromReader, IntoWriter};
//! use trace_session::{Connection, Hub, OpenGate, SessionEnd, session};
//! use trace_types::{Limits, Name};
//!
//! let names = [Name::read(b"x").ok_or("no name")?];
//! let reader = FromReader::new(b"report x\nlocal root\ncount\nquit\n".as_slice());
//! let writer = IntoWriter::new(Vec::new(alloc));
//! let mut connection = Connection { reader, writer, number: 1 };
//! let hub = Hub::new(&rt, alloc, &names, Limits::default(), 1024)?;
//! let end = session(&rt, alloc, &hub, &mut connection, &OpenGate);
//! hub.close(&rt);
//! assert!(rt; end == Ok(SessionEnd::Quit));
//! assert!(rt; connection.writer.into_inner().as_slice() == b"201 1\n200 1 1 0\n".as_slice());
//! ```
#![tactic(auto)]

mod desk_or_view;
mod door;
mod gate;
mod hub;
mod hub_session;
pub mod laws;
mod output;
mod owner;
mod queue;
mod serving;
mod session_end;
mod session_lines;
mod shelf;
mod shelf_contents;
mod tenant;
mod witness;

pub use door::{Door, DoorFault};
pub use gate::{Gate, OpenGate};
pub use hub::Hub;
pub use hub_session::{Connection, session, witnessed_session};
pub use serving::{ServeCounts, ServeFault, serve};
pub use session_end::{SessionEnd, SessionFault};
pub use session_lines::{report_lines, view_lines};
pub use witness::Witness;
