//! Exports: the trace of one tenant as lines of JSON, written, checked and loaded.
//!
//! Use it to hand a trace to another program, and to check or load a trace that comes from one.
//!
//! The contracts that carry it: [`export_rows`] writes exactly the lines of its rows, or a prefix of them at a fault.
//! [`check`] says yes only if every line is right. By [`laws::yes`] the stamps then agree with the listed edges: one
//! event's tree is nowhere above another's exactly if it reaches the other. `specs/Export.antt` defines what is written.
//! `specs/Verdict.antt` defines the verdict, by what each line lists (`specs/Listing.antt`) and by edges and trees
//! (`specs/Edges.antt`). `specs/Graph.antt` has what is kept of the lines so far.
//! [`load`] writes the requests that make the rows of an export from nothing, or tells the first line that no request
//! makes (`specs/Loading.antt`, `specs/Loads.antt`).
//!
//! ```
//! use line_protocol::FromReader;
//! use trace_export::{Reason, Verdict, check};
//!
//! let right = r#"{"event":1,"kind":"local","name":"-","preds":[],"stamp":"[1;1]","task":"root"}"#;
//! let verdict = check(alloc, &mut FromReader::new(right.as_bytes()))?;
//! assert_eq!(rt; verdict, Verdict::Yes(1));
//! let spoilt = r#"{"event":1,"kind":"local","name":"-","preds":[],"stamp":"[1;1","task":"root"}"#;
//! let verdict = check(alloc, &mut FromReader::new(spoilt.as_bytes()))?;
//! assert_eq!(rt; verdict, Verdict::No(1, Reason::Stamp));
//! ```
#![tactic(auto)]

mod bits;
mod chains;
mod check_fault;
mod checked;
mod checking;
mod event_line;
mod export_fault;
mod exporting;
mod follower;
mod graph;
mod header;
mod hints;
pub mod laws;
mod line_text;
mod loaded;
mod loading;
mod member;
mod placed;
mod read_line;
mod reason;
mod requests;
mod sides;
mod stamp_texts;
mod verdict;

pub use check_fault::CheckFault;
pub use checking::{check, check_at_exit};
pub use export_fault::ExportFault;
pub use exporting::export_rows;
pub use header::Header;
pub use line_protocol::StreamFault as LoadFault;
pub use loaded::Loaded;
pub use loading::{load, load_at_exit};
pub use reason::Reason;
pub use stamp_texts::StampTexts;
pub use verdict::Verdict;
