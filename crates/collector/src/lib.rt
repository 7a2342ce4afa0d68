//! What the program does with its words, over any reader and writers.
//!
//! Use it to run the program with other streams than the standard ones.
//!
//! The contract that carries it is that of [`run`], the definition `Runs` in `specs/`. It says what was done by the
//! contracts of `replay` and `replay_export` of `trace_world`, of `check_at_exit` and `load_at_exit` of `trace_export`,
//! and of `TcpDoor` of `tcp_door`. What words ask for is defined in `Demand` and `Reading` of `command_line`.
//!
//! ```
//! use collector::run;
//! use line_protocol::{FromReader, IntoWriter};
//!
//! let mut reader = FromReader::new(b"x local root\nx count\n".as_slice());
//! let mut writer = IntoWriter::new(Vec::new(alloc));
//! let mut errors = IntoWriter::new(Vec::new(alloc));
//! let status = run(&rt, &["replay", "x"], &mut reader, &mut writer, &mut errors);
//! assert_eq!(rt; status, 0);
//! assert!(rt; writer.into_inner().as_slice() == b"x 201 1\nx 200 1 1 0\n".as_slice());
//! assert!(rt; errors.into_inner().is_empty());
//! ```
#![tactic(auto)]

mod check;
mod fault;
mod load;
mod program;
mod replay;
mod serve;
mod show;

pub use fault::Fault;
pub use program::run;
