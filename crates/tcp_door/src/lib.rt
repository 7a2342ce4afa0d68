//! Connections over TCP, as a door for sessions.
//!
//! Use it to serve programs on the same machine: [`TcpDoor`] listens on 127.0.0.1 alone.
//!
//! The contract that carries it is that of `Door` of `trace_session`, by the numbers that it keeps. They are how many
//! connections it gave, which are no more than it was opened for, and whether it failed. Nothing is said of what comes
//! over a connection.
//!
//! ```
//! use std::net::{Ipv4Addr, TcpStream};
//! use tcp_door::TcpDoor;
//! use trace_session::Door;
//!
//! let mut ports = 40000u16..41000;
//! let opened = ports.find_map(|port| Some((TcpDoor::open(&rt, alloc, port, 1).ok()?, port)));
//! let (mut door, port) = opened.ok_or("no free port")?;
//! let _client = TcpStream::connect(&rt, (Ipv4Addr::LOCALHOST, port))?;
//! assert!(rt; door.accept(&rt)?.is_some());
//! assert!(rt; door.accept(&rt)?.is_none());
//! ```
#![tactic(auto)]

mod half;
mod place;
mod tcp_door;

pub use half::Half;
pub use tcp_door::{DoorRefusal, TcpDoor};
