//! Replies that give a stamp, spelled from its id and its tree into what they are written to.
//!
//! Use it to answer `stamp` from trees that are kept, with no text of the stamp between. It asks for no memory.
//!
//! The contract that carries it: [`write_stamp_reply`] writes exactly the line of the reply that has the text of the
//! stamp, or a front of it at a fault, as `write_reply` of `line_protocol` does with that text.
//!
//! ```
//! use event_tree::EvTree;
//! use id_tree::IdTree;
//! use line_protocol::IntoWriter;
//! use stamp_reply::write_stamp_reply;
//!
//! let (id, tree) = (IdTree::one(), EvTree::leaf(3));
//! let mut writer = IntoWriter::new(Vec::new(alloc));
//! assert!(rt; write_stamp_reply(&mut writer, &id, &tree).is_ok());
//! assert!(rt; writer.into_inner().as_slice() == b"200 [1;3]\n".as_slice());
//! ```
#![tactic(auto)]

mod chunk;
mod chunk_writer;
mod reply;

pub use reply::{write_stamp_answer, write_stamp_reply};
