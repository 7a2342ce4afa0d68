//! Lines in, requests read from them, and replies out.
//!
//! Use it to read lines from any reader and to write replies to any writer, so that no failed call is passed over.
//!
//! The contract that carries it: the lines that a [`LineReader`] gives are the `lines` of what its source gave. A line
//! spells exactly the request that [`read_request`] finds in it. [`write_reply`] writes the reply's text and an end of
//! line, or a prefix of them at a fault. A [`Source`] and a [`Sink`] also say which of their calls failed. `specs/text`
//! of `trace_types` defines lines, requests and the texts of replies. The `specs/` of this crate define sources, sinks
//! and line readers.
//!
//! ```
//! use line_protocol::{FromReader, IntoWriter, Line, LineReader, read_addressed, write_answer};
//! use trace_types::{Name, Reply, Request};
//!
//! let mut source = FromReader::new(b"x local root\n".as_slice());
//! let mut sink = IntoWriter::new(Vec::new(alloc));
//! let mut lines = LineReader::new(alloc, &mut source)?;
//! assert_eq!(rt; lines.next()?, Line::Whole);
//! let (tenant, request) = read_addressed(lines.line());
//! assert_eq!(rt; request, Some(Request::Local(Name::root())));
//! write_answer(&mut sink, tenant, &Reply::Accepted(1))?;
//! assert_eq!(rt; lines.next()?, Line::End);
//! assert!(rt; sink.into_inner().as_slice() == b"x 201 1\n".as_slice());
//! ```
#![tactic(auto)]

mod buffered_sink;
mod ends;
mod flushing;
mod from_reader;
mod gather;
mod into_writer;
mod line;
mod line_buffer;
mod line_reader;
mod log;
mod pieces;
mod reply;
mod reply_head;
mod reply_text;
mod request;
mod sink;
mod source;
mod stop;
mod stream_fault;

pub use buffered_sink::Buffered;
pub use flushing::LineFault;
pub use from_reader::FromReader;
pub use into_writer::IntoWriter;
pub use line::Line;
pub use line_buffer::Buffer;
pub use line_reader::{LineReader, ReadFault};
pub use pieces::write_piece;
pub use reply::{
    MOST_INTERRUPTIONS, WriteFault, flush, write_answer, write_bytes, write_count, write_order,
    write_prefix, write_reply,
};
pub use request::{is_count, read_addressed, read_order, read_request, split_first};
pub use sink::Sink;
pub use source::Source;
pub use stop::Stop;
pub use stream_fault::StreamFault;
