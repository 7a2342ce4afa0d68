//! The messages of one tenant: which events sent them, and which tasks received them by which events.
//!
//! Use it to refuse a message that was sent before, and a task that receives one twice.
//!
//! The contract that carries it: the list of messages has one for each send that was taken, with the receipts that were
//! taken for it. Each call is refused with the first code that applies (`refusal_of_send`, `refusal_of_receive`), and
//! then changes nothing. Contracts see a [`MessageBook`] as its limit and that list, in the order of the sends (`Book`,
//! in `specs/`), beside the room that it has for more.
//!
//! ```
//! use message_book::MessageBook;
//! use trace_types::{Code, Name};
//!
//! let mut book = MessageBook::new(alloc, 1)?;
//! let (first, second) = (Name::root(), Name::read(b"m").ok_or("no name")?);
//! assert_eq!(rt; book.send(second, 3), Ok(()));
//! assert_eq!(rt; book.send(first, 4), Err(Code::MessagesFull));
//! assert_eq!(rt; book.receive(&second, Name::root(), 5), Ok(()));
//! assert_eq!(rt; book.receive(&second, Name::root(), 6), Err(Code::AlreadyReceived));
//! assert_eq!(rt; book.receive(&first, Name::root(), 6), Err(Code::NoMessage));
//! ```
#![tactic(auto)]

mod entry;
mod message;
mod message_book;
mod others;

pub use entry::Entry;
pub use message_book::MessageBook;
