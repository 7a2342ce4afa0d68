//! The words of the command line, and what they ask for.
//!
//! Use it in a program that takes the words of `itc_trace`. It has clap read them.
//!
//! The contract that carries it: [`read_words`] reads words that `specs/Demand.antt` gives a meaning as what they ask
//! for. Whatever the words are, help is shown, work is asked for and words are refused only if clap's own model has it
//! so. The model is applied to the command line that `specs/Reading.antt` describes. Any words may run out of memory.
//!
//! ```
//! use command_line::{Asked, Refusal, read_words};
//!
//! let Ok(Asked::Replay(replay)) = read_words(alloc, &["replay", "--events", "100", "x"]) else {
//!     return Err("no replay".into());
//! };
//! assert_eq!(rt; replay.limits.events(), 100);
//! assert_eq!(rt; replay.tenants.len(), 1);
//! let refused = read_words(alloc, &["replay", "--events", "0", "x"]);
//! assert!(rt; matches!(&refused, Err(Refusal::Words(_))));
//! ```
#![tactic(auto)]

mod demand;
mod help;
mod options;
mod parse;

pub use demand::{Asked, Replay, Serve};
pub use parse::{Refusal, read_words};
