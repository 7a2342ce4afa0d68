//! Counts of a replay.
ghost use Rattle.std.specs.Prelude.{◌≡◌, ℕ};
ghost use Rattle.trace_types.specs.text.Name.{Text};

use trace_types::{Order, Reply};

/// How many lines were replayed, and how they were answered. The three other counts add up to the lines.
#[derive(Clone, Copy, Debug, PartialEq, Eq)]
pub struct Counts {
    /// All lines, those that are too long included.
    pub lines: u64,
    /// Replies with 201.
    pub accepted: u64,
    /// Replies with 200.
    pub answered: u64,
    /// Replies with 400 to 507.
    pub refused: u64,
}

impl Counts {
    ghost use Rattle.trace_world.specs.Counted.{CanCount, counted_with};

    /// Nothing counted yet.
    pub(crate) fn none() -> Counts
        ensures { result ≡ record { lines = 0; accepted = 0; answered = 0; refused = 0 } }
    {
        Counts {
            lines: 0,
            accepted: 0,
            answered: 0,
            refused: 0,
        }
    }

    /// Counts one more line, which got an order, a stamp or a count.
    #[inline(always)]
    pub(crate) fn count_answered(&mut self)
        requires { CanCount self.old }
        ensures order { (order : Order) → self.new ≡ counted_with self.old (Reply.Ordering order) }
        ensures stamp { (text : Text) → self.new ≡ counted_with self.old (Reply.Stamp text) }
        ensures count { (events tasks messages : ℕ) → self.new ≡ counted_with self.old (Reply.Count events tasks messages) }
    {
        self.lines += 1;
        self.answered += 1;
    }

    /// Counts one more line, which got this reply.
    pub(crate) fn count(&mut self, reply: &Reply)
        requires { CanCount self.old }
        ensures { self.new ≡ counted_with self.old reply.now }
    {
        self.lines += 1;
        match reply {
            Reply::Accepted(_) => self.accepted += 1,
            Reply::Refused(_) => self.refused += 1,
            Reply::Ordering(_)
            | Reply::List(_)
            | Reply::Event(_)
            | Reply::Stamp(_)
            | Reply::Task(..)
            | Reply::Message(..)
            | Reply::Count(..) => self.answered += 1,
        }
    }
}
