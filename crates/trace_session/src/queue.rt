//! The queue from which workers take connections.
ghost use Rattle.std.specs.Prelude.{◌≡◌, ◌+◌, ◌<◌, ◌^◌, if◌then◌else◌};

use crate::Connection;
use crossbeam_channel::Sender;
use std::marker::Model;
use std::sync::Wait;

/// Hands connections to the workers, and counts them. A clause sees how many it has handed on.
#[derive(Drop)]
pub(crate) struct Queue<A, B> {
    to: Sender<Connection<A, B>>,
    handed: u64,
}

impl<A, B> Model for Queue<A, B> {
    ghost use Rattle.std.specs.Prelude.{ℕ};

    ghost Value = { ℕ };

    ghost view = { λ queue. queue.handed };
}

impl<A: Drop, B: Drop> Queue<A, B> {
    /// A queue to those that receive what this sends. It has handed on nothing.
    pub(crate) fn new(to: Sender<Connection<A, B>>) -> Queue<A, B>
        ensures { result ≡ 0 }
    {
        Queue { to, handed: 0 }
    }

    /// Hands on the connection of this reader and this writer, and says whether it did. It does not if it runs out of memory.
    /// The first connection has the number 1.
    pub(crate) fn hand_on<T: Wait>(&mut self, rt: &T, reader: A, writer: B) -> bool
        requires { self.old < 2 ^ 32 }
        ensures { self.new ≡ (if result then self.old + 1 else self.old) }
    {
        let number = self.handed + 1;
        let connection = Connection {
            reader,
            writer,
            number,
        };
        if self.to.send(rt, connection).is_err() {
            return false;
        }
        self.handed = number;
        true
    }

    /// How many it has handed on.
    pub(crate) fn handed(&self) -> u64
        ensures { result ≡ self.now }
    {
        self.handed
    }
}
