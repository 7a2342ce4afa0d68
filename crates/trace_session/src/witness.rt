//! What shows with which rows a session was held.

use std::marker::Model;
use tenant_desk::Told;

/// The rows of the log with which a session began, and those with which it ended. A clause sees both, and which log it is.
///
/// It shows that the log has reached these rows, since only its desk and its views can tell of them. It takes no memory.
#[derive(Drop)]
pub struct Witness {
    /// The rows that the desk had, or that the view knew of, when it was lent.
    pub began: Told,
    /// Those when it was given back.
    pub ended: Told,
}

impl Model for Witness {
    ghost use Rattle.trace_session.specs.Witnesses.{Witness as Seen};

    ghost Value = { Seen };

    ghost view = { λ witness. record { began = witness.began; ended = witness.ended } };
}
