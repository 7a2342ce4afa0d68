//! What desks and views tell.
ghost use Rattle.std.specs.Prelude.{◌≡◌, ◌<◌, length, MatchBool};
ghost use mathlib.Core.List.{IsPrefix};

use crate::row_log::Front;
use std::marker::Model;

/// The rows that a desk had, or that a view knew of, when it told of them. A clause sees the rows, which log has them, and
/// which tenant that log names.
///
/// It is the number of the rows, and takes no memory. Only a log that has reached these rows can be told of so.
#[derive(Drop)]
pub struct Told {
    pub(crate) front: Front,
}

impl Model for Told {
    ghost use Rattle.tenant_desk.specs.Histories.{Line};

    ghost Value = { Line };

    ghost view = { λ told. told.front };
}

impl Told {
    /// Shows that a log is of one tenant: two that tell of one log name the same. So logs of two tenants are two logs.
    pub fn agrees(&self, other: &Told)
        requires { other.now.log.identity ≡ self.now.log.identity }
        ensures { other.now.log.tenant ≡ self.now.log.tenant }
    {
        self.front.agrees(&other.front);
    }

    /// Whether the other, of the same log, tells of no more rows than this one. Then these rows begin with the other's, else
    /// the other's begin with these.
    pub fn covers(&self, other: &Told) -> bool
        requires { other.now.log ≡ self.now.log }
        ensures { MatchBool result (IsPrefix other.now.rows self.now.rows)
            (IsPrefix self.now.rows other.now.rows × (length self.now.rows < length other.now.rows)) }
    {
        self.front.covers(&other.front)
    }
}
