//! Tenants, as those whose something is.

use std::marker::Model;
use tenant_desk::Told;
use trace_types::{Limits, Name};

/// Whose something is: the name of a tenant, its limits, and its log. A clause sees which log that is.
///
/// The rows of a tenant's desk stand in its log, and so do those of its views.
#[derive(Drop)]
pub(crate) struct Owner {
    pub(crate) name: Name,
    pub(crate) limits: Limits,
    /// What the tenant's desk told of when it was made. It takes no room for the log.
    pub(crate) told: Told,
}

impl Model for Owner {
    ghost use Rattle.trace_session.specs.Hubs.{Owner as Seen};

    ghost Value = { Seen };

    ghost view = { λ owner. record { name = owner.name; limits = owner.limits; log = owner.told.log } };
}
