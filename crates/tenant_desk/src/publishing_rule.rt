//! The rule by which a desk publishes and its views enter.

use crate::published::Published;
use crate::row_log::Front;
use atomic_table::{Join, Split};
use crossbeam_utils::rule::{Outcome, Protocol};
use trace_types::Limits;

/// What a desk or a view saw of what is published: how far the rows went, and of which desk. It exists in proofs alone.
#[derive(Drop)]
pub(crate) struct Sight {
    pub(crate) front: Front,
    pub(crate) limits: Limits,
}

/// What a desk or a view knows.
pub(crate) type Knows = Option<Sight>;

/// What is published is sound, and fits what each of them knows.
pub(crate) struct Publishing;

impl Protocol<Published, Knows> for Publishing {
    ghost use Rattle.std.specs.Prelude.{None};
    ghost use Rattle.tenant_desk.specs.Rules.{Holds};

    ghost holds = { Holds };

    ghost first = { None };
}

/// A step after which all that is published is seen.
pub(crate) struct Seeing;

impl Outcome<Published, Knows> for Seeing {
    ghost use Rattle.tenant_desk.specs.Rules.{Sees};

    ghost then = { Sees };
}

/// A note of all that is known.
pub(crate) struct Noting;

impl Split<Knows> for Noting {
    ghost left = { λ known. known };

    ghost right = { λ known. known };
}

/// What is noted is known from then on, and nothing else.
pub(crate) struct Learning;

impl Join<Knows> for Learning {
    ghost use Rattle.std.specs.Prelude.{None};

    ghost both = { λ known noted. noted };

    ghost spent = { None };
}
