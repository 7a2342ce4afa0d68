//! Answers from what is published.
ghost use Rattle.trace_types.specs.tenant.Tenant.{Answers};
ghost use Rattle.tenant_ledger.specs.Ledger.{IsKept, tenant_of};

use crate::published::SharedBook;
use tenant_ledger::answer;
use trace_query::Plain;
use trace_types::{Reply, Request};

/// Answers from the events, by the cache of what keeps their trees or without it, and puts the reply in place of this one.
#[inline(always)]
pub(crate) fn answer_published(
    events: &SharedBook,
    by_cache: bool,
    request: &Request,
    reply: &mut Reply,
)
    requires { IsKept events.now }
    ensures { Answers (tenant_of events.now) request.now reply.new }
{
    if by_cache {
        *reply = answer(events, events.share(), request);
    } else {
        *reply = answer(events, &Plain, request);
    }
}
