//! The parts of stamps, from what is published.
ghost use Rattle.std.specs.Prelude.{◌≡◌, MatchOption, MatchResult, is_some};
ghost use Rattle.trace_types.specs.tenant.Rows.{history_of, is_event};
ghost use Rattle.trace_types.specs.tenant.Tenant.{Answers};
ghost use Rattle.trace_types.specs.text.StampText.{stamp_text};
ghost use Rattle.tenant_ledger.specs.Ledger.{IsKept, tenant_of};

use crate::published::SharedBook;
use event_tree::EvTree;
use id_tree::IdTree;
use tenant_ledger::MeantId;
use trace_query::Meant;
use trace_types::{Code, Reply, Request};

/// The id and the tree of the event's stamp, or `None` if there is no such event.
pub(crate) fn parts_in(events: &SharedBook, event: u64) -> Option<(&IdTree, &EvTree)>
    requires { IsKept events.now }
    ensures there { is_some result ≡ is_event (history_of events.now.rows) event }
    ensures answer { MatchOption result (Answers (tenant_of events.now) (Request.Stamp event) (Reply.Refused Code.NoEvent))
        (λ parts. Answers (tenant_of events.now) (Request.Stamp event) (Reply.Stamp (stamp_text parts.0.now parts.1.now))) }
{
    let (id, tree) = events.stamp_parts(event)?;
    Some((id.id_value(), tree.tree_value()))
}

/// Equal parts, which outlive the events. Returns the code with which the request for the stamp is refused: `NoEvent`, or
/// `NoMemory` if a part would stand in more trees than can be counted. It asks for no memory.
pub(crate) fn shared_parts(events: &SharedBook, event: u64) -> Result<(IdTree, EvTree), Code>
    requires { IsKept events.now }
    ensures { MatchResult result (λ parts. Answers (tenant_of events.now) (Request.Stamp event) (Reply.Stamp (stamp_text parts.0 parts.1)))
        (λ code. Answers (tenant_of events.now) (Request.Stamp event) (Reply.Refused code)) }
{
    let Some((id, tree)) = parts_in(events, event) else {
        return Err(Code::NoEvent);
    };
    let alloc = events.alloc();
    Ok((id.share(alloc)?, tree.share(alloc)?))
}
