//! Headers of exports.
ghost use Rattle.std.specs.Prelude.{◌≡◌, MatchOption};
ghost use Rattle.serde_json.specs.View.{view};
ghost use Rattle.trace_export.specs.Heading.{IsHeaderJson};
ghost use Rattle.trace_export.specs.Loading.{limits_under};
ghost use Rattle.trace_export.specs.declared.header.Header.{Header as Listed};

use crate::member::value_of;
use serde_json::Value;
use trace_types::{Limits, Name};

/// The first line of an export of version 2: whose export it is, and under which limits the tenant was.
#[derive(Clone, Copy, Debug)]
pub struct Header {
    /// The tenant whose events are listed.
    pub tenant: Name,
    /// The limits of the tenant when its events were exported.
    pub limits: Limits,
}

/// The version of exports that have a header.
pub(crate) const VERSION: u64 = 2;

/// The header that the JSON is, or `None` exactly if it is none.
pub(crate) fn header_of(json: &Value) -> Option<Header>
    ensures { MatchOption result ((header : Listed) → ¬ IsHeaderJson (view json.now) header)
        (λ header. IsHeaderJson (view json.now) header) }
{
    let mut members = json.as_object()?.iter();
    let events = value_of(members.next(), "events")?.as_u64()?;
    let messages = value_of(members.next(), "messages")?.as_u64()?;
    let tasks = value_of(members.next(), "tasks")?.as_u64()?;
    let tenant = Name::read(value_of(members.next(), "tenant")?.as_str()?.as_bytes())?;
    let version = value_of(members.next(), "version")?.as_u64()?;
    if version != VERSION || members.next().is_some() {
        return None;
    }
    let limits = Limits::read(events, tasks, messages)?;
    Some(Header { tenant, limits })
}

/// The limits of the tenant of an export with this header: those of the header, or the greatest if there is none.
pub(crate) fn limits_under(header: &Option<Header>) -> Limits
    ensures { result ≡ limits_under header.now }
{
    match header {
        Some(header) => header.limits,
        None => greatest_limits(),
    }
}

/// The greatest limits.
fn greatest_limits() -> Limits
    ensures { result ≡ record { events = 16384; tasks = 2048; messages = 16384 } }
{
    let greatest = Limits::read(
        Limits::MOST_EVENTS,
        Limits::MOST_TASKS,
        Limits::MOST_MESSAGES,
    );
    match greatest {
        Some(limits) => limits,
        None => unreachable!(),
    }
}
