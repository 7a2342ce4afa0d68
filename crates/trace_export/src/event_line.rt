//! What a line of an export lists.
ghost use Rattle.std.specs.Prelude.{◌≡◌, ◌≢◌, ◌≤◌, Option, List, ℕ, Some, None, MatchOption, map, length};
ghost use Rattle.trace_types.specs.text.Name.{Text};
ghost use Rattle.trace_types.specs.text.Text.{kind_text, name_text};
ghost use Rattle.serde_json.specs.View.{view, items_of};
ghost use Rattle.trace_export.specs.Listing.{Listed, IsJsonOf, listed_of, FitsKind, numbers_json};

use crate::member::value_of;
use serde_json::Value;
use std::alloc::Global;
use trace_types::{Kind, Name, Preds};

/// An event as a line lists it.
#[derive(Drop)]
pub struct EventLine<'a> {
    /// The number of the event, from 1 if the line is right.
    pub event: u64,
    /// What was reported.
    pub kind: Kind,
    /// The task or message that the report names beside the acting task.
    pub name: Option<Name>,
    /// The predecessors as they are listed.
    pub preds: Preds,
    /// The text of the stamp, which may spell none.
    pub stamp: &'a str,
    /// The acting task.
    pub task: Name,
}

/// The kind that the word spells.
fn read_kind(word: &str) -> Option<Kind>
    ensures { MatchOption result ((kind : Kind) → kind_text kind ≢ word.now) (λ kind. kind_text kind ≡ word.now) }
{
    match word {
        "local" => Some(Kind::Local),
        "spawn" => Some(Kind::Spawn),
        "send" => Some(Kind::Send),
        "recv" => Some(Kind::Recv),
        "end" => Some(Kind::End),
        "join" => Some(Kind::Join),
        _ => None,
    }
}

/// The name that a report of this kind has, if this text is written for it.
fn read_named(kind: Kind, text: &str) -> Option<Option<Name>>
    ensures { MatchOption result ((name : Option Text) → FitsKind kind name → name_text name ≢ text.now)
        (λ name. FitsKind kind name × (name_text name ≡ text.now)) }
{
    match kind {
        Kind::Local | Kind::End if text == "-" => Some(None),
        Kind::Local | Kind::End => None,
        Kind::Spawn | Kind::Send | Kind::Recv | Kind::Join => {
            Some(Some(Name::read(text.as_bytes())?))
        }
    }
}

/// The numbers, at most two.
fn read_preds(alloc: Global, items: &[Value]) -> Option<Preds>
    ensures { MatchOption result ((preds : List ℕ) → length preds ≤ 2 → items_of (map view items.now) ≢ numbers_json preds)
        (λ preds. items_of (map view items.now) ≡ numbers_json preds) }
{
    match items {
        [] => Some(Preds::of(alloc, &[])),
        [first] => Some(Preds::of(alloc, &[first.as_u64()?])),
        [first, second] => Some(Preds::of(alloc, &[first.as_u64()?, second.as_u64()?])),
        _ => None,
    }
}

/// What the JSON lists, or `None` exactly if it lists nothing.
pub(crate) fn read_listed(alloc: Global, json: &Value) -> Option<EventLine<'_>>
    ensures { MatchOption result ((listed : Listed) → ¬ IsJsonOf (view json.now) listed)
        (λ line. IsJsonOf (view json.now) (listed_of line)) }
{
    let mut members = json.as_object()?.iter();
    let event = value_of(members.next(), "event")?.as_u64()?;
    let kind = read_kind(value_of(members.next(), "kind")?.as_str()?)?;
    let name = read_named(kind, value_of(members.next(), "name")?.as_str()?)?;
    let preds = read_preds(alloc, value_of(members.next(), "preds")?.as_array()?)?;
    let stamp = value_of(members.next(), "stamp")?.as_str()?;
    let task = Name::read(value_of(members.next(), "task")?.as_str()?.as_bytes())?;
    match members.next() {
        Some(_) => None,
        None => Some(EventLine {
            event,
            kind,
            name,
            preds,
            stamp,
            task,
        }),
    }
}
