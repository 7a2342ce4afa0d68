//! What a line says of the order of events.
ghost use Rattle.std.specs.Prelude.{◌≡◌, ◌<◌, ◌↔◌, suc, [], IfErr, IfOk, IfSome, IfNone, IsTrue, OnOk, length};
ghost use Rattle.trace_types.specs.clock.EventTree.{EventTree};
ghost use Rattle.trace_types.specs.tenant.Rows.{history_of};
ghost use Rattle.trace_export.specs.Edges.{listed_preds, placed_at};
ghost use Rattle.trace_export.specs.Following.{placing_of};
ghost use Rattle.trace_export.specs.Listing.{listed_of};
ghost use Rattle.trace_export.specs.Verdict.{AreIncreasingBefore, IsPlacedAs, IsStampTree, IsUnfitFor};

use crate::Reason;
use crate::event_line::EventLine;
use crate::follower::PackedLedger;
use event_tree::EvTree;
use stamp_codec::{StampFault, read_stamp_beside};
use std::alloc::Global;
use trace_types::{Limits, Memory, Preds, Row};

/// The events that an event follows, and its tree.
#[derive(Drop)]
pub struct Placed {
    pub(crate) preds: Preds,
    pub(crate) tree: EvTree,
}

/// What the listed event says of the order, where it may be the one of this number; else why it may not. Its tree shares the
/// parts that stand in this one at the same place.
pub(crate) fn place(
    alloc: Global,
    number: u64,
    listed: &EventLine<'_>,
    like: &EvTree,
) -> Result<Result<Placed, Reason>, Memory>
    ensures placed { IfOk result (λ found. IfOk found (IsPlacedAs number (listed_of listed.now))) }
    ensures unfit { IfOk result (λ found. IfErr found (λ reason. IsUnfitFor reason number (listed_of listed.now))) }
{
    if listed.event != number || number > Limits::MOST_EVENTS {
        return Ok(Err(Reason::Number));
    }
    if !are_increasing_before(&listed.preds, number) {
        return Ok(Err(Reason::Preds));
    }
    let Some(tree) = read_tree(alloc, listed.stamp, like)? else {
        return Ok(Err(Reason::Stamp));
    };
    Ok(Ok(Placed {
        preds: listed.preds.share(),
        tree,
    }))
}

/// Whether the events increase, and are all before this one.
pub(crate) fn are_increasing_before(preds: &Preds, event: u64) -> bool
    ensures { IsTrue result ↔ AreIncreasingBefore preds.now event }
{
    match *preds.as_slice() {
        [] => true,
        [one] => 0 < one && one < event,
        [first, second] => 0 < first && first < second && second < event,
        _ => false,
    }
}

/// The tree of the stamp that the text spells, or `None` if the text is refused. It shares the parts that stand in this one
/// at the same place.
fn read_tree(alloc: Global, stamp: &str, like: &EvTree) -> Result<Option<EvTree>, Memory>
    ensures tree { IfOk result (λ tree. IfSome tree (IsStampTree stamp.now)) }
    ensures none { IfOk result (λ tree. IfNone tree ((other : EventTree) → ¬ IsStampTree stamp.now other)) }
{
    match read_stamp_beside(alloc, stamp.as_bytes(), like) {
        Ok(stamp) => Ok(Some(stamp.tree)),
        Err(StampFault::Memory) => Err(Memory),
        Err(_) => Ok(None),
    }
}

/// Adds what an export lists of each event of the tenant. It asks for memory only if there is no room.
pub(crate) fn place_all(
    placed: &mut Vec<Placed>,
    alloc: Global,
    ledger: &PackedLedger,
) -> Result<(), Memory>
    requires { placed.old.items ≡ [] }
    ensures { OnOk result (placed.new.items ≡ placing_of (history_of ledger.now.rows)) }
{
    for place in 0..ledger.rows().len() {
        let next = placed_in(alloc, ledger, place)?;
        placed.push(next)?;
    }
    Ok(())
}

/// What an export lists of the tenant's event at this place.
fn placed_in(alloc: Global, ledger: &PackedLedger, place: usize) -> Result<Placed, Memory>
    requires { place < length ledger.now.rows }
    ensures { IfOk result (λ placed. placed ≡ placed_at (placing_of (history_of ledger.now.rows)) (suc place)) }
{
    let preds = preds_in(ledger.rows(), place);
    let Some(tree) = ledger.tree(place as u64 + 1) else {
        unreachable!();
    };
    let tree = tree.share(alloc)?;
    Ok(Placed { preds, tree })
}

/// The events that the event at this place follows, of a tenant with these rows.
#[tactic(auto, using(crate::proofs::ListedRows::preds_at))]
fn preds_in(rows: &[Row], place: usize) -> Preds
    requires { place < length rows.now }
    ensures { result ≡ listed_preds (placing_of (history_of rows.now)) (suc place) }
{
    rows[place].preds.share()
}
