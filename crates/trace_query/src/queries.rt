//! Queries about the order of events, whatever their stamps are. Event k has the k-th of the kept trees, from 1.
ghost use Rattle.std.specs.Prelude.{◌≡◌, ◌↔◌, Contains, IfOk, IfErr, IsTrue, length, map, vec_len, replicate, true, false};
ghost use Rattle.std.specs.List.{All};
ghost use Rattle.event_tree.specs.Comparison.{IsBelow};
ghost use Rattle.trace_query.specs.Queries.{has_tree, tree_at, trees_before, concurrent_of, others_standing, order_due, ComeBefore, ListsExactly, cut_by_trees};
ghost use Rattle.trace_query.specs.declared.queries.QueryFault.TheVariants.{Memory as OutOfMemory};

use crate::{Compare, Meant};
use std::alloc::Global;
use thiserror::Error;
use trace_types::{Memory, Order};

/// Why a query about events is not answered.
#[derive(Clone, Copy, Debug, PartialEq, Eq, Error)]
pub enum QueryFault {
    /// There is no event of this number.
    #[error("no event")]
    Unknown,
    /// The query ran out of memory.
    #[error("no memory")]
    Memory,
}

impl From<Memory> for QueryFault {
    ghost from_gives = { λ _ fault. fault ≡ OutOfMemory };

    fn from(_refused: Memory) -> QueryFault {
        QueryFault::Memory
    }
}

/// How the first event stands to the second, as their trees do. Returns `Unknown` if either is no event.
///
/// It takes no memory, and never returns `Memory`.
pub fn order<K: Meant, C: Compare<K>>(
    compare: &C,
    kept: &[K],
    first: u64,
    second: u64,
) -> Result<Order, QueryFault>
    requires { All (C.admits compare.now) kept.now }
    ensures { result ≡ order_due (map K.tree kept.now) first second }
{
    let first = kept_of(kept, first)?;
    let second = kept_of(kept, second)?;
    Ok(compare.order(first, second))
}

/// The other events whose trees are before the tree of this one, increasing.
///
/// Returns `Unknown` if there is no such event, else `Memory` if it runs out of memory. An empty list takes none.
pub fn past<K: Meant, C: Compare<K>>(
    compare: &C,
    alloc: Global,
    kept: &[K],
    event: u64,
) -> Result<Vec<u64>, QueryFault>
    requires { All (C.admits compare.now) kept.now }
    ensures { ListsExactly trees_before (map K.tree kept.now) event result }
{
    others_standing(compare, alloc, kept, event, Order::Before)
}

/// The other events whose trees are concurrent with the tree of this one, increasing.
///
/// Returns `Unknown` if there is no such event, else `Memory` if it runs out of memory. An empty list takes none.
pub fn concurrent_with<K: Meant, C: Compare<K>>(
    compare: &C,
    alloc: Global,
    kept: &[K],
    event: u64,
) -> Result<Vec<u64>, QueryFault>
    requires { All (C.admits compare.now) kept.now }
    ensures { ListsExactly concurrent_of (map K.tree kept.now) event result }
{
    others_standing(compare, alloc, kept, event, Order::Concurrent)
}

/// The other events whose trees stand so to the tree of this one, increasing.
fn others_standing<K: Meant, C: Compare<K>>(
    compare: &C,
    alloc: Global,
    kept: &[K],
    event: u64,
    wanted: Order,
) -> Result<Vec<u64>, QueryFault>
    requires { All (C.admits compare.now) kept.now }
    ensures { ListsExactly (others_standing wanted) (map K.tree kept.now) event result }
{
    let tree = kept_of(kept, event)?;
    let mut events = Vec::new(alloc);
    for (place, other) in kept.iter().enumerate() {
        let number = place as u64 + 1;
        if number != event && compare.order(other, tree) == wanted {
            events.push(number).map_err(Memory::from)?;
        }
    }
    Ok(events)
}

/// The events whose trees are below the tree of this one, each the last such event of its task. They increase, and the
/// event itself is one of them. Event k has the k-th of the tasks, a number less than k, and events of one task have one
/// number.
///
/// Returns `Unknown` if there is no such event, else `Memory` if it runs out of memory.
pub fn cut<K: Meant, C: Compare<K>>(
    compare: &C,
    alloc: Global,
    kept: &[K],
    tasks: &[u64],
    event: u64,
) -> Result<Vec<u64>, QueryFault>
    requires admitted { All (C.admits compare.now) kept.now }
    requires tasks { length tasks.now ≡ length kept.now }
    requires earlier { ComeBefore tasks.now }
    ensures { ListsExactly (λ trees event. cut_by_trees trees tasks.now event) (map K.tree kept.now) event result }
{
    let tree = kept_of(kept, event)?;
    let mut is_listed = no_marks(alloc, kept.len())?;
    let mut events = Vec::new(alloc);
    for place in (0..kept.len()).rev() {
        if !is_listed[tasks[place] as usize] && is_below(compare, &kept[place], tree) {
            is_listed[tasks[place] as usize] = true;
            events.push(place as u64 + 1).map_err(Memory::from)?;
        }
    }
    events.reverse();
    Ok(events)
}

/// Whether the tree of `first` is below that of `second`.
fn is_below<K: Meant, C: Compare<K>>(compare: &C, first: &K, second: &K) -> bool
    requires first { C.admits compare.now first.now }
    requires second { C.admits compare.now second.now }
    ensures { IsTrue result ↔ IsBelow (K.tree first.now) (K.tree second.now) }
{
    matches!(compare.order(first, second), Order::Same | Order::Before)
}

/// One mark for each number below `many`. None is set.
pub(crate) fn no_marks(alloc: Global, many: usize) -> Result<Vec<bool>, Memory>
    ensures none { IfOk result (λ marks. marks.items ≡ replicate many false) }
    ensures len { IfOk result (λ marks. vec_len marks ≡ many) }
{
    Ok(vec![in alloc; false; many]?)
}

/// What is kept for the event, or `Unknown` if there is no such event.
pub(crate) fn kept_of<K: Meant>(kept: &[K], event: u64) -> Result<&K, QueryFault>
    ensures kept { IfOk result (λ one. Contains kept.now one.now) }
    ensures known { IfOk result (λ _. has_tree (map K.tree kept.now) event ≡ true) }
    ensures tree { IfOk result (λ one. K.tree one.now ≡ tree_at (map K.tree kept.now) event) }
    ensures unknown { IfErr result
        (λ fault. (fault ≡ QueryFault.Unknown) × (has_tree (map K.tree kept.now) event ≡ false)) }
{
    let place = event.checked_sub(1).ok_or(QueryFault::Unknown)?;
    kept.get(place as usize).ok_or(QueryFault::Unknown)
}
