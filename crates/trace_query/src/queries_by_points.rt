//! Queries about events whose trees stand in their order. This is what the product uses.
//!
//! Event k has the k-th of the kept trees and the k-th of the points, from 1. An event behind the last point has none.
//! A later event knows an event exactly if its tree has no less at the event's point. So two events are compared at the
//! earlier one's point, if it has one, and else by their whole trees in one direction.
ghost use Rattle.std.specs.Prelude.{◌≡◌, ◌↔◌, IsTrue, length, map};
ghost use Rattle.std.specs.List.{All};
ghost use Rattle.event_tree.specs.Comparison.{IsBelow, StandsAs};
ghost use Rattle.trace_query.specs.Deciding.{IsDecidedBy, IsToldBy, DecideInOrder, point_in};
ghost use Rattle.trace_query.specs.Queries.{ComeBefore, StandInOrder, order_due, trees_before, concurrent_of, ListsExactly, cut_by_trees};

use crate::queries::{kept_of, no_marks};
use crate::{Compare, Earlier, Meant, QueryFault};
use event_tree::RaisedPoint;
use std::alloc::Global;
use std::cmp::Ordering;
use trace_types::{Memory, Order};

/// Answers as [`order`](crate::order) does, by one comparison, or by none if both are the same event.
#[inline(always)]
pub fn order_by_points<K: Meant, C: Compare<K>>(
    compare: &C,
    kept: &[K],
    points: &[Option<RaisedPoint>],
    first: u64,
    second: u64,
) -> Result<Order, QueryFault>
    requires admitted { All (C.admits compare.now) kept.now }
    requires in_order { StandInOrder (map K.tree kept.now) }
    requires decided { DecideInOrder (map K.tree kept.now) points.now }
    ensures { result ≡ order_due (map K.tree kept.now) first second }
{
    let one = kept_of(kept, first)?;
    let other = kept_of(kept, second)?;
    let order = match first.cmp(&second) {
        Ordering::Less => ordered(
            compare,
            points,
            first as usize - 1,
            Earlier::First,
            one,
            other,
        ),
        Ordering::Equal => Order::Same,
        Ordering::Greater => ordered(
            compare,
            points,
            second as usize - 1,
            Earlier::Second,
            one,
            other,
        ),
    };
    Ok(order)
}

/// How the tree of an event stands to that of another one. `place` is the index of the earlier event's point.
#[inline(always)]
fn ordered<K: Meant, C: Compare<K>>(
    compare: &C,
    points: &[Option<RaisedPoint>],
    place: usize,
    earlier: Earlier,
    first: &K,
    second: &K,
) -> Order
    requires first { C.admits compare.now first.now }
    requires second { C.admits compare.now second.now }
    requires told { IsToldBy earlier (point_in points.now place) (K.tree first.now) (K.tree second.now) }
    ensures { StandsAs result (K.tree first.now) (K.tree second.now) }
{
    match points.get(place) {
        Some(Some(deciding)) => compare.order_at(deciding, earlier, first, second),
        _ => compare.order(first, second),
    }
}

/// Answers as [`past`](crate::past) does. It compares each earlier event once, and looks at no later one.
pub fn past_by_points<K: Meant, C: Compare<K>>(
    compare: &C,
    alloc: Global,
    kept: &[K],
    points: &[Option<RaisedPoint>],
    event: u64,
) -> Result<Vec<u64>, QueryFault>
    requires admitted { All (C.admits compare.now) kept.now }
    requires in_order { StandInOrder (map K.tree kept.now) }
    requires decided { DecideInOrder (map K.tree kept.now) points.now }
    ensures { ListsExactly trees_before (map K.tree kept.now) event result }
{
    let tree = kept_of(kept, event)?;
    let earlier = &kept[..event as usize - 1];
    let mut events = Vec::new(alloc);
    for (place, other) in earlier.iter().enumerate() {
        if is_below_later(compare, other, points, place, tree) {
            events.push(place as u64 + 1).map_err(Memory::from)?;
        }
    }
    Ok(events)
}

/// Answers as [`concurrent_with`](crate::concurrent_with) does. It compares each other event once.
pub fn concurrent_by_points<K: Meant, C: Compare<K>>(
    compare: &C,
    alloc: Global,
    kept: &[K],
    points: &[Option<RaisedPoint>],
    event: u64,
) -> Result<Vec<u64>, QueryFault>
    requires admitted { All (C.admits compare.now) kept.now }
    requires in_order { StandInOrder (map K.tree kept.now) }
    requires decided { DecideInOrder (map K.tree kept.now) points.now }
    ensures { ListsExactly concurrent_of (map K.tree kept.now) event result }
{
    let tree = kept_of(kept, event)?;
    let own_place = event as usize - 1;
    let mut events = Vec::new(alloc);
    for (place, other) in kept.iter().enumerate() {
        let number = place as u64 + 1;
        let is_apart = match number.cmp(&event) {
            Ordering::Less => !is_below_later(compare, other, points, place, tree),
            Ordering::Equal => false,
            Ordering::Greater => !is_below_later(compare, tree, points, own_place, other),
        };
        if is_apart {
            events.push(number).map_err(Memory::from)?;
        }
    }
    Ok(events)
}

/// Answers as [`cut`](crate::cut) does. For each task the search goes backwards from the event, and stops at the first
/// event that is below it. It looks at no later event.
pub fn cut_by_points<K: Meant, C: Compare<K>>(
    compare: &C,
    alloc: Global,
    kept: &[K],
    points: &[Option<RaisedPoint>],
    tasks: &[u64],
    event: u64,
) -> Result<Vec<u64>, QueryFault>
    requires admitted { All (C.admits compare.now) kept.now }
    requires in_order { StandInOrder (map K.tree kept.now) }
    requires decided { DecideInOrder (map K.tree kept.now) points.now }
    requires tasks { length tasks.now ≡ length kept.now }
    requires earlier { ComeBefore tasks.now }
    ensures { ListsExactly (λ trees event. cut_by_trees trees tasks.now event) (map K.tree kept.now) event result }
{
    let tree = kept_of(kept, event)?;
    let own_place = event as usize - 1;
    let mut is_listed = no_marks(alloc, event as usize)?;
    let mut events = Vec::new(alloc);
    is_listed[tasks[own_place] as usize] = true;
    events.push(event).map_err(Memory::from)?;
    for place in (0..own_place).rev() {
        let task = tasks[place] as usize;
        if !is_listed[task] && is_below_later(compare, &kept[place], points, place, tree) {
            is_listed[task] = true;
            events.push(place as u64 + 1).map_err(Memory::from)?;
        }
    }
    events.reverse();
    Ok(events)
}

/// Whether the tree of an event is below that of a later one. `place` is the index of the earlier event's point.
#[inline(always)]
fn is_below_later<K: Meant, C: Compare<K>>(
    compare: &C,
    earlier: &K,
    points: &[Option<RaisedPoint>],
    place: usize,
    later: &K,
) -> bool
    requires earlier { C.admits compare.now earlier.now }
    requires later { C.admits compare.now later.now }
    requires decided { IsDecidedBy (point_in points.now place) (K.tree earlier.now) (K.tree later.now) }
    ensures { IsTrue result ↔ IsBelow (K.tree earlier.now) (K.tree later.now) }
{
    match points.get(place) {
        Some(Some(deciding)) => compare.is_below_at(deciding, earlier, later),
        _ => compare.is_below(earlier, later),
    }
}
