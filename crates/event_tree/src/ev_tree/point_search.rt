//! The search for a point that an event raised.
ghost use Rattle.std.specs.Prelude.{◌≡◌, ◌+◌, ◌^◌, ◌<◌, ◌≤◌, ◌↔◌, IfSome, IfNone, IsTrue};
ghost use Rattle.trace_types.specs.clock.Id.{Zero};
ghost use Rattle.trace_types.specs.clock.EventTree.{Leaf, value, minimum, maximum};
ghost use Rattle.trace_types.specs.clock.Grow.{root_number, left_of, right_of};
ghost use Rattle.event_tree.specs.Height.{height};
ghost use Rattle.event_tree.specs.Risen.{left_id_of, right_id_of, IsRisenAt, RisesWithin, NoneRisen};

use super::{EvTree, Node};
use crate::point::LEVELS;
use crate::{Point, RaisedPoint};
use id_tree::{IdTree, Parts as IdParts};

impl EvTree {
    /// A point at which `after` is above this tree, and the value there. It does not look at parts of the trees that the
    /// id does not own.
    pub(super) fn risen_point(&self, id: &IdTree, after: &EvTree) -> Option<RaisedPoint>
        ensures risen { IfSome result (λ raised. value self.now raised.point < value after.now raised.point) }
        ensures value { IfSome result (λ raised. raised.value ≡ value after.now raised.point) }
        ensures none { RisesWithin id.now 0 self.now 0 after.now → IfNone result (NoneRisen 128 0 self.now 0 after.now) }
    {
        self.normal();
        after.normal();
        let zero = EvTree::leaf(0);
        let (low, high) = (Lifted::whole(self), Lifted::whole(after));
        let halves = risen_halves(id, low, high, &zero, LEVELS)?;
        let point = Point::of(halves);
        Some(RaisedPoint {
            value: after.value_at(&point),
            point,
        })
    }

    fn is_leaf(&self) -> bool
        ensures { IsTrue result ↔ (height self.now ≡ 0) }
    {
        matches!(self.node, Node::Leaf(_))
    }
}

/// A tree, and a number that is to be added to its values.
#[derive(Clone, Copy)]
struct Lifted<'a> {
    tree: &'a EvTree,
    lift: u64,
}

impl<'a> Lifted<'a> {
    /// The tree as it is.
    fn whole(tree: &'a EvTree) -> Lifted<'a>
        ensures tree { result.tree.now ≡ tree.now }
        ensures lift { result.lift ≡ 0 }
    {
        Lifted { tree, lift: 0 }
    }

    /// The two halves. `zero` stands below a number.
    fn halves(self, zero: &'a EvTree) -> (Lifted<'a>, Lifted<'a>)
        requires fits { self.lift + maximum self.tree.now < 2 ^ 64 }
        requires zero { zero.now ≡ Leaf 0 }
        ensures left { (result.0.tree.now ≡ left_of self.entry.tree.now) × (result.0.lift ≡ self.entry.lift + root_number self.entry.tree.now) }
        ensures right { (result.1.tree.now ≡ right_of self.entry.tree.now) × (result.1.lift ≡ self.entry.lift + root_number self.entry.tree.now) }
    {
        let opened = self.tree.opened(zero);
        let lift = self.lift + opened.root;
        let (left, right) = (opened.left, opened.right);
        (Lifted { tree: left, lift }, Lifted { tree: right, lift })
    }
}

/// The halves to a point at which `after` is above `before`, within this many levels. They are the bits of a number with
/// the uppermost as the lowest. `zero` stands below a number.
#[cycle(risen_halves)]
#[inline(always)]
fn risen_halves(
    id: &IdTree,
    before: Lifted<'_>,
    after: Lifted<'_>,
    zero: &EvTree,
    levels: u64,
) -> Option<u128>
    requires before_fits { before.lift + maximum before.tree.now < 2 ^ 64 }
    requires after_fits { after.lift + maximum after.tree.now < 2 ^ 64 }
    requires zero { zero.now ≡ Leaf 0 }
    requires levels { levels ≤ 128 }
    ensures risen { IfSome result (λ halves. IsRisenAt levels before.entry.lift before.entry.tree.now after.entry.lift after.entry.tree.now halves) }
    ensures none { RisesWithin id.now before.entry.lift before.entry.tree.now after.entry.lift after.entry.tree.now
        → IfNone result (NoneRisen levels before.entry.lift before.entry.tree.now after.entry.lift after.entry.tree.now) }
{
    if id.is_zero() || after.lift + after.tree.max() <= before.lift + before.tree.min() {
        return None;
    }
    risen_below(id, before, after, zero, levels)
}

/// Those halves, if the ranges of the two trees allow such a point. The right half comes first, since growth prefers it
/// if both cost the same.
#[cycle(risen_halves)]
#[inline(never)]
fn risen_below(
    id: &IdTree,
    before: Lifted<'_>,
    after: Lifted<'_>,
    zero: &EvTree,
    levels: u64,
) -> Option<u128>
    requires before_fits { before.lift + maximum before.tree.now < 2 ^ 64 }
    requires after_fits { after.lift + maximum after.tree.now < 2 ^ 64 }
    requires above { before.lift + minimum before.tree.now < after.lift + maximum after.tree.now }
    requires zero { zero.now ≡ Leaf 0 }
    requires levels { levels ≤ 128 }
    ensures risen { IfSome result (λ halves. IsRisenAt levels before.entry.lift before.entry.tree.now after.entry.lift after.entry.tree.now halves) }
    ensures none { RisesWithin id.now before.entry.lift before.entry.tree.now after.entry.lift after.entry.tree.now
        → IfNone result (NoneRisen levels before.entry.lift before.entry.tree.now after.entry.lift after.entry.tree.now) }
{
    if before.tree.is_leaf() && after.tree.is_leaf() {
        return Some(0);
    }
    if levels == 0 {
        return None;
    }
    let (left_id, right_id) = id_halves(id)?;
    let (left, right) = before.halves(zero);
    let (left_after, right_after) = after.halves(zero);
    let below = levels - 1;
    if let Some(halves) = risen_halves(right_id, right, right_after, zero, below) {
        return Some(2 * halves + 1);
    }
    let halves = risen_halves(left_id, left, left_after, zero, below)?;
    Some(2 * halves)
}

/// What the id owns of each half, if it owns anything.
fn id_halves(id: &IdTree) -> Option<(&IdTree, &IdTree)>
    ensures some { IfSome result (λ halves. (halves.0.now ≡ left_id_of id.now) × (halves.1.now ≡ right_id_of id.now)) }
    ensures none { IfNone result (id.now ≡ Zero) }
{
    match id.parts() {
        IdParts::Zero => None,
        IdParts::One => Some((id, id)),
        IdParts::Pair(left, right) => Some((left, right)),
    }
}
