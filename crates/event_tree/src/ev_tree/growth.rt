//! Growth of a tree below an id at the least cost.
ghost use Rattle.std.specs.Prelude.{◌≡◌, ◌≢◌, ◌+◌, ◌*◌, ◌%◌, ◌^◌, ◌<◌, ◌≤◌, max, false, Some, IfOk, IfSome, IfNone, IsOk, IsTrue};
ghost use Rattle.trace_types.specs.clock.Id.{Zero, One, Pair};
ghost use Rattle.trace_types.specs.clock.EventTree.{Leaf, maximum, IsNormal};
ghost use Rattle.trace_types.specs.clock.Grow.{root_number, left_of, right_of, expansion, is_cheaper, cost, grown};
ghost use Rattle.trace_types.specs.clock.Event.{normalised};
ghost use Rattle.event_tree.specs.GrownFor.{grown_for};
ghost use Rattle.event_tree.specs.Height.{height};
ghost use Rattle.event_tree.specs.Grew.{GrewAt};
ghost use Rattle.event_tree.specs.PointCode.{halves_of};

use super::filling::Cost;
use super::{EvTree, Node};
use crate::point::LEVELS;
use crate::{Point, RaisedPoint};
use id_tree::{IdTree, Parts as IdParts};
use std::alloc::Global;
use trace_types::Memory;

/// The point where a tree grew, and the value there.
#[derive(Clone, Copy)]
struct GrownPoint {
    /// The halves on the way down, as the bits of a number with the uppermost as the lowest. Halves below the first 128
    /// are left out.
    halves: u128,
    value: u64,
}

/// How many numbers of halves leave room for one half more.
const WITH_ROOM: u128 = 1 << 127;

impl GrownPoint {
    /// The root of a tree whose greatest value is 0.
    const ROOT: GrownPoint = GrownPoint {
        halves: 0,
        value: 0,
    };

    /// Makes this point of one half, 0 for left and 1 for right, a point of the node with the number `root`.
    fn lift(&mut self, half: u128, root: u64)
        requires half { half ≤ 1 }
        requires fits { root + self.old.value < 2 ^ 64 }
        ensures halves { self.new.halves ≡ 2 * (self.old.halves % 2 ^ 127) + half }
        ensures value { self.new.value ≡ root + self.old.value }
    {
        self.halves = 2 * (self.halves % WITH_ROOM) + half;
        self.value += root;
    }
}

/// Where a tree grew, and how many levels below its root.
#[derive(Drop)]
pub(super) struct Growth {
    point: GrownPoint,
    steps: u64,
}

impl Growth {
    /// Growth of a tree whose greatest value is 0, at its root.
    pub(super) const ROOT: Growth = Growth {
        point: GrownPoint::ROOT,
        steps: 0,
    };

    /// Makes this growth of one half, 0 for left and 1 for right, growth of the node with the number `root`, if the half
    /// grew. A path that is too long to be counted fits in no memory.
    #[inline(always)]
    pub(super) fn lift(&mut self, grew: bool, half: u128, root: u64) -> Result<(), Memory>
        requires half { half ≤ 1 }
        requires fits { IsTrue grew → root + self.old.point.value < 2 ^ 64 }
        ensures steps { IfOk result (λ done. IsTrue grew → self.new.steps ≡ self.old.steps + 1) }
        ensures halves { IfOk result (λ done. IsTrue grew → self.new.point.halves ≡ 2 * (self.old.point.halves % 2 ^ 127) + half) }
        ensures value { IfOk result (λ done. IsTrue grew → self.new.point.value ≡ root + self.old.point.value) }
    {
        if grew {
            self.steps = self.steps.checked_add(1).ok_or(Memory)?;
            self.point.lift(half, root);
        }
        Ok(())
    }

    /// The point that was raised, and the value there, unless it lies below the levels of a point.
    pub(super) fn raised(&self) -> Option<RaisedPoint>
        ensures point { IfSome result (λ raised. raised.point ≡ halves_of 128 self.now.point.halves) }
        ensures value { IfSome result (λ raised. raised.value ≡ self.now.point.value) }
        ensures few { IfSome result (λ raised. self.now.steps ≤ 128) }
        ensures deep { IfNone result (128 < self.now.steps) }
    {
        if self.steps <= LEVELS {
            Some(RaisedPoint {
                point: Point::of(self.point.halves),
                value: self.point.value,
            })
        } else {
            None
        }
    }
}

/// A tree as a node. A number counts as a node over 0 and 0, and takes an expansion.
#[derive(Clone, Copy)]
pub(super) struct Opened<'a> {
    pub(super) root: u64,
    pub(super) left: &'a EvTree,
    pub(super) right: &'a EvTree,
    expansion: u64,
}

impl EvTree {
    pub(super) fn opened<'a>(&'a self, zero: &'a EvTree) -> Opened<'a>
        requires { zero.now ≡ Leaf 0 }
        ensures root { result.root ≡ root_number self.now }
        ensures left { result.left.now ≡ left_of self.now }
        ensures right { result.right.now ≡ right_of self.now }
        ensures expansion { result.expansion ≡ expansion self.now }
        ensures normal { IsNormal self.now }
    {
        match &self.node {
            Node::Leaf(n) => Opened {
                root: *n,
                left: zero,
                right: zero,
                expansion: 1,
            },
            Node::Fork { base, children, .. } => Opened {
                root: *base,
                left: &children.left,
                right: &children.right,
                expansion: 0,
            },
        }
    }

    /// The tree grown at its least cost, in normal form. `growth` tells where.
    pub(super) fn grown(
        &self,
        alloc: Global,
        id: &IdTree,
        price: Option<Cost>,
        growth: &mut Growth,
    ) -> Result<EvTree, Memory>
        requires some { id.now ≢ Zero }
        requires price { price ≡ cost id.now self.now }
        requires fits { maximum self.now + 1 < 2 ^ 64 }
        ensures exact { IfOk result (λ tree. tree ≡ normalised (grown id.now self.now)) }
        ensures grew { IfOk result (λ tree. GrewAt growth.new.steps self.now tree growth.new.point) }
        ensures whole { id.now ≡ One → IsOk result }
    {
        id_tree::laws::each_tree_is_normal(id);
        let zero = EvTree::leaf(0);
        let Some(price) = price else {
            unreachable!();
        };
        let Some(tree) = self.grown_for(alloc, id, price, &zero, &mut growth.point)? else {
            unreachable!();
        };
        growth.steps = price.steps;
        Ok(tree)
    }

    /// The tree grown at its root, below an id that owns everything. It grew at `point`.
    fn grown_whole(&self, point: &mut GrownPoint) -> EvTree
        requires { maximum self.now + 1 < 2 ^ 64 }
        ensures tree { result ≡ Leaf (maximum self.now + 1) }
        ensures point { GrewAt 0 self.now result point.new }
    {
        let value = self.max() + 1;
        *point = GrownPoint { halves: 0, value };
        EvTree::leaf(value)
    }

    /// The grown tree in normal form, if it costs exactly `price`. Then it grew at `point`. There is none for less. `zero`
    /// stands below a number.
    #[cycle(grown_for)]
    #[inline(always)]
    fn grown_for(
        &self,
        alloc: Global,
        id: &IdTree,
        price: Cost,
        zero: &EvTree,
        point: &mut GrownPoint,
    ) -> Result<Option<EvTree>, Memory>
        requires least { is_cheaper (cost id.now self.now) (Some price) ≡ false }
        requires fits { maximum self.now + 1 < 2 ^ 64 }
        requires zero { zero.now ≡ Leaf 0 }
        ensures exact { IfOk result (λ found. found ≡ grown_for price id.now self.now) }
        ensures point { IfOk result (λ found. IfSome found (λ tree. GrewAt price.steps self.now tree point.new)) }
        ensures whole { id.now ≡ One → IsOk result }
    {
        match id.parts() {
            IdParts::One if price.is_nothing() => Ok(Some(self.grown_whole(point))),
            IdParts::Zero | IdParts::One => Ok(None),
            IdParts::Pair(left_id, right_id) => {
                self.grown_below(alloc, (left_id, right_id), price, zero, point)
            }
        }
    }

    /// The grown tree at that price below an id of these two halves.
    #[cycle(grown_for)]
    #[inline(never)]
    fn grown_below(
        &self,
        alloc: Global,
        id: (&IdTree, &IdTree),
        price: Cost,
        zero: &EvTree,
        point: &mut GrownPoint,
    ) -> Result<Option<EvTree>, Memory>
        requires least { is_cheaper (cost (Pair id.0.now id.1.now) self.now) (Some price) ≡ false }
        requires fits { maximum self.now + 1 < 2 ^ 64 }
        requires zero { zero.now ≡ Leaf 0 }
        ensures exact { IfOk result (λ found. found ≡ grown_for price (Pair id.entry.0.now id.entry.1.now) self.now) }
        ensures point { IfOk result (λ found. IfSome found (λ tree. GrewAt price.steps self.now tree point.new)) }
    {
        let opened = self.opened(zero);
        let Some(price) = price.after_step(opened.expansion) else {
            return Ok(None);
        };
        if let Some(right) = opened.right.grown_for(alloc, id.1, price, zero, point)? {
            point.lift(1, opened.root);
            let mut tree = opened.left.share(alloc)?;
            tree.fork_with(alloc, opened.root, right)?;
            return Ok(Some(tree));
        }
        let Some(mut tree) = opened.left.grown_for(alloc, id.0, price, zero, point)? else {
            return Ok(None);
        };
        point.lift(0, opened.root);
        let right = opened.right.share(alloc)?;
        tree.fork_with(alloc, opened.root, right)?;
        Ok(Some(tree))
    }
}
