//! The tree after an event.
ghost use Rattle.std.specs.Prelude.{◌≡◌, ◌≢◌, ◌+◌, ◌^◌, ◌<◌, max, IfOk, IfSome, IfNone, IsOk, IsSome, IsTrue};
ghost use Rattle.trace_types.specs.clock.Id.{Zero, One, Pair};
ghost use Rattle.trace_types.specs.clock.EventTree.{Leaf, Node as plain_Node, value, maximum, IsNormal};
ghost use Rattle.trace_types.specs.clock.Event.{event};
ghost use Rattle.event_tree.specs.Grew.{GrewAt};
ghost use Rattle.event_tree.specs.Height.{height};
ghost use Rattle.event_tree.specs.Risen.{IsRaisedAt};

use super::filling::Begun;
use super::growth::Growth;
use super::{Children, EvTree, Node};
use crate::{Point, RaisedPoint};
use id_tree::{IdTree, Parts as IdParts};
use std::alloc::Global;
use std::mem;
use trace_types::Memory;

impl EvTree {
    /// The tree after an event of this id, by the published `event`: it fills the tree if that changes it, and else grows
    /// it.
    ///
    /// It makes the nodes on the way to what is raised, and shares the rest. Returns `Memory` if it runs out of memory.
    /// An id of everything takes none.
    pub fn event(alloc: Global, id: &IdTree, tree: &EvTree) -> Result<EvTree, Memory>
        requires some { id.now ≢ Zero }
        requires fits { maximum tree.now + 1 < 2 ^ 64 }
        ensures exact { IfOk result (λ after. after ≡ event id.now tree.now) }
        ensures whole { id.now ≡ One → IsOk result }
    {
        let (after, _) = EvTree::event_with_point(alloc, id, tree)?;
        Ok(after)
    }

    /// The tree after the event, as [`EvTree::event`] gives it, and a point of the id that the event raised, with the
    /// value there.
    ///
    /// Finding the point takes no memory. There is none only if one of the two trees is higher than the 128 levels of a
    /// [`Point`].
    pub fn event_with_point(
        alloc: Global,
        id: &IdTree,
        tree: &EvTree,
    ) -> Result<(EvTree, Option<RaisedPoint>), Memory>
        requires some { id.now ≢ Zero }
        requires fits { maximum tree.now + 1 < 2 ^ 64 }
        ensures exact { IfOk result (λ found. found.0 ≡ event id.now tree.now) }
        ensures raised { IfOk result (λ found. IfSome found.1 (λ raised. IsRaisedAt id.now tree.now found.0 raised.point)) }
        ensures value { IfOk result (λ found. IfSome found.1 (λ raised. raised.value ≡ value found.0 raised.point)) }
        ensures deep { IfOk result (λ found. IfNone found.1 (128 < max (height tree.now) (height found.0))) }
        ensures whole { id.now ≡ One → IsOk result }
    {
        if let (Node::Leaf(n), true) = (&tree.node, id.is_one()) {
            return Ok(EvTree::next_number(*n));
        }
        tree.normal();
        id_tree::laws::each_tree_is_normal(id);
        let mut growth = Growth::ROOT;
        let mut after = EvTree::leaf(0);
        let grew = tree.event_into(alloc, id, &mut growth, &mut after)?;
        if grew {
            return Ok((after, growth.raised()));
        }
        let filled = after;
        let raised = tree.risen_point(id, &filled);
        Ok((filled, raised))
    }

    /// The tree of this one number after an event of an id that owns every point.
    fn next_number(n: u64) -> (EvTree, Option<RaisedPoint>)
        requires { n + 1 < 2 ^ 64 }
        ensures exact { result.0 ≡ event One (Leaf n) }
        ensures raised { IfSome result.1 (λ raised. IsRaisedAt One (Leaf n) result.0 raised.point) }
        ensures value { IfSome result.1 (λ raised. raised.value ≡ value result.0 raised.point) }
        ensures some { IsSome result.1 }
    {
        let value = n + 1;
        let raised = RaisedPoint {
            point: Point::of(0),
            value,
        };
        (EvTree::leaf(value), Some(raised))
    }

    /// Puts the tree after an event of the id into `made`, and tells whether it grew. If it grew, `growth` tells where. If
    /// not, it was filled.
    ///
    /// If the id owns points of one half alone, the event is that of the half, and the other half stays as it is. So one walk
    /// leads to the uppermost node with points of the id in both halves.
    #[cycle(event_into)]
    #[inline(always)]
    fn event_into(
        &self,
        alloc: Global,
        id: &IdTree,
        growth: &mut Growth,
        made: &mut EvTree,
    ) -> Result<bool, Memory>
        requires some { id.now ≢ Zero }
        requires fits { maximum self.now + 1 < 2 ^ 64 }
        ensures exact { IfOk result (λ grew. made.new ≡ event id.now self.now) }
        ensures grew { IfOk result (λ grew. IsTrue grew → GrewAt growth.new.steps self.now made.new growth.new.point) }
        ensures whole { id.now ≡ One → IsOk result }
    {
        match (id.parts(), &self.node) {
            (IdParts::Pair(left_id, right_id), Node::Fork { base, children })
                if left_id.is_zero() && !right_id.is_one() => {
                children.event_on_right(alloc, *base, right_id, growth, made)
            }
            (IdParts::Pair(left_id, right_id), Node::Fork { base, children })
                if right_id.is_zero() && !left_id.is_one() => {
                children.event_on_left(alloc, *base, left_id, growth, made)
            }
            _ => self.event_here(alloc, id, growth, made),
        }
    }

    /// Puts the tree after the event into `made`, from its root: one walk fills, or finds what growth costs, and growth
    /// is another.
    #[inline(never)]
    fn event_here(
        &self,
        alloc: Global,
        id: &IdTree,
        growth: &mut Growth,
        made: &mut EvTree,
    ) -> Result<bool, Memory>
        requires some { id.now ≢ Zero }
        requires fits { maximum self.now + 1 < 2 ^ 64 }
        ensures exact { IfOk result (λ grew. made.new ≡ event id.now self.now) }
        ensures grew { IfOk result (λ grew. IsTrue grew → GrewAt growth.new.steps self.now made.new growth.new.point) }
        ensures whole { id.now ≡ One → IsOk result }
    {
        let mut found = Begun::Unfilled(None);
        self.begun(alloc, id, &mut found)?;
        match found {
            Begun::Unfilled(price) => {
                *made = self.grown(alloc, id, price, growth)?;
                Ok(true)
            }
            Begun::Filled(filled) => {
                *made = filled;
                Ok(false)
            }
        }
    }
}

impl Children {
    /// Puts the node over these two with this number into `made`, as it is after an event. The id is what the event owns of
    /// the right half, which is some of its points. It owns none of the left half.
    #[cycle(event_into)]
    #[inline(never)]
    fn event_on_right(
        &self,
        alloc: Global,
        base: u64,
        id: &IdTree,
        growth: &mut Growth,
        made: &mut EvTree,
    ) -> Result<bool, Memory>
        requires some { id.now ≢ Zero }
        requires part { id.now ≢ One }
        requires normal { IsNormal (plain_Node base self.now.left self.now.right) }
        requires fits { base + max (maximum self.now.left) (maximum self.now.right) + 1 < 2 ^ 64 }
        ensures exact { IfOk result (λ grew. made.new ≡ event (Pair Zero id.now) (plain_Node base self.now.left self.now.right)) }
        ensures grew { IfOk result (λ grew. IsTrue grew
            → GrewAt growth.new.steps (plain_Node base self.now.left self.now.right) made.new growth.new.point) }
    {
        id_tree::laws::each_tree_is_normal(id);
        let grew = self.right.event_into(alloc, id, growth, made)?;
        growth.lift(grew, 1, base)?;
        let right = mem::replace(made, self.left.share(alloc)?);
        made.fork_with(alloc, base, right)?;
        Ok(grew)
    }

    /// Puts the node after the event into `made` as [`Children::event_on_right`] does, if the event owns points of the left
    /// half alone.
    #[cycle(event_into)]
    #[inline(never)]
    fn event_on_left(
        &self,
        alloc: Global,
        base: u64,
        id: &IdTree,
        growth: &mut Growth,
        made: &mut EvTree,
    ) -> Result<bool, Memory>
        requires some { id.now ≢ Zero }
        requires part { id.now ≢ One }
        requires normal { IsNormal (plain_Node base self.now.left self.now.right) }
        requires fits { base + max (maximum self.now.left) (maximum self.now.right) + 1 < 2 ^ 64 }
        ensures exact { IfOk result (λ grew. made.new ≡ event (Pair id.now Zero) (plain_Node base self.now.left self.now.right)) }
        ensures grew { IfOk result (λ grew. IsTrue grew
            → GrewAt growth.new.steps (plain_Node base self.now.left self.now.right) made.new growth.new.point) }
    {
        id_tree::laws::each_tree_is_normal(id);
        let grew = self.left.event_into(alloc, id, growth, made)?;
        growth.lift(grew, 0, base)?;
        let right = self.right.share(alloc)?;
        made.fork_with(alloc, base, right)?;
        Ok(grew)
    }
}
