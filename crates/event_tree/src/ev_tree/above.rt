//! Points at which a tree is above another one.
ghost use Rattle.std.specs.Prelude.{◌≡◌, ◌+◌, ◌^◌, ◌<◌, ◌≤◌, ◌↔◌, ◌∷◌, [], max, length, IfNone, IfOk, IfSome, IsTrue};
ghost use Rattle.trace_types.specs.clock.Points.{Point as Halves};
ghost use Rattle.trace_types.specs.clock.EventTree.{value, minimum, maximum};
ghost use Rattle.event_tree.specs.Above.{IsBelowOrPath};
ghost use Rattle.event_tree.specs.Height.{height};
ghost use Rattle.event_tree.specs.PathCode.{half_on};
ghost use Rattle.event_tree.specs.Risen.{NoneRisen};

use super::{EvTree, Node};
use crate::path::parted;
use crate::{Path, RaisedPoint};
use std::alloc::AllocError;

impl EvTree {
    /// A point at which this tree is above `other`, and the value there. It is the point to which [`EvTree::leq_or_path`]
    /// leads the path, by the same walk.
    ///
    /// It finds none if this tree is nowhere above the other, or if that point lies below the 128 levels of a [`Point`].
    /// In the second case the path leads there. Only the path takes memory. After an `AllocError` it leads to some point.
    ///
    /// [`Point`]: crate::Point
    pub fn point_above(
        &self,
        other: &EvTree,
        path: &mut Path,
    ) -> Result<Option<RaisedPoint>, AllocError>
        ensures above { IfOk result (λ found. IfSome found (λ above. value other.now above.point < value self.now above.point)) }
        ensures value { IfOk result (λ found. IfSome found (λ above. above.value ≡ value self.now above.point)) }
        ensures none { IfOk result (λ found. IfNone found (NoneRisen 128 0 other.now 0 self.now)) }
    {
        if self.leq_or_path(other, path)? {
            return Ok(None);
        }
        match path.point() {
            Some(point) => Ok(Some(RaisedPoint {
                value: self.value_at(&point),
                point,
            })),
            None => Ok(None),
        }
    }

    /// Whether the value of this tree at the path is above that of `other`. It walks both trees along the path until the
    /// ranges of values decide, and takes no memory.
    pub fn is_above_at(&self, other: &EvTree, path: &Path) -> bool
        ensures { IsTrue result ↔ (value other.now path.now < value self.now path.now) }
    {
        self.normal();
        other.normal();
        let mut rights = path.rights();
        let (mut one, mut one_lift) = (self, 0u64);
        let (mut two, mut two_lift) = (other, 0u64);
        loop {
            if two_lift + two.max() < one_lift + one.min() {
                return true;
            }
            if one_lift + one.max() <= two_lift + two.min() {
                return false;
            }
            let (right, below) = parted(rights);
            rights = below;
            let (one_part, one_above) = one.part(one_lift, right);
            let (two_part, two_above) = two.part(two_lift, right);
            one = one_part;
            one_lift = one_above;
            two = two_part;
            two_lift = two_above;
        }
    }

    /// The half of the tree, and what is to be added to its values.
    fn part(&self, lift: u64, right: bool) -> (&EvTree, u64)
        requires { lift + maximum self.now < 2 ^ 64 }
        ensures value { (point : Halves) → result.1 + value result.0.now point ≡ lift + value self.now (half_on right ∷ point) }
        ensures fits { result.1 + maximum result.0.now < 2 ^ 64 }
        ensures lower { height result.0.now ≤ height self.now }
        ensures falls { minimum self.now < maximum self.now → height result.0.now < height self.now }
    {
        match &self.node {
            Node::Leaf(_) => (self, lift),
            Node::Fork { base, children, .. } => {
                let lift = lift + *base;
                if right {
                    (&children.right, lift)
                } else {
                    (&children.left, lift)
                }
            }
        }
    }

    /// Leads the path to a least value of the tree.
    fn lead_to_least(&self, path: &mut Path) -> Result<(), AllocError>
        requires { path.old ≡ [] }
        ensures least { IfOk result (λ done. value self.now path.new ≡ minimum self.now) }
        ensures short { IfOk result (λ done. length path.new ≤ height self.now) }
    {
        if let Node::Fork { children, .. } = &self.node {
            let right = children.right.min() < children.left.min();
            if right {
                children.right.lead_to_least(path)?;
            } else {
                children.left.lead_to_least(path)?;
            }
            path.put_above(right)?;
        }
        Ok(())
    }

    /// Leads the path to a greatest value of the tree.
    fn lead_to_greatest(&self, path: &mut Path) -> Result<(), AllocError>
        requires { path.old ≡ [] }
        ensures greatest { IfOk result (λ done. value self.now path.new ≡ maximum self.now) }
        ensures short { IfOk result (λ done. length path.new ≤ height self.now) }
    {
        if let Node::Fork { children, .. } = &self.node {
            let right = children.left.max() < children.right.max();
            if right {
                children.right.lead_to_greatest(path)?;
            } else {
                children.left.lead_to_greatest(path)?;
            }
            path.put_above(right)?;
        }
        Ok(())
    }
}

/// Whether no value of the first tree is above that of the other at the same point, each lifted by the number beside it.
/// If some value is, the path leads there.
pub(super) fn is_below_or_path(
    one: &EvTree,
    one_lift: u64,
    other: &EvTree,
    other_lift: u64,
    path: &mut Path,
) -> Result<bool, AllocError>
    requires one_fits { one_lift + maximum one.now < 2 ^ 64 }
    requires other_fits { other_lift + maximum other.now < 2 ^ 64 }
    requires none { path.old ≡ [] }
    ensures found { IfOk result (λ below. IsBelowOrPath below one_lift one.now other_lift other.now path.new) }
    ensures short { IfOk result (λ below. length path.new ≤ max (height one.now) (height other.now)) }
{
    let here = one.range(one_lift);
    let there = other.range(other_lift);
    if here.is_below(there) {
        return Ok(true);
    }
    if there.low < here.low {
        other.lead_to_least(path)?;
        return Ok(false);
    }
    if there.high < here.high {
        one.lead_to_greatest(path)?;
        return Ok(false);
    }
    match (&one.node, &other.node) {
        (
            Node::Fork { base, children, .. },
            Node::Fork {
                base: other_base,
                children: other_children,
                ..
            },
        ) => {
            let (one_lift, other_lift) = (one_lift + *base, other_lift + *other_base);
            let (left, other_left) = (&children.left, &other_children.left);
            if !is_below_or_path(left, one_lift, other_left, other_lift, path)? {
                path.put_above(false)?;
                return Ok(false);
            }
            let (right, other_right) = (&children.right, &other_children.right);
            if !is_below_or_path(right, one_lift, other_right, other_lift, path)? {
                path.put_above(true)?;
                return Ok(false);
            }
            Ok(true)
        }
        // A leaf has one value, so the ranges have decided.
        _ => unreachable!(),
    }
}
