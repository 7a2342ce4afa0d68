//! Comparing two lifted trees.
ghost use Rattle.std.specs.Prelude.{◌≡◌, ◌+◌, ◌^◌, ◌<◌, ◌≤◌, ◌↔◌, ◌||◌, max, IfSome, IsTrue, MatchOption};
ghost use Rattle.trace_types.specs.clock.EventTree.{maximum};
ghost use Rattle.trace_types.specs.clock.Size.{inner_of_tree};
ghost use Rattle.event_tree.specs.Lifted.{IsLiftedBelow};
ghost use Rattle.event_tree.specs.Ranges.{range_of, IsRangeBelow, CanBeBelow};

use super::{Children, EvTree, Node};

impl EvTree {
    /// The least and the greatest value of the lifted tree.
    pub(super) fn range(&self, lift: u64) -> Range
        requires { lift + maximum self.now < 2 ^ 64 }
        ensures { result ≡ range_of lift self.now }
    {
        Range {
            low: lift + self.min(),
            high: lift + self.max(),
        }
    }
}

/// The least and the greatest value of a lifted tree.
#[derive(Clone, Copy)]
pub(super) struct Range {
    pub(super) low: u64,
    pub(super) high: u64,
}

impl Range {
    /// Whether every value of this range is at most every value of the other.
    pub(super) fn is_below(self, other: Range) -> bool
        ensures { IsTrue result ↔ IsRangeBelow self other }
    {
        self.high <= other.low
    }

    fn is_same(self, other: Range) -> bool
        ensures { IsTrue result ↔ (self ≡ other) }
    {
        self.low == other.low && self.high == other.high
    }

    fn can_be_below(self, other: Range) -> bool
        ensures { IsTrue result ↔ CanBeBelow self other }
    {
        self.low <= other.low && self.high <= other.high
    }
}

/// Which of the two directions of a comparison hold.
#[derive(Clone, Copy)]
pub(super) struct Directions {
    pub(super) below: bool,
    pub(super) above: bool,
}

impl Directions {
    pub(super) fn any(self) -> bool
        ensures { result ≡ (self.below || self.above) }
    {
        self.below || self.above
    }
}

/// Whether no value of the first tree is above that of the other at the same point, each lifted by the number beside it.
#[cycle(is_below)]
#[inline(always)]
pub(super) fn is_below(one: &EvTree, one_lift: u64, other: &EvTree, other_lift: u64) -> bool
    requires one_fits { one_lift + maximum one.now < 2 ^ 64 }
    requires other_fits { other_lift + maximum other.now < 2 ^ 64 }
    ensures { IsTrue result ↔ IsLiftedBelow one_lift one.now other_lift other.now }
{
    let here = one.range(one_lift);
    let there = other.range(other_lift);
    if here.is_below(there) {
        return true;
    }
    if !here.can_be_below(there) {
        return false;
    }
    match (&one.node, &other.node) {
        (
            Node::Fork { base, children, .. },
            Node::Fork {
                base: other_base,
                children: other_children,
                ..
            },
        ) => {
            let (root, other_root) = (one_lift + *base, other_lift + *other_base);
            are_below(children, root, other_children, other_root)
        }
        // A leaf has one value, so the ranges have decided.
        _ => unreachable!(),
    }
}

/// Whether each of the two trees, lifted by the number at its root, is so below the other one on its side.
#[cycle(is_below)]
#[inline(never)]
fn are_below(one: &Children, root: u64, other: &Children, other_root: u64) -> bool
    requires one_fits { root + max (maximum one.now.left) (maximum one.now.right) < 2 ^ 64 }
    requires other_fits { other_root + max (maximum other.now.left) (maximum other.now.right) < 2 ^ 64 }
    ensures { IsTrue result ↔ (IsLiftedBelow root one.now.left other_root other.now.left
        × IsLiftedBelow root one.now.right other_root other.now.right) }
{
    is_below(&one.left, root, &other.left, other_root)
        && is_below(&one.right, root, &other.right, other_root)
}

/// Answers as [`is_below`] does, or `None` if a walk over `steps` inner nodes does not show it. Else `steps` is how many
/// of them are left.
#[cycle(is_below_within)]
#[inline(always)]
pub(super) fn is_below_within(
    one: &EvTree,
    one_lift: u64,
    other: &EvTree,
    other_lift: u64,
    steps: &mut u64,
) -> Option<bool>
    requires one_fits { one_lift + maximum one.now < 2 ^ 64 }
    requires other_fits { other_lift + maximum other.now < 2 ^ 64 }
    ensures is { IfSome result (λ below. IsTrue below ↔ IsLiftedBelow one_lift one.now other_lift other.now) }
    ensures short { MatchOption result (steps.old < inner_of_tree one.now) (λ _. steps.old ≤ steps.new + inner_of_tree one.now) }
{
    let span = one.range(one_lift);
    let other_span = other.range(other_lift);
    if span.is_below(other_span) {
        return Some(true);
    }
    if !span.can_be_below(other_span) {
        return Some(false);
    }
    match (&one.node, &other.node) {
        (
            Node::Fork { base, children, .. },
            Node::Fork {
                base: other_base,
                children: other_children,
                ..
            },
        ) => {
            let (root, other_root) = (one_lift + *base, other_lift + *other_base);
            are_below_within(children, root, other_children, other_root, steps)
        }
        // A leaf has one value, so the ranges have decided.
        _ => unreachable!(),
    }
}

/// Answers as [`are_below`] does, or `None` if walks over `steps` inner nodes do not show it. A step is for the node above
/// the two.
#[cycle(is_below_within)]
#[inline(never)]
fn are_below_within(
    one: &Children,
    root: u64,
    other: &Children,
    other_root: u64,
    steps: &mut u64,
) -> Option<bool>
    requires one_fits { root + max (maximum one.now.left) (maximum one.now.right) < 2 ^ 64 }
    requires other_fits { other_root + max (maximum other.now.left) (maximum other.now.right) < 2 ^ 64 }
    ensures is { IfSome result (λ below. IsTrue below ↔ (IsLiftedBelow root one.now.left other_root other.now.left
        × IsLiftedBelow root one.now.right other_root other.now.right)) }
    ensures short { MatchOption result
        (steps.old < inner_of_tree one.now.left + inner_of_tree one.now.right + 1)
        (λ _. steps.old ≤ steps.new + (inner_of_tree one.now.left + inner_of_tree one.now.right + 1)) }
{
    *steps = steps.checked_sub(1)?;
    if !is_below_within(&one.left, root, &other.left, other_root, steps)? {
        return Some(false);
    }
    is_below_within(&one.right, root, &other.right, other_root, steps)
}

/// Which directions hold between the two trees, each lifted by the number beside it.
///
/// If the ranges differ, they refute one direction at least at once, so at most one is left to walk.
pub(super) fn compare(one: &EvTree, one_lift: u64, other: &EvTree, other_lift: u64) -> Directions
    requires one_fits { one_lift + maximum one.now < 2 ^ 64 }
    requires other_fits { other_lift + maximum other.now < 2 ^ 64 }
    ensures below { IsTrue result.below ↔ IsLiftedBelow one_lift one.now other_lift other.now }
    ensures above { IsTrue result.above ↔ IsLiftedBelow other_lift other.now one_lift one.now }
{
    if !one.range(one_lift).is_same(other.range(other_lift)) {
        return Directions {
            below: is_below(one, one_lift, other, other_lift),
            above: is_below(other, other_lift, one, one_lift),
        };
    }
    match (&one.node, &other.node) {
        (
            Node::Fork { base, children, .. },
            Node::Fork {
                base: other_base,
                children: other_children,
                ..
            },
        ) => {
            let (one_lift, other_lift) = (one_lift + *base, other_lift + *other_base);
            let (left, other_left) = (&children.left, &other_children.left);
            let (right, other_right) = (&children.right, &other_children.right);
            let on_left = compare(left, one_lift, other_left, other_lift);
            match (on_left.below, on_left.above) {
                (true, true) => compare(right, one_lift, other_right, other_lift),
                (true, false) => Directions {
                    below: is_below(right, one_lift, other_right, other_lift),
                    above: false,
                },
                (false, true) => Directions {
                    below: false,
                    above: is_below(other_right, other_lift, right, one_lift),
                },
                (false, false) => on_left,
            }
        }
        // A leaf has one value, so each is as the other.
        _ => Directions {
            below: true,
            above: true,
        },
    }
}
