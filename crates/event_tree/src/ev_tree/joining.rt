//! Joins of two lifted trees.
ghost use Rattle.std.specs.Prelude.{◌≡◌, ◌+◌, ◌^◌, ◌<◌, ◌&&◌, ◌||◌, max, IfOk};
ghost use Rattle.trace_types.specs.clock.EventTree.{maximum, Node as plain_Node, IsNormal};
ghost use Rattle.trace_types.specs.clock.Norm.{norm};
ghost use Rattle.trace_types.specs.clock.Join.{lifted, joined_number, joined};
ghost use Rattle.event_tree.specs.Joins.{gives_second, gives_first, bits_of, join_of, IsJoin};

use super::{Children, EvTree, Node};
use std::alloc::Global;
use std::sync::Arc;
use trace_types::Memory;

/// Which tree the join of two lifted trees is.
#[derive(Clone, Copy)]
pub(super) enum Join {
    /// Neither of the two. The tree stands in the place that was lent for it.
    Made,
    /// The second, since the first is nowhere above it.
    Second,
    /// The first, since the second is nowhere above it.
    First,
    /// Either, since they have the same values.
    Either,
}

impl Join {
    /// The join if these directions hold.
    fn of(below: bool, above: bool) -> Join
        ensures second { gives_second result ≡ below }
        ensures first { gives_first result ≡ above }
    {
        match (below, above) {
            (false, false) => Join::Made,
            (true, false) => Join::Second,
            (false, true) => Join::First,
            (true, true) => Join::Either,
        }
    }

    /// Whether it is one of the two trees.
    fn is_given(self) -> bool
        ensures { result ≡ (gives_second self || gives_first self) }
    {
        !matches!(self, Join::Made)
    }

    /// Whether it is the second tree, as the lowest bit, and whether it is the first, as the next one.
    fn bits(self) -> u8
        ensures { result ≡ bits_of self }
    {
        match self {
            Join::Made => 0,
            Join::Second => 1,
            Join::First => 2,
            Join::Either => 3,
        }
    }

    /// The join with these bits.
    fn of_bits(bits: u8) -> Join
        ensures { result ≡ join_of bits }
    {
        match bits {
            0 => Join::Made,
            1 => Join::Second,
            2 => Join::First,
            _ => Join::Either,
        }
    }

    /// The join of two nodes whose children on the left have this join.
    fn beside(self, right: Join) -> Join
        ensures second { gives_second result ≡ (gives_second self && gives_second right) }
        ensures first { gives_first result ≡ (gives_first self && gives_first right) }
    {
        Join::of_bits(self.bits() & right.bits())
    }

    /// Puts the join itself, of the two trees that were joined, into the place that was lent for it.
    #[inline(always)]
    pub(super) fn settle(
        self,
        made: &mut EvTree,
        one: &EvTree,
        one_lift: u64,
        other: &EvTree,
        other_lift: u64,
    ) -> Result<(), Memory>
        requires one_fits { one_lift + maximum one.now < 2 ^ 64 }
        requires other_fits { other_lift + maximum other.now < 2 ^ 64 }
        requires join { IsJoin self made.old one_lift one.now other_lift other.now }
        ensures { IfOk result (λ done. made.new ≡ joined one_lift one.now other_lift other.now) }
    {
        match self {
            Join::Made => Ok(()),
            Join::Second | Join::First | Join::Either => {
                self.put(made, one, one_lift, other, other_lift)
            }
        }
    }

    /// Puts the join itself into the place. It is a function of its own so that the walk has small frames.
    #[inline(never)]
    fn put(
        self,
        made: &mut EvTree,
        one: &EvTree,
        one_lift: u64,
        other: &EvTree,
        other_lift: u64,
    ) -> Result<(), Memory>
        requires one_fits { one_lift + maximum one.now < 2 ^ 64 }
        requires other_fits { other_lift + maximum other.now < 2 ^ 64 }
        requires join { IsJoin self made.old one_lift one.now other_lift other.now }
        ensures { IfOk result (λ done. made.new ≡ joined one_lift one.now other_lift other.now) }
    {
        match self {
            Join::Made => {}
            Join::Second => *made = other.lifted(other_lift)?,
            Join::First | Join::Either => *made = one.lifted(one_lift)?,
        }
        Ok(())
    }
}

/// The join of two trees, each lifted by the number beside it. It makes no part again that one of the two has. A join that
/// is neither is put into `made`, which else may hold any tree.
#[cycle(joined)]
#[inline(always)]
pub(super) fn joined(
    alloc: Global,
    one: &EvTree,
    one_lift: u64,
    other: &EvTree,
    other_lift: u64,
    made: &mut EvTree,
) -> Result<Join, Memory>
    requires one_fits { one_lift + maximum one.now < 2 ^ 64 }
    requires other_fits { other_lift + maximum other.now < 2 ^ 64 }
    ensures { IfOk result (λ join. IsJoin join made.new one_lift one.now other_lift other.now) }
{
    let here = one.range(one_lift);
    let there = other.range(other_lift);
    let below = here.is_below(there);
    let above = there.is_below(here);
    if below || above {
        return Ok(Join::of(below, above));
    }
    match (&one.node, &other.node) {
        (Node::Leaf(n), _) => other.made_with(alloc, other_lift, one_lift + *n, made),
        (_, Node::Leaf(n)) => one.made_with(alloc, one_lift, other_lift + *n, made),
        (
            Node::Fork { base, children, .. },
            Node::Fork {
                base: other_base,
                children: other_children,
                ..
            },
        ) => {
            let (root, other_root) = (one_lift + *base, other_lift + *other_base);
            joined_below(alloc, children, root, other_children, other_root, made)
        }
    }
}

/// The join of two nodes with these numbers at the root.
#[cycle(joined)]
#[inline(never)]
fn joined_below(
    alloc: Global,
    one: &Children,
    root: u64,
    other: &Children,
    other_root: u64,
    made: &mut EvTree,
) -> Result<Join, Memory>
    requires one_fits { root + max (maximum one.now.left) (maximum one.now.right) < 2 ^ 64 }
    requires other_fits { other_root + max (maximum other.now.left) (maximum other.now.right) < 2 ^ 64 }
    ensures { IfOk result (λ join. IsJoin join made.new
        0 (plain_Node root one.now.left one.now.right) 0 (plain_Node other_root other.now.left other.now.right)) }
{
    let on_left = joined(alloc, &one.left, root, &other.left, other_root, made)?;
    let mut right = EvTree::leaf(0);
    let on_right = joined(
        alloc,
        &one.right,
        root,
        &other.right,
        other_root,
        &mut right,
    )?;
    let join = on_left.beside(on_right);
    if join.is_given() {
        return Ok(join);
    }
    on_left.settle(made, &one.left, root, &other.left, other_root)?;
    on_right.settle(&mut right, &one.right, root, &other.right, other_root)?;
    made.fork_with(alloc, 0, right)?;
    Ok(Join::Made)
}

impl EvTree {
    /// Puts what [`EvTree::raised_to`] gives into `made`. It is a function of its own so that the walk has small frames.
    #[inline(never)]
    fn made_with(
        &self,
        alloc: Global,
        lift: u64,
        number: u64,
        made: &mut EvTree,
    ) -> Result<Join, Memory>
        requires { lift + maximum self.now < 2 ^ 64 }
        ensures { IfOk result (λ join. (join ≡ Join.Made) × (made.new ≡ joined_number number lift self.now)) }
    {
        *made = self.raised_to(alloc, lift, number)?;
        Ok(Join::Made)
    }

    /// The tree with its least value raised by `by`, over the same children.
    fn lifted(&self, by: u64) -> Result<EvTree, Memory>
        requires { by + maximum self.now < 2 ^ 64 }
        ensures exact { IfOk result (λ tree. tree ≡ lifted by self.now) }
        ensures normal { IsNormal self.now }
    {
        match &self.node {
            Node::Leaf(n) => Ok(EvTree::leaf(*n + by)),
            Node::Fork { base, children } => Ok(EvTree {
                node: Node::Fork {
                    base: *base + by,
                    children: Arc::try_clone(children)?,
                },
            }),
        }
    }

    /// The join of this tree lifted by `lift` and of `number`.
    fn raised_to(&self, alloc: Global, lift: u64, number: u64) -> Result<EvTree, Memory>
        requires { lift + maximum self.now < 2 ^ 64 }
        ensures { IfOk result (λ tree. tree ≡ joined_number number lift self.now) }
    {
        let range = self.range(lift);
        if range.high <= number {
            return Ok(EvTree::leaf(number));
        }
        if number <= range.low {
            return self.lifted(lift);
        }
        match &self.node {
            // A leaf has one value, so its range has decided.
            Node::Leaf(_) => unreachable!(),
            Node::Fork { base, children, .. } => {
                let root = lift + *base;
                let low = number.min(root);
                let (number, lift) = (number - low, root - low);
                let left = children.left.raised_to(alloc, lift, number)?;
                let right = children.right.raised_to(alloc, lift, number)?;
                EvTree::fork(alloc, low, left, right)
            }
        }
    }
}
