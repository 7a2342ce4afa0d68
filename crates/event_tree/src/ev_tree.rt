//! Event trees, kept normal.
ghost use Rattle.std.specs.Prelude.{◌≡◌, ◌+◌, ◌-◌, ◌^◌, ◌<◌, ◌↔◌, ◌≤◌, min, max, length, IfOk, IfSome, IfNone, IsOk, IsTrue, false};
ghost use Rattle.trace_types.specs.clock.EventTree.{Leaf, IsNormal, value, maximum};
ghost use Rattle.event_tree.specs.Comparison.{IsBelow, StandsAs};
ghost use Rattle.trace_types.specs.clock.Join.{join};
ghost use Rattle.trace_types.specs.clock.Size.{inner_of_tree};
ghost use Rattle.event_tree.specs.Digest.{tree_digest};
ghost use Rattle.event_tree.specs.Height.{height};
ghost use Rattle.event_tree.specs.Leaves.{IsLeafTree};
ghost use Rattle.event_tree.specs.Parts.{tree_of_parts};

use crate::Path;
use above::is_below_or_path;
use comparison::{Directions, compare, is_below, is_below_within};
use joining::joined;
use std::alloc::{AllocError, Global};
use std::fmt;
use std::marker::Model;
use std::sync::Arc;
use trace_types::{Memory, Order};

mod above;
mod comparison;
mod events;
mod filling;
mod forking;
mod growth;
mod joining;
mod point_search;
mod values;

/// An event tree in normal form, whose greatest value is below 2^64 (Almeida, Baquero and Fonte 2008).
///
/// Trees share their parts: an operation counts a part that it leaves as it was, and makes no copy. A call that is handed
/// an allocator returns `Memory` if it runs out of memory, or if such a count is full.
#[cycle(ev_tree)]
#[derive(Drop)]
pub struct EvTree {
    node: Node,
}

#[cycle(ev_tree)]
#[derive(Drop)]
enum Node {
    Leaf(u64),
    Fork { base: u64, children: Arc<Children> },
}

/// The children of an inner node, their greatest value, and the digest of the two. Their least value is 0.
#[cycle(ev_tree)]
#[derive(Drop)]
struct Children {
    left: EvTree,
    right: EvTree,
    spread: u64,
    digest: u64,
}

/// The parts of a tree, with the children of an inner node lent.
#[derive(Debug, Drop)]
pub enum Parts<'a> {
    /// The tree has one value everywhere.
    Leaf(u64),
    /// The least value, and what each half adds to it.
    Node(u64, &'a EvTree, &'a EvTree),
}

impl Model for EvTree {
    ghost use Rattle.trace_types.specs.clock.EventTree.{EventTree};
    ghost use Rattle.event_tree.specs.EventTreeCode.{event_tree_code};

    ghost Value = { EventTree };

    ghost coded = { event_tree_code };

    ghost use Rattle.event_tree.specs.Height.{height};
    ghost use Rattle.event_tree.specs.Kept.{tree_of_node, IsKeptNode};

    ghost view = { λ a. tree_of_node a.node };

    ghost invariant = { λ a. IsKeptNode a.node };

    ghost size = { height };

    ghost use Rattle.event_tree.specs.KeptFalls.{depth_le-height};

    ghost size_decreases = { λ a h. depth_le-height a.node };
}

impl EvTree {
    /// The tree with one value everywhere. It takes no memory.
    pub fn leaf(n: u64) -> EvTree
        ensures { result ≡ Leaf n }
    {
        EvTree {
            node: Node::Leaf(n),
        }
    }

    /// The parts of the tree. It takes no memory.
    pub fn parts(&self) -> Parts<'_>
        ensures exact { tree_of_parts result ≡ self.now }
        ensures normal { IsNormal self.now }
        ensures fits { maximum self.now < 2 ^ 64 }
    {
        match &self.node {
            Node::Leaf(n) => Parts::Leaf(*n),
            Node::Fork { base, children, .. } => {
                Parts::Node(*base, &children.left, &children.right)
            }
        }
    }

    /// An equal tree over the same children, made in constant time and without a block of memory. Returns `Memory` if a
    /// part would stand in more trees than can be counted.
    pub fn share(&self, _alloc: Global) -> Result<EvTree, Memory>
        ensures exact { IfOk result (λ tree. tree ≡ self.now) }
        ensures leaf { IsLeafTree self.now → IsOk result }
    {
        match &self.node {
            Node::Leaf(n) => Ok(EvTree::leaf(*n)),
            Node::Fork { base, children } => Ok(EvTree {
                node: Node::Fork {
                    base: *base,
                    children: Arc::try_clone(children)?,
                },
            }),
        }
    }

    /// The tree that has at each point the greater of the two values, by the published `join`.
    ///
    /// It shares every part that one of the two has, and makes no node if one tree is nowhere above the other. Returns
    /// `Memory` if it runs out of memory.
    pub fn join(&self, alloc: Global, other: &EvTree) -> Result<EvTree, Memory>
        ensures { IfOk result (λ tree. tree ≡ join self.now other.now) }
    {
        self.normal();
        other.normal();
        let mut made = EvTree::leaf(0);
        let join = joined(alloc, self, 0, other, 0, &mut made)?;
        join.settle(&mut made, self, 0, other, 0)?;
        Ok(made)
    }

    /// A number that equal trees share, found in one step. Most trees that differ have different numbers.
    pub fn digest(&self) -> u64
        ensures { result ≡ tree_digest self.now }
    {
        match &self.node {
            Node::Leaf(n) => *n,
            Node::Fork { base, children, .. } => base.wrapping_add(children.digest),
        }
    }

    /// How many inner nodes the tree has, or `u64::MAX` if there are more. A part that stands in it twice counts twice.
    /// It walks the whole tree, and takes no memory.
    pub fn inner(&self) -> u64
        ensures { result ≡ min (inner_of_tree self.now) (2 ^ 64 - 1) }
    {
        match &self.node {
            Node::Leaf(_) => 0,
            Node::Fork { children, .. } => children
                .left
                .inner()
                .saturating_add(children.right.inner())
                .saturating_add(1),
        }
    }

    /// Whether the two trees have the same value at each point, so whether they are equal.
    ///
    /// It compares digests at each node first, so it hardly ever walks through trees that differ. It walks through equal
    /// trees whole. It takes no memory.
    pub fn same(&self, other: &EvTree) -> bool
        ensures { IsTrue result ↔ (self.now ≡ other.now) }
    {
        match (&self.node, &other.node) {
            (Node::Leaf(n), Node::Leaf(other_n)) => n == other_n,
            (
                Node::Fork { base, children, .. },
                Node::Fork {
                    base: other_base,
                    children: other_children,
                    ..
                },
            ) => {
                base == other_base
                    && children.digest == other_children.digest
                    && children.left.same(&other_children.left)
                    && children.right.same(&other_children.right)
            }
            _ => false,
        }
    }

    /// Whether no value of this tree is above that of `other` at the same point. It walks both trees up to the first
    /// part that refutes it, and takes no memory.
    pub fn leq(&self, other: &EvTree) -> bool
        ensures { IsTrue result ↔ IsBelow self.now other.now }
    {
        self.normal();
        other.normal();
        is_below(self, 0, other, 0)
    }

    /// Answers as [`EvTree::leq`] does, by the same walk. If some value is above, the path leads to such a point.
    ///
    /// Only that path takes memory. After an `AllocError` the path leads to some point.
    pub fn leq_or_path(&self, other: &EvTree, path: &mut Path) -> Result<bool, AllocError>
        ensures below { IfOk result (λ below. IsTrue below ↔ IsBelow self.now other.now) }
        ensures above { IfOk result (λ below. below ≡ false → value other.now path.new < value self.now path.new) }
        ensures short { IfOk result (λ below. length path.new ≤ max (height self.now) (height other.now)) }
    {
        self.normal();
        other.normal();
        path.clear();
        is_below_or_path(self, 0, other, 0, path)
    }

    /// How this tree stands to `other`, by one walk over both. It takes no memory.
    pub fn order(&self, other: &EvTree) -> Order
        ensures { StandsAs result self.now other.now }
    {
        self.normal();
        other.normal();
        self.standing(other, compare(self, 0, other, 0))
    }

    /// How this tree stands to `other`, or `None` if walks over `steps` inner nodes do not show it. It takes no memory.
    ///
    /// It is for a caller that has a shorter way than a long walk. A budget of the inner nodes of both trees always gives
    /// the answer.
    pub fn order_within(&self, other: &EvTree, steps: u64) -> Option<Order>
        ensures order { IfSome result (λ order. StandsAs order self.now other.now) }
        ensures short { IfNone result (steps < inner_of_tree self.now + inner_of_tree other.now) }
    {
        self.normal();
        other.normal();
        let mut left = steps;
        let below = is_below_within(self, 0, other, 0, &mut left)?;
        let above = is_below_within(other, 0, self, 0, &mut left)?;
        Some(self.standing(other, Directions { below, above }))
    }

    /// How this tree stands to `other` if these directions hold.
    fn standing(&self, other: &EvTree, holding: Directions) -> Order
        requires below { IsTrue holding.below ↔ IsBelow self.now other.now }
        requires above { IsTrue holding.above ↔ IsBelow other.now self.now }
        ensures { StandsAs result self.now other.now }
    {
        match (holding.below, holding.above) {
            (true, true) => Order::Same,
            (true, false) => Order::Before,
            (false, true) => Order::After,
            (false, false) => Order::Concurrent,
        }
    }

    /// Every tree is normal, and its greatest value fits.
    fn normal(&self)
        ensures normal { IsNormal self.now }
        ensures fits { maximum self.now < 2 ^ 64 }
    {
        // The prover learns the invariant of a tree where a field of it is read.
        let _node = &self.node;
    }
}

impl fmt::Debug for EvTree {
    /// Writes the tree as `n` or `(n,left,right)`.
    fn fmt<W: fmt::Write>(&self, f: &mut fmt::Formatter<W>) -> fmt::Result {
        match self.parts() {
            Parts::Leaf(n) => write!(f, "{n}"),
            Parts::Node(n, left, right) => write!(f, "({n},{left:?},{right:?})"),
        }
    }
}
