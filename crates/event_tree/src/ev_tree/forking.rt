//! Nodes over two trees, in normal form.
ghost use Rattle.std.specs.Prelude.{◌≡◌, ◌+◌, ◌^◌, ◌<◌, ◌≤◌, max, IfOk, IsOk};
ghost use Rattle.trace_types.specs.clock.EventTree.{Node as plain_Node, IsNormal, minimum, maximum};
ghost use Rattle.trace_types.specs.clock.Norm.{norm, lowered};
ghost use Rattle.event_tree.specs.Digest.{tree_digest};
ghost use Rattle.event_tree.specs.Leaves.{IsLeafTree};

use super::{Children, EvTree, Node};
use std::alloc::Global;
use std::mem;
use std::sync::Arc;
use trace_types::{Memory, digest_of_both};

/// The greatest value of a tree, and its digest.
#[derive(Clone, Copy)]
struct Facts {
    high: u64,
    digest: u64,
}

impl EvTree {
    /// The normal form of the tree with `n` added to what `left` and `right` say of the two halves.
    ///
    /// It takes one block, or none if it comes to a leaf. Both trees are lost if it returns `Memory`.
    pub fn fork(alloc: Global, n: u64, left: EvTree, right: EvTree) -> Result<EvTree, Memory>
        requires { n + max (maximum left) (maximum right) < 2 ^ 64 }
        ensures exact { IfOk result (λ tree. tree ≡ norm n left right) }
        ensures leaf { IsLeafTree (norm n left right) → IsOk result }
    {
        let mut tree = left;
        tree.fork_with(alloc, n, right)?;
        Ok(tree)
    }

    /// Puts this tree and the one on its right under a node, as [`EvTree::fork`] does. Both are lost if it returns `Memory`.
    pub(super) fn fork_with(&mut self, alloc: Global, n: u64, right: EvTree) -> Result<(), Memory>
        requires { n + max (maximum self.old) (maximum right) < 2 ^ 64 }
        ensures exact { IfOk result (λ done. self.new ≡ norm n self.old right) }
        ensures leaf { IsLeafTree (norm n self.old right) → IsOk result }
    {
        if let (Node::Leaf(one), Node::Leaf(other)) = (&self.node, &right.node)
            && one == other
        {
            *self = EvTree::leaf(n + *one);
            return Ok(());
        }
        let common = self.min().min(right.min());
        let mut right = right;
        self.lower(common);
        right.lower(common);
        self.node_with(alloc, n + common, right)
    }

    /// Puts this tree and the one on its right under the node with this number.
    pub(super) fn node_with(
        &mut self,
        alloc: Global,
        base: u64,
        right: EvTree,
    ) -> Result<(), Memory>
        requires normal { IsNormal (plain_Node base self.old right) }
        requires fits { base + max (maximum self.old) (maximum right) < 2 ^ 64 }
        ensures { IfOk result (λ done. self.new ≡ plain_Node base self.old right) }
    {
        let (on_left, on_right) = (self.facts(), right.facts());
        let children = Children {
            left: mem::replace(self, EvTree::leaf(0)),
            right,
            spread: on_left.high.max(on_right.high),
            digest: digest_of_both(on_left.digest, on_right.digest),
        };
        *self = EvTree {
            node: Node::Fork {
                base,
                children: Arc::new(alloc, children)?,
            },
        };
        Ok(())
    }

    /// What a node keeps of a child.
    fn facts(&self) -> Facts
        ensures high { result.high ≡ maximum self.now }
        ensures digest { result.digest ≡ tree_digest self.now }
    {
        match &self.node {
            Node::Leaf(n) => Facts {
                high: *n,
                digest: *n,
            },
            Node::Fork { base, children } => Facts {
                high: *base + children.spread,
                digest: base.wrapping_add(children.digest),
            },
        }
    }

    /// Lowers the least value by `by`.
    fn lower(&mut self, by: u64)
        requires { by ≤ minimum self.old }
        ensures { self.new ≡ lowered by self.old }
    {
        match &mut self.node {
            Node::Leaf(n) => *n -= by,
            Node::Fork { base, .. } => *base -= by,
        }
    }
}
