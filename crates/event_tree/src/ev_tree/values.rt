//! Values of a tree.
ghost use Rattle.std.specs.Prelude.{◌≡◌, ◌≤◌, ◌↔◌, IfSome, IsTrue};
ghost use Rattle.trace_types.specs.clock.EventTree.{value, minimum, maximum};

use super::{EvTree, Node};
use crate::Point;

impl EvTree {
    /// The least value at any point, found in one step.
    pub fn min(&self) -> u64
        ensures { result ≡ minimum self.now }
    {
        match self.node {
            Node::Leaf(n) => n,
            Node::Fork { base, .. } => base,
        }
    }

    /// The greatest value at any point, found in one step.
    pub fn max(&self) -> u64
        ensures { result ≡ maximum self.now }
    {
        match &self.node {
            Node::Leaf(n) => *n,
            Node::Fork { base, children } => *base + children.spread,
        }
    }

    /// The value at the point, by a walk along the one path to it. It takes no memory.
    pub fn value_at(&self, point: &Point) -> u64
        ensures { result ≡ value self.now point.now }
    {
        self.normal();
        let mut tree = self;
        let mut halves = point.halves();
        let mut sum: u64 = 0;
        loop {
            match &tree.node {
                Node::Leaf(n) => return sum + *n,
                Node::Fork { base, children, .. } => {
                    sum += *base;
                    tree = if halves % 2 == 0 {
                        &children.left
                    } else {
                        &children.right
                    };
                    halves /= 2;
                }
            }
        }
    }

    /// Whether the value at the point is at least `least`. It walks along the path to the point until the ranges of
    /// values decide, and takes no memory.
    pub fn is_at_least(&self, point: &Point, least: u64) -> bool
        ensures { IsTrue result ↔ (least ≤ value self.now point.now) }
    {
        self.normal();
        let mut tree = self;
        let mut rest = point.halves();
        let mut lift: u64 = 0;
        loop {
            if least <= lift + tree.min() {
                return true;
            }
            if lift + tree.max() < least {
                return false;
            }
            match &tree.node {
                // A leaf has one value, so the range has decided.
                Node::Leaf(_) => unreachable!(),
                Node::Fork { base, children, .. } => {
                    lift += *base;
                    tree = if rest % 2 == 0 {
                        &children.left
                    } else {
                        &children.right
                    };
                    rest /= 2;
                }
            }
        }
    }

    /// Whether the value at the point is at least `least`, if the ranges of values decide it within so many levels. It takes no
    /// memory.
    pub fn is_at_least_within(&self, point: &Point, least: u64, levels: u64) -> Option<bool>
        ensures { IfSome result (λ is. IsTrue is ↔ (least ≤ value self.now point.now)) }
    {
        self.normal();
        let mut tree = self;
        let mut rest = point.halves();
        let mut lift: u64 = 0;
        let mut left = levels;
        loop {
            if least <= lift + tree.min() {
                return Some(true);
            }
            if lift + tree.max() < least {
                return Some(false);
            }
            if left == 0 {
                return None;
            }
            left -= 1;
            match &tree.node {
                // A leaf has one value, so the range has decided.
                Node::Leaf(_) => unreachable!(),
                Node::Fork { base, children, .. } => {
                    lift += *base;
                    tree = if rest % 2 == 0 {
                        &children.left
                    } else {
                        &children.right
                    };
                    rest /= 2;
                }
            }
        }
    }
}
