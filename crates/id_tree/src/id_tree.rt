//! The tree of an id.
ghost use Rattle.std.specs.Prelude.{◌≡◌, ◌-◌, ◌^◌, ◌↔◌, min, IfOk, IsOk, IsTrue};
ghost use Rattle.trace_types.specs.clock.Id.{Zero, One, Pair, AreApart, AreDisjoint, IsNormalId};
ghost use Rattle.trace_types.specs.clock.IdOperations.{norm_id, sum};
ghost use Rattle.trace_types.specs.clock.Digest.{digest_of_both};
ghost use Rattle.trace_types.specs.clock.Size.{inner_of_id};
ghost use Rattle.id_tree.specs.Digest.{digest as digest_of};
ghost use Rattle.id_tree.specs.Leaves.{IsLeafId};
ghost use Rattle.id_tree.specs.Parts.{id_of_parts};

use std::alloc::Global;
use std::fmt;
use std::marker::Model;
use std::sync::Arc;
use trace_types::{Memory, digest_of_both};

mod splitting;

/// The points that one task owns, as a tree in normal form (Almeida, Baquero and Fonte 2008).
///
/// Ids share their parts: a pair is one block of memory, and a part that stays as it was is counted once more. A call
/// that is handed an allocator returns `Memory` if it runs out of memory, or if such a count is full.
#[cycle(tree)]
#[derive(Drop)]
pub struct IdTree {
    node: Node,
}

#[cycle(tree)]
#[derive(Drop)]
enum Node {
    Zero,
    One,
    Pair(Arc<Halves>),
}

/// The halves of a pair, and its digest.
#[cycle(tree)]
#[derive(Drop)]
struct Halves {
    left: IdTree,
    right: IdTree,
    digest: u64,
}

/// The parts of an id, with the halves of a pair lent.
#[derive(Debug, Drop)]
pub enum Parts<'a> {
    /// The id owns no point.
    Zero,
    /// The id owns every point.
    One,
    /// What is owned of the left half and of the right half. They are not both nothing, and not both everything.
    Pair(&'a IdTree, &'a IdTree),
}

impl Model for IdTree {
    ghost use Rattle.trace_types.specs.clock.Id.{Id};
    ghost use Rattle.id_tree.specs.IdCode.{id_code, pair_count};

    ghost Value = { Id };

    ghost coded = { id_code };

    ghost use Rattle.id_tree.specs.Node.{id_of_node, IsKeptId};

    ghost view = { λ tree. id_of_node tree.node };

    ghost invariant = { λ tree. IsKeptId tree.node };

    ghost size = { pair_count };

    ghost use Rattle.id_tree.specs.NodeFalls.{depth_le-pair_count};

    ghost size_decreases = { λ tree _. depth_le-pair_count tree.node };
}

impl IdTree {
    /// The id that owns no point.
    pub fn zero() -> IdTree
        ensures { result ≡ Zero }
    {
        IdTree { node: Node::Zero }
    }

    /// The id that owns every point.
    pub fn one() -> IdTree
        ensures { result ≡ One }
    {
        IdTree { node: Node::One }
    }

    /// Whether the id owns no point.
    pub fn is_zero(&self) -> bool
        ensures { IsTrue result ↔ (self.now ≡ Zero) }
    {
        matches!(self.node, Node::Zero)
    }

    /// Whether the id owns every point.
    pub fn is_one(&self) -> bool
        ensures { IsTrue result ↔ (self.now ≡ One) }
    {
        matches!(self.node, Node::One)
    }

    /// The parts of the id. It takes no memory.
    pub fn parts(&self) -> Parts<'_>
        ensures exact { id_of_parts result ≡ self.now }
        ensures normal { IsNormalId self.now }
    {
        match &self.node {
            Node::Zero => Parts::Zero,
            Node::One => Parts::One,
            Node::Pair(halves) => Parts::Pair(&halves.left, &halves.right),
        }
    }

    /// The id that owns in each half what the id for that half owns, in normal form.
    ///
    /// It takes one block, or none if the id comes to nothing or everything. Both ids are lost if it returns `Memory`.
    pub fn fork(alloc: Global, left: IdTree, right: IdTree) -> Result<IdTree, Memory>
        ensures exact { IfOk result (λ id. id ≡ norm_id left right) }
        ensures leaf { IsLeafId (norm_id left right) → IsOk result }
    {
        if left.is_zero() && right.is_zero() {
            Ok(IdTree::zero())
        } else if left.is_one() && right.is_one() {
            Ok(IdTree::one())
        } else {
            IdTree::pair(alloc, left, right)
        }
    }

    /// The id that owns what this one or the other owns, by the published `sum`.
    ///
    /// It takes one block for each pair of which both ids own a part, if that part of the sum is not everything.
    pub fn sum(&self, alloc: Global, other: &IdTree) -> Result<IdTree, Memory>
        requires { AreDisjoint self.now other.now }
        ensures exact { IfOk result (λ id. id ≡ sum self.now other.now) }
        ensures leaf { IsLeafId (sum self.now other.now) → IsOk result }
    {
        match (&self.node, &other.node) {
            (Node::Zero, _) => other.share(alloc),
            (_, Node::Zero) => self.share(alloc),
            (Node::Pair(halves), Node::Pair(others)) => {
                let left = halves.left.sum(alloc, &others.left)?;
                let right = halves.right.sum(alloc, &others.right)?;
                IdTree::fork(alloc, left, right)
            }
            (Node::One, _) | (_, Node::One) => Ok(IdTree::one()),
        }
    }

    /// Whether no point is owned by both. It walks both trees at once, and takes no memory.
    pub fn disjoint(&self, other: &IdTree) -> bool
        ensures { IsTrue result ↔ AreDisjoint self.now other.now }
    {
        match (&self.node, &other.node) {
            (Node::Zero, _) | (_, Node::Zero) => true,
            (Node::Pair(halves), Node::Pair(others)) => {
                halves.left.disjoint(&others.left) && halves.right.disjoint(&others.right)
            }
            (Node::One, Node::One | Node::Pair(..)) | (Node::Pair(..), Node::One) => false,
        }
    }

    /// An equal id, made in one step and without a block of memory. Returns `Memory` if a pair would stand in more ids
    /// than can be counted.
    pub fn share(&self, _alloc: Global) -> Result<IdTree, Memory>
        ensures exact { IfOk result (λ id. id ≡ self.now) }
        ensures leaf { IsLeafId self.now → IsOk result }
    {
        match &self.node {
            Node::Zero => Ok(IdTree::zero()),
            Node::One => Ok(IdTree::one()),
            Node::Pair(halves) => Ok(IdTree {
                node: Node::Pair(Arc::try_clone(halves)?),
            }),
        }
    }

    /// A number that equal ids share, found in one step. Most ids that differ have different numbers.
    pub fn digest(&self) -> u64
        ensures { result ≡ digest_of self.now }
    {
        match &self.node {
            Node::Zero => 0,
            Node::One => 1,
            Node::Pair(halves) => halves.digest,
        }
    }

    /// How many inner nodes the id has, or `u64::MAX` if there are more. A part that stands in it twice counts twice. It
    /// walks the whole id, and takes no memory.
    pub fn inner(&self) -> u64
        ensures { result ≡ min (inner_of_id self.now) (2 ^ 64 - 1) }
    {
        match &self.node {
            Node::Zero | Node::One => 0,
            Node::Pair(halves) => halves
                .left
                .inner()
                .saturating_add(halves.right.inner())
                .saturating_add(1),
        }
    }

    /// Whether the two ids own the same points, so whether they are equal.
    ///
    /// It compares digests at each pair first, so it hardly ever walks through ids that differ. It walks through equal
    /// ids whole. It takes no memory.
    pub fn same(&self, other: &IdTree) -> bool
        ensures { IsTrue result ↔ (self.now ≡ other.now) }
    {
        match (&self.node, &other.node) {
            (Node::Zero, Node::Zero) | (Node::One, Node::One) => true,
            (Node::Pair(halves), Node::Pair(others)) => {
                halves.digest == others.digest
                    && halves.left.same(&others.left)
                    && halves.right.same(&others.right)
            }
            _ => false,
        }
    }

    fn pair(alloc: Global, left: IdTree, right: IdTree) -> Result<IdTree, Memory>
        requires { AreApart left right }
        ensures { IfOk result (λ id. id ≡ Pair left right) }
    {
        let digest = digest_of_both(left.digest(), right.digest());
        let halves = Halves {
            left,
            right,
            digest,
        };
        Ok(IdTree {
            node: Node::Pair(Arc::new(alloc, halves)?),
        })
    }
}

/// Writes the id as in `((1,0),1)`.
impl fmt::Debug for IdTree {
    fn fmt<W: fmt::Write>(&self, f: &mut fmt::Formatter<W>) -> fmt::Result {
        match self.parts() {
            Parts::Zero => f.write_str("0"),
            Parts::One => f.write_str("1"),
            Parts::Pair(left, right) => write!(f, "({left:?},{right:?})"),
        }
    }
}
