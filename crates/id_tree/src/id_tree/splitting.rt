//! Splitting of an id.
ghost use Rattle.std.specs.Prelude.{◌≡◌, ◌≢◌, IfOk, IsOk};
ghost use Rattle.trace_types.specs.clock.Id.{Zero, Pair};
ghost use Rattle.trace_types.specs.clock.IdOperations.{split};

use super::{IdTree, Node};
use std::alloc::Global;
use trace_types::Memory;

impl IdTree {
    /// Two ids that share out the points of this one, by the published `split`. Both own a point if this one does.
    ///
    /// It takes two blocks for the place where the id is divided, and two for each pair above that place. An id of
    /// nothing takes none.
    #[tactic(auto, using(crate::proofs::Split::split_both))]
    pub fn split(&self, alloc: Global) -> Result<(IdTree, IdTree), Memory>
        ensures exact { IfOk result (λ parts. parts ≡ split self.now) }
        ensures nothing { self.now ≡ Zero → IsOk result }
    {
        match &self.node {
            Node::Zero => Ok((IdTree::zero(), IdTree::zero())),
            Node::One => IdTree::one_each(alloc, IdTree::one(), IdTree::one()),
            Node::Pair(halves) if halves.left.is_zero() => {
                let (first, second) = halves.right.split(alloc)?;
                IdTree::both_right(alloc, first, second)
            }
            Node::Pair(halves) if halves.right.is_zero() => {
                let (first, second) = halves.left.split(alloc)?;
                IdTree::both_left(alloc, first, second)
            }
            Node::Pair(halves) => {
                let first = halves.left.share(alloc)?;
                let second = halves.right.share(alloc)?;
                IdTree::one_each(alloc, first, second)
            }
        }
    }

    fn both_left(alloc: Global, first: IdTree, second: IdTree) -> Result<(IdTree, IdTree), Memory>
        requires first_some { first ≢ Zero }
        requires second_some { second ≢ Zero }
        ensures { IfOk result (λ ids. ids ≡ (Pair first Zero, Pair second Zero)) }
    {
        let first = IdTree::in_left(alloc, first)?;
        let second = IdTree::in_left(alloc, second)?;
        Ok((first, second))
    }

    fn both_right(alloc: Global, first: IdTree, second: IdTree) -> Result<(IdTree, IdTree), Memory>
        requires first_some { first ≢ Zero }
        requires second_some { second ≢ Zero }
        ensures { IfOk result (λ ids. ids ≡ (Pair Zero first, Pair Zero second)) }
    {
        let first = IdTree::in_right(alloc, first)?;
        let second = IdTree::in_right(alloc, second)?;
        Ok((first, second))
    }

    fn one_each(alloc: Global, first: IdTree, second: IdTree) -> Result<(IdTree, IdTree), Memory>
        requires first_some { first ≢ Zero }
        requires second_some { second ≢ Zero }
        ensures { IfOk result (λ ids. ids ≡ (Pair first Zero, Pair Zero second)) }
    {
        let first = IdTree::in_left(alloc, first)?;
        let second = IdTree::in_right(alloc, second)?;
        Ok((first, second))
    }

    fn in_left(alloc: Global, left: IdTree) -> Result<IdTree, Memory>
        requires { left ≢ Zero }
        ensures { IfOk result (λ id. id ≡ Pair left Zero) }
    {
        IdTree::pair(alloc, left, IdTree::zero())
    }

    fn in_right(alloc: Global, right: IdTree) -> Result<IdTree, Memory>
        requires { right ≢ Zero }
        ensures { IfOk result (λ id. id ≡ Pair Zero right) }
    {
        IdTree::pair(alloc, IdTree::zero(), right)
    }
}
