//! What an event begins with: it fills the tree, or finds out what growth costs.
ghost use Rattle.std.specs.Prelude.{◌≡◌, ◌+◌, ◌^◌, ◌<◌, ◌↔◌, ◌⊎◌, ◌||◌, true, max, Option, None, IfOk, IfSome, IfNone, IsOk, IsTrue};
ghost use Rattle.trace_types.specs.clock.Id.{One, Pair};
ghost use Rattle.trace_types.specs.clock.EventTree.{Leaf, Node as plain_Node, minimum, maximum, IsNormal};
ghost use Rattle.trace_types.specs.clock.Norm.{norm};
ghost use Rattle.trace_types.specs.clock.Fill.{fill};
ghost use Rattle.trace_types.specs.clock.Grow.{Cost as Price, is_less, cheaper, dearer, cost};
ghost use Rattle.event_tree.specs.Filled.{filled_over, is_filled, Rises, GivesFilled, IsPriced};

use super::{Children, EvTree, Node};
use id_tree::{IdTree, Parts as IdParts};
use std::alloc::Global;
use std::marker::Model;
use std::mem;
use trace_types::Memory;

/// What growing a tree costs: numbers made nodes, and steps down.
#[derive(Clone, Copy)]
pub(super) struct Cost {
    expansions: u64,
    pub(super) steps: u64,
}

impl Model for Cost {
    ghost use Rattle.trace_types.specs.clock.Grow.{Cost as Price};

    ghost Value = { Price };

    ghost view = { λ c. record { expansions = c.expansions; steps = c.steps } };

    ghost inverse = { λ c. record { expansions = c.expansions; steps = c.steps } };
}

impl Cost {
    const NOTHING: Cost = Cost {
        expansions: 0,
        steps: 0,
    };

    pub(super) fn is_nothing(self) -> bool
        ensures { IsTrue result ↔ (self.expansions ≡ 0) × (self.steps ≡ 0) }
    {
        self.expansions == 0 && self.steps == 0
    }

    fn is_less(self, other: Cost) -> bool
        ensures { result ≡ is_less self other }
    {
        self.expansions < other.expansions
            || self.expansions == other.expansions && self.steps < other.steps
    }

    /// The cheaper of the two, or the second if they are equal.
    fn cheaper(one: Option<Cost>, other: Option<Cost>) -> Option<Cost>
        ensures { result ≡ cheaper one other }
    {
        match (one, other) {
            (Some(cost), Some(other_cost)) if cost.is_less(other_cost) => one,
            (Some(_), None) => one,
            _ => other,
        }
    }

    /// What growing a node over two halves costs. A path that is too long to be counted fits in no memory.
    #[inline(always)]
    fn above(
        left: Option<Cost>,
        right: Option<Cost>,
        expansions: u64,
    ) -> Result<Option<Cost>, Memory>
        ensures { IfOk result (λ price. price ≡ dearer expansions 1 (cheaper left right)) }
    {
        let Some(least) = Cost::cheaper(left, right) else {
            return Ok(None);
        };
        Ok(Some(Cost {
            expansions: least.expansions.checked_add(expansions).ok_or(Memory)?,
            steps: least.steps.checked_add(1).ok_or(Memory)?,
        }))
    }

    /// What is left of the price after a step, if the price allows the step.
    pub(super) fn after_step(self, expansions: u64) -> Option<Cost>
        ensures left { IfSome result (λ left.
            (self.expansions ≡ left.expansions + expansions) × (self.steps ≡ left.steps + 1)) }
        ensures spent { IfNone result ((self.expansions < expansions) ⊎ (self.steps ≡ 0)) }
    {
        if self.expansions < expansions || self.steps == 0 {
            None
        } else {
            Some(Cost {
                expansions: self.expansions - expansions,
                steps: self.steps - 1,
            })
        }
    }
}

/// The least cost of growing a number.
fn number_cost(id: &IdTree) -> Result<Option<Cost>, Memory>
    ensures { IfOk result (λ price. price ≡ cost id.now (Leaf 0)) }
{
    match id.parts() {
        IdParts::Zero => Ok(None),
        IdParts::One => Ok(Some(Cost::NOTHING)),
        IdParts::Pair(left, right) => Cost::above(number_cost(left)?, number_cost(right)?, 1),
    }
}

/// What an event begins with at a part of a tree.
#[derive(Drop)]
pub(super) enum Begun {
    /// Filling leaves the part as it is. Growing it costs this, if it can grow.
    Unfilled(Option<Cost>),
    /// The filled part, which is another one.
    Filled(EvTree),
}

impl Begun {
    /// The least value after filling.
    fn min(&self, before: &EvTree) -> u64
        ensures { result ≡ minimum (filled_over self.now before.now) }
    {
        match self {
            Begun::Filled(tree) => tree.min(),
            Begun::Unfilled(_) => before.min(),
        }
    }

    /// Takes out the part after filling.
    fn take(&mut self, alloc: Global, before: &EvTree) -> Result<EvTree, Memory>
        ensures { IfOk result (λ tree. tree ≡ filled_over self.old before.now) }
    {
        match mem::replace(self, Begun::Unfilled(None)) {
            Begun::Filled(tree) => Ok(tree),
            Begun::Unfilled(_) => before.share(alloc),
        }
    }
}

impl EvTree {
    /// Puts what an event of the id begins with into `found`.
    #[cycle(begun)]
    #[inline(always)]
    pub(super) fn begun(&self, alloc: Global, id: &IdTree, found: &mut Begun) -> Result<(), Memory>
        requires { found.old ≡ Begun.Unfilled None }
        ensures gives { IfOk result (λ done. GivesFilled found.new self.now (fill id.now self.now)) }
        ensures price { IfOk result (λ done. IsPriced found.new (cost id.now self.now)) }
        ensures whole { id.now ≡ One → IsOk result }
    {
        match (id.parts(), &self.node) {
            (IdParts::Zero, _) => {}
            (IdParts::One, _) => *found = self.flattened(0),
            (IdParts::Pair(..), Node::Leaf(_)) => *found = Begun::Unfilled(number_cost(id)?),
            (IdParts::Pair(left_id, right_id), Node::Fork { base, children, .. }) => {
                children.begun_under(alloc, *base, (left_id, right_id), found)?;
            }
        }
        Ok(())
    }

    /// What an event begins with if the id owns the tree whole: its greatest value, but at least `least`, everywhere.
    fn flattened(&self, least: u64) -> Begun
        ensures gives { GivesFilled result self.now (Leaf (max (maximum self.now) least)) }
        ensures price { IsPriced result (cost One self.now) }
    {
        match self.node {
            Node::Leaf(n) if n < least => Begun::Filled(EvTree::leaf(least)),
            Node::Leaf(_) => Begun::Unfilled(Some(Cost::NOTHING)),
            Node::Fork { .. } => Begun::Filled(EvTree::leaf(self.max().max(least))),
        }
    }
}

impl Children {
    /// Puts what an event of an id of these two halves begins with into `found`, at the node over these two with this
    /// number.
    #[cycle(begun)]
    #[inline(never)]
    fn begun_under(
        &self,
        alloc: Global,
        base: u64,
        id: (&IdTree, &IdTree),
        found: &mut Begun,
    ) -> Result<(), Memory>
        requires normal { IsNormal (plain_Node base self.now.left self.now.right) }
        requires fits { base + max (maximum self.now.left) (maximum self.now.right) < 2 ^ 64 }
        ensures gives { IfOk result (λ done. GivesFilled found.new (plain_Node base self.now.left self.now.right)
            (fill (Pair id.entry.0.now id.entry.1.now) (plain_Node base self.now.left self.now.right))) }
        ensures price { IfOk result (λ done. IsPriced found.new
            (cost (Pair id.entry.0.now id.entry.1.now) (plain_Node base self.now.left self.now.right))) }
    {
        let mut left = Begun::Unfilled(None);
        let mut right = Begun::Unfilled(None);
        if id.0.is_one() {
            self.right.begun(alloc, id.1, &mut right)?;
            left = self.left.flattened(right.min(&self.right));
            self.begun_over(alloc, base, &mut left, &mut right, found)
        } else if id.1.is_one() {
            self.left.begun(alloc, id.0, &mut left)?;
            right = self.right.flattened(left.min(&self.left));
            self.begun_over(alloc, base, &mut left, &mut right, found)
        } else {
            self.left.begun(alloc, id.0, &mut left)?;
            self.right.begun(alloc, id.1, &mut right)?;
            self.begun_over(alloc, base, &mut left, &mut right, found)
        }
    }

    /// Puts what an event that begins so with these two begins with at the node over them into `found`.
    #[inline(always)]
    fn begun_over(
        &self,
        alloc: Global,
        base: u64,
        left: &mut Begun,
        right: &mut Begun,
        found: &mut Begun,
    ) -> Result<(), Memory>
        requires normal { IsNormal (plain_Node base self.now.left self.now.right) }
        requires fits { base + max (maximum (filled_over left.old self.now.left)) (maximum (filled_over right.old self.now.right)) < 2 ^ 64 }
        requires normals { IsNormal (filled_over left.old self.now.left) × IsNormal (filled_over right.old self.now.right) }
        requires rises { Rises left.old self.now.left × Rises right.old self.now.right }
        ensures gives { IfOk result (λ done. GivesFilled found.new (plain_Node base self.now.left self.now.right)
            (norm base (filled_over left.old self.now.left) (filled_over right.old self.now.right))) }
        ensures price { (one other : Option Price) → IsPriced left.old one → IsPriced right.old other
            → IfOk result (λ done. IsPriced found.new (dearer 0 1 (cheaper one other))) }
    {
        match (&*left, &*right) {
            (Begun::Unfilled(one), Begun::Unfilled(other)) => {
                *found = Begun::Unfilled(Cost::above(*one, *other, 0)?);
                Ok(())
            }
            (Begun::Filled(_), _) | (_, Begun::Filled(_)) => {
                self.fill_over(alloc, base, left, right, found)
            }
        }
    }

    /// Puts the node over these two as they are after filling into `found`.
    #[inline(never)]
    fn fill_over(
        &self,
        alloc: Global,
        base: u64,
        left: &mut Begun,
        right: &mut Begun,
        found: &mut Begun,
    ) -> Result<(), Memory>
        requires normal { IsNormal (plain_Node base self.now.left self.now.right) }
        requires fits { base + max (maximum (filled_over left.old self.now.left)) (maximum (filled_over right.old self.now.right)) < 2 ^ 64 }
        requires normals { IsNormal (filled_over left.old self.now.left) × IsNormal (filled_over right.old self.now.right) }
        requires rises { Rises left.old self.now.left × Rises right.old self.now.right }
        requires some { (is_filled left.old || is_filled right.old) ≡ true }
        ensures price { (price : Option Price) → IfOk result (λ done. IsPriced found.new price) }
        ensures gives { IfOk result (λ done. GivesFilled found.new (plain_Node base self.now.left self.now.right)
            (norm base (filled_over left.old self.now.left) (filled_over right.old self.now.right))) }
    {
        let left = left.take(alloc, &self.left)?;
        let right = right.take(alloc, &self.right)?;
        *found = Begun::Filled(EvTree::fork(alloc, base, left, right)?);
        Ok(())
    }
}
