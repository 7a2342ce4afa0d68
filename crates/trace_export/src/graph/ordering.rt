//! Comparison of the event that comes next with the earlier ones.
ghost use Rattle.std.specs.Prelude.{◌≡◌, ℕ, suc, ◌<◌, ◌++◌, ◌∷◌, ◌↔◌, ◌⊎◌, ◌-◌, [], IsTrue, length, All, Contains, false};
ghost use Rattle.event_tree.specs.Comparison.{IsBelow};
ghost use Rattle.trace_export.specs.Bits.{HasBit};
ghost use Rattle.trace_export.specs.Chains.{IsOnChain};
ghost use Rattle.trace_export.specs.Edges.{IsPlaced, AreOrderedAlike, listed_tree};
ghost use Rattle.trace_export.specs.Graph.{AreClosed, AreEarlier, AreKeptLines, ArePoints, AreReaching, IsApartFrom, IsApartFromChain, IsFirstMissing, IsRefutedBy};
ghost use Rattle.trace_export.specs.Verdict.{IsOrderedNext};

use super::Graph;
use crate::bits::{has_bit, run_outside};
use crate::hints::Hints;
use crate::placed::Placed;
use event_tree::EvTree;
use trace_types::Preds;

impl Graph {
    /// Whether the event that these reach may come next, so whether its tree and the earlier ones compare as the edges
    /// say. They do if its tree is above those of the events that it follows, and apart from the others.
    pub(super) fn is_ordered(&self, reaching: &[u64], placed: &Placed, hints: &mut Hints) -> bool
        requires graph { AreKeptLines self.now }
        requires preds { AreEarlier placed.now.preds (suc (length self.now.placed.items)) }
        requires reaching { AreReaching (self.now.placed.items ++ placed.now ∷ []) reaching.now (suc (length self.now.placed.items)) }
        requires points { ArePoints hints.old.points.items self.now.placed.items }
        ensures points { ArePoints hints.new.points.items self.now.placed.items }
        ensures kept { hints.new.are_kept ≡ hints.old.are_kept }
        ensures ordered { IsTrue result → IsOrderedNext self.now.placed.items placed.now }
        ensures refuted { result ≡ false → ((other : ℕ) × IsPlaced self.now.placed.items other
            × (¬ AreOrderedAlike (self.now.placed.items ++ placed.now ∷ []) other (suc (length self.now.placed.items)))) }
    {
        if !self.is_above_all(&placed.preds, &placed.tree) {
            return false;
        }
        self.is_apart_from_all(reaching, placed, hints)
    }

    /// Whether the trees of all these events are below the tree.
    fn is_above_all(&self, preds: &Preds, tree: &EvTree) -> bool
        requires preds { AreEarlier preds.now (suc (length self.now.placed.items)) }
        ensures above { IsTrue result → All (λ pred. IsBelow (listed_tree self.now.placed.items pred) tree.now) preds.now }
        ensures refuted { result ≡ false → (pred : ℕ) × Contains preds.now pred × (¬ IsBelow (listed_tree self.now.placed.items pred) tree.now) }
    {
        for pred in preds.as_slice().iter() {
            if !self.at(*pred as usize).tree.leq(tree) {
                return false;
            }
        }
        true
    }

    /// Whether the tree is apart from those of all events. It looks at the ends of chains which some event does not follow, or
    /// which do not reach the tree's event.
    fn is_apart_from_all(&self, reaching: &[u64], placed: &Placed, hints: &mut Hints) -> bool
        requires graph { AreKeptLines self.now }
        requires preds { AreEarlier placed.now.preds (suc (length self.now.placed.items)) }
        requires above { All (λ pred. IsBelow (listed_tree self.now.placed.items pred) placed.now.tree) placed.now.preds }
        requires closed { AreClosed self.now.placed.items reaching.now }
        requires points { ArePoints hints.old.points.items self.now.placed.items }
        ensures points { ArePoints hints.new.points.items self.now.placed.items }
        ensures kept { hints.new.are_kept ≡ hints.old.are_kept }
        ensures apart { IsTrue result → (event : ℕ) → IsPlaced self.now.placed.items event
            → IsApartFrom self.now.placed.items self.now.followed.items reaching.now placed.now.tree event }
        ensures refuted { result ≡ false → ((event : ℕ) × IsPlaced self.now.placed.items event
            × IsRefutedBy self.now.placed.items reaching.now placed.now.tree event) }
    {
        let mut place = 0;
        while place < self.placed.len() {
            let run = run_outside(&self.chains.tails, &self.followed, reaching, place);
            if run == 0 && !self.is_apart_from_chain(reaching, placed, place + 1, hints) {
                return false;
            }
            place += run.max(1);
        }
        true
    }

    /// Whether the tree is apart from those of the chain that ends with the event.
    fn is_apart_from_chain(
        &self,
        reaching: &[u64],
        placed: &Placed,
        event: usize,
        hints: &mut Hints,
    ) -> bool
        requires graph { AreKeptLines self.now }
        requires preds { AreEarlier placed.now.preds (suc (length self.now.placed.items)) }
        requires above { All (λ pred. IsBelow (listed_tree self.now.placed.items pred) placed.now.tree) placed.now.preds }
        requires closed { AreClosed self.now.placed.items reaching.now }
        requires event { IsPlaced self.now.placed.items event }
        requires points { ArePoints hints.old.points.items self.now.placed.items }
        ensures points { ArePoints hints.new.points.items self.now.placed.items }
        ensures kept { hints.new.are_kept ≡ hints.old.are_kept }
        ensures apart { IsTrue result → IsApartFromChain self.now.placed.items self.now.chains.before.items self.now.followed.items reaching.now placed.now.tree event }
        ensures refuted { result ≡ false → ((other : ℕ) × IsPlaced self.now.placed.items other
            × IsRefutedBy self.now.placed.items reaching.now placed.now.tree other) }
    {
        if self.is_below_last(placed, event, hints) {
            return false;
        }
        !self.is_above_first(reaching, &placed.tree, event, hints)
    }

    /// Whether none follows the event, and the tree is below its tree. Such an event is or follows each that the tree's event
    /// follows: their trees are below this one.
    fn is_below_last(&self, placed: &Placed, event: usize, hints: &mut Hints) -> bool
        requires graph { AreKeptLines self.now }
        requires preds { AreEarlier placed.now.preds (suc (length self.now.placed.items)) }
        requires above { All (λ pred. IsBelow (listed_tree self.now.placed.items pred) placed.now.tree) placed.now.preds }
        requires event { IsPlaced self.now.placed.items event }
        ensures points { hints.new.points ≡ hints.old.points }
        ensures kept { hints.new.are_kept ≡ hints.old.are_kept }
        ensures below { IsTrue result → IsBelow placed.now.tree (listed_tree self.now.placed.items event) }
        ensures not_below { result ≡ false → (¬ HasBit self.now.followed.items (event - 1)) → ¬ IsBelow placed.now.tree (listed_tree self.now.placed.items event) }
    {
        if has_bit(&self.followed, event - 1) {
            return false;
        }
        if !are_or_reach(&placed.preds, event, &self.reaching[event - 1]) {
            return false;
        }
        hints.is_below(event, false, &placed.tree, &self.at(event).tree)
    }

    /// Whether the tree is above that of the first event which does not reach it, of the chain that ends with this one. All that
    /// this first event follows reaches the tree's event, or the tree is not compared with it.
    fn is_above_first(
        &self,
        reaching: &[u64],
        tree: &EvTree,
        event: usize,
        hints: &mut Hints,
    ) -> bool
        requires graph { AreKeptLines self.now }
        requires closed { AreClosed self.now.placed.items reaching.now }
        requires event { IsPlaced self.now.placed.items event }
        requires points { ArePoints hints.old.points.items self.now.placed.items }
        ensures points { ArePoints hints.new.points.items self.now.placed.items }
        ensures kept { hints.new.are_kept ≡ hints.old.are_kept }
        ensures above { IsTrue result → (other : ℕ) × IsPlaced self.now.placed.items other
            × (¬ HasBit reaching.now (other - 1)) × IsBelow (listed_tree self.now.placed.items other) tree.now }
        ensures not_above { result ≡ false → (other : ℕ) → IsPlaced self.now.placed.items other → IsOnChain self.now.chains.before.items other event
            → IsFirstMissing self.now.placed.items reaching.now other → ¬ IsBelow (listed_tree self.now.placed.items other) tree.now }
    {
        if has_bit(reaching, event - 1) {
            return false;
        }
        let first = self.chains.first_outside(reaching, event);
        if !all_reach(reaching, &self.at(first).preds) {
            return false;
        }
        self.is_above(tree, first, hints)
    }

    /// Whether the tree is above that of the event. It is not if the event's tree is above it at its point.
    fn is_above(&self, tree: &EvTree, event: usize, hints: &mut Hints) -> bool
        requires event { IsPlaced self.now.placed.items event }
        requires points { ArePoints hints.old.points.items self.now.placed.items }
        ensures points { ArePoints hints.new.points.items self.now.placed.items }
        ensures kept { hints.new.are_kept ≡ hints.old.are_kept }
        ensures above { IsTrue result ↔ IsBelow (listed_tree self.now.placed.items event) tree.now }
    {
        if hints.is_higher(event, tree) {
            return false;
        }
        hints.is_below(event, true, &self.at(event).tree, tree)
    }
}

/// Whether all these events are among those that reach.
#[inline(always)]
fn all_reach(reaching: &[u64], preds: &Preds) -> bool
    requires { All (λ pred. 0 < pred) preds.now }
    ensures { IsTrue result ↔ All (λ pred. HasBit reaching.now (pred - 1)) preds.now }
{
    preds
        .as_slice()
        .iter()
        .all(|pred| has_bit(reaching, *pred as usize - 1))
}

/// Whether each of these events is this one, or is among those that reach it.
#[inline(always)]
fn are_or_reach(preds: &Preds, event: usize, reaching: &[u64]) -> bool
    requires { All (λ pred. 0 < pred) preds.now }
    ensures { IsTrue result ↔ All (λ pred. (pred ≡ event) ⊎ HasBit reaching.now (pred - 1)) preds.now }
{
    preds.as_slice().iter().all(|pred| *pred as usize == event
        || has_bit(reaching, *pred as usize - 1))
}
