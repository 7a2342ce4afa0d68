//! What tells soon how the trees of events compare.
ghost use Rattle.std.specs.Prelude.{◌≡◌, ◌-◌, ◌↔◌, [], None, IsTrue, false, slice_index_or};
ghost use Rattle.event_tree.specs.Comparison.{IsBelow};
ghost use Rattle.trace_export.specs.Raised.{IsForgotten, IsHigher, IsPutAt};

use crate::sides::{Sides, is_below};
use event_tree::{EvTree, RaisedPoint};
use std::alloc::Global;
use std::mem;

/// The sides and the points of the trees of the first events. They are there for speed alone, so they may be given back.
#[derive(Drop)]
pub(crate) struct Hints {
    /// The sides of each tree. Those of event k are at k - 1.
    sides: Vec<Sides>,
    /// The sides of the tree that is compared next.
    pub(crate) own: Sides,
    /// A point at which each tree is above those that its event follows, if one is known and it told something so far.
    points: Vec<Option<RaisedPoint>>,
    /// Whether there was memory for them so far.
    are_kept: bool,
}

impl Hints {
    /// The hints of no events. It takes no memory.
    pub(crate) fn new(alloc: Global) -> Hints
        ensures none { result.points.items ≡ [] }
    {
        Hints {
            sides: Vec::new(alloc),
            own: Sides::new(alloc),
            points: Vec::new(alloc),
            are_kept: true,
        }
    }

    /// Gives back what they take, and keeps none from now on. It says whether there was anything to be given back.
    pub(crate) fn give_back(&mut self, alloc: Global) -> bool
        ensures told { result ≡ self.old.are_kept }
        ensures given_back { self.new.are_kept ≡ false }
        ensures sides { self.new.sides.items ≡ [] }
        ensures none { self.new.points.items ≡ [] }
    {
        let were_kept = self.are_kept;
        self.sides = Vec::new(alloc);
        self.own = Sides::new(alloc);
        self.points = Vec::new(alloc);
        self.are_kept = false;
        were_kept
    }

    /// Whether hints are to be kept.
    pub(crate) fn are_kept(&self) -> bool
        ensures { result ≡ self.now.are_kept }
    {
        self.are_kept
    }

    /// Of how many events they are.
    pub(crate) fn len(&self) -> usize {
        self.points.len()
    }

    /// Keeps the sides of the tree that was compared, and this point of it. Its event is at this place, and comes next. If there
    /// is no memory for them, all are given back.
    pub(crate) fn put(&mut self, alloc: Global, place: usize, point: Option<RaisedPoint>)
        ensures points { IsPutAt place point self.old.points.items self.new.points.items }
        ensures given_back { self.old.are_kept ≡ false → self.new.are_kept ≡ false }
    {
        let is_next = self.are_kept && self.points.len() == place;
        let own = mem::replace(&mut self.own, Sides::new(alloc));
        if !is_next || self.sides.push(own).is_err() || self.points.push(point).is_err() {
            self.give_back(alloc);
        }
    }

    /// Whether the tree of the event is above the other tree at its point. It reads the other tree alone. A point that does
    /// not tell this is forgotten: the sides may tell sooner.
    #[inline(always)]
    pub(crate) fn is_higher(&mut self, event: usize, other: &EvTree) -> bool
        ensures higher { IsTrue result → IsHigher (slice_index_or self.old.points.items (event - 1) None) other.now }
        ensures points { IsForgotten (event - 1) self.old.points.items self.new.points.items }
        ensures kept { self.new.are_kept ≡ self.old.are_kept }
    {
        if event == 0 || self.points.len() < event {
            return false;
        }
        if is_higher(&self.points[event - 1], other) {
            return true;
        }
        self.points[event - 1] = None;
        false
    }

    /// Whether one of these trees is below the other. The event's is the lower one if it `is_lower`, else the upper one. The
    /// other one is the tree that is compared.
    #[inline(always)]
    pub(crate) fn is_below(
        &mut self,
        event: usize,
        is_lower: bool,
        lower: &EvTree,
        upper: &EvTree,
    ) -> bool
        ensures below { IsTrue result ↔ IsBelow lower.now upper.now }
        ensures points { self.new.points ≡ self.old.points }
        ensures kept { self.new.are_kept ≡ self.old.are_kept }
    {
        if event == 0 || self.sides.len() < event {
            return lower.leq(upper);
        }
        if is_lower {
            is_below(lower, &mut self.sides[event - 1], upper, &mut self.own)
        } else {
            is_below(lower, &mut self.own, upper, &mut self.sides[event - 1])
        }
    }
}

/// Whether the tree whose point this is was above the other tree there.
#[inline(always)]
fn is_higher(point: &Option<RaisedPoint>, other: &EvTree) -> bool
    ensures { IsTrue result ↔ IsHigher point.now other.now }
{
    match point {
        Some(raised) => !other.is_at_least(&raised.point, raised.value),
        None => false,
    }
}
