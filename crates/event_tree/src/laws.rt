//! The laws of event trees. Each is the contract of a function that does nothing.
ghost use Rattle.trace_types.specs.clock.EventTree.{EventTree};
ghost use Rattle.event_tree.specs.Laws.{NormalIsCanonical, NormKeepsValues, NormIsNormal, HasExtremes, StandSomehow, StandOneWay, SameIsEqual};
ghost use Rattle.event_tree.specs.Laws.{JoinHasTheGreater, JoinIsNormal};
ghost use Rattle.event_tree.specs.Laws.{FillLowersNone, FillStaysOutside, FillIsNormal};
ghost use Rattle.event_tree.specs.Laws.{EventLowersNone, EventStaysOutside, EventRises, EventIsBounded, EventIsNormal};
ghost use Rattle.event_tree.specs.Tables.{IsPublishedJoin, IsPublishedGrow, IsPublishedEvent};

/// Two normal trees with equal values at every point are the same tree.
pub fn canonical()
    ensures { NormalIsCanonical }
{}

/// `EvTree::fork` gives the tree that its arguments describe.
pub fn norm_value()
    ensures values { NormKeepsValues }
    ensures normal { NormIsNormal }
{}

/// The least and the greatest value of a tree are values that it has, and bound all others.
pub fn extremes()
    ensures { (tree : EventTree) → HasExtremes tree }
{}

/// Two trees stand to each other in exactly one way.
pub fn one_order()
    ensures some { StandSomehow }
    ensures one { StandOneWay }
{}

/// `Order::Same` says that two trees are equal.
pub fn same_is_equal()
    ensures { SameIsEqual }
{}

/// `join`, `grown` and `event` are those of the published tables, row by row.
pub fn tables()
    ensures join { IsPublishedJoin }
    ensures grow { IsPublishedGrow }
    ensures event { IsPublishedEvent }
{}

/// The join has at each point the greater value.
pub fn join_value()
    ensures values { JoinHasTheGreater }
    ensures normal { JoinIsNormal }
{}

/// Filling below an id lowers no value, and raises values only at points that the id owns.
pub fn fill_raises()
    ensures lowers_none { FillLowersNone }
    ensures outside { FillStaysOutside }
    ensures normal { FillIsNormal }
{}

/// An event lowers no value. It raises one at least, at points that its id owns, and no other.
pub fn event_raises()
    ensures lowers_none { EventLowersNone }
    ensures outside { EventStaysOutside }
    ensures rises { EventRises }
    ensures bounded { EventIsBounded }
    ensures normal { EventIsNormal }
{}
