//! What the definitions of this crate mean. Each law is the contract of a function that does nothing.
ghost use Rattle.trace_query.specs.Laws.{ComparesAsStands, HasExactly, HasLastOfTasks, IsIncreasing, IsIncreasingCut, IsToldByOrders, IsToldByReach};
ghost use Rattle.trace_types.specs.declared.order.Order.TheVariants.{Before, Concurrent};
ghost use Rattle.trace_query.specs.Queries.{trees_before, concurrent_of};

/// The computed comparison of two trees is the way in which they stand to each other.
pub fn comparison()
    ensures { ComparesAsStands }
{}

/// The lists have exactly the other events whose trees stand so. Each is there once, and they increase.
pub fn lists()
    ensures past { HasExactly Before trees_before }
    ensures concurrent { HasExactly Concurrent concurrent_of }
    ensures past_increasing { IsIncreasing trees_before }
    ensures concurrent_increasing { IsIncreasing concurrent_of }
{}

/// The lists are those of an order that events have by themselves, if the trees stand to each other as the events do.
pub fn told_by_orders()
    ensures past { IsToldByOrders Before trees_before }
    ensures concurrent { IsToldByOrders Concurrent concurrent_of }
{}

/// The cut has exactly the events that are below the event while no later one of their task is. The events increase.
pub fn cut()
    ensures last { HasLastOfTasks }
    ensures increasing { IsIncreasingCut }
{}

/// The cut is that of the events themselves, if they reach each other exactly as their trees are below each other. The
/// numbers have to tell which tasks are the same.
pub fn told_by_reach()
    ensures { IsToldByReach }
{}
