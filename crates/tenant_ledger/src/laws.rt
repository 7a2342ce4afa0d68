//! What the stamps of a tenant's events mean. Each law is the contract of a function that does nothing.
ghost use Rattle.std.specs.Prelude.{ℕ, ◌≤◌, IsTrue, List, length};
ghost use Rattle.trace_types.specs.clock.Clock.{tree_clock};
ghost use Rattle.trace_types.specs.tenant.Limits.{Limits, are_limits};
ghost use Rattle.trace_types.specs.tenant.Reachability.{order_of};
ghost use Rattle.trace_types.specs.tenant.Rows.{history_of, is_event};
ghost use Rattle.trace_types.specs.clock.Stamps.{stamp_of, stamp_text_of, tree_of};
ghost use Rattle.trace_types.specs.tenant.Tenant.{AreLegal};
ghost use Rattle.trace_types.specs.declared.row.Row.{Row};
ghost use Rattle.event_tree.specs.Comparison.{StandsAs};
ghost use Rattle.trace_types.specs.clock.Points.{Point};
ghost use Rattle.tenant_ledger.specs.Laws.{DecidesReach, IsAtMostItsNumber, IsRaisedBy};
ghost use Rattle.tenant_ledger.specs.Size.{AreShort, AreSized, HaveShortParts, IsWithinLimits, NestBySpawns, NestsAtMost};

/// The clock theorem: for legal rows, comparing what two events know gives exactly their order in the graph. So the
/// interval tree clock (Almeida, Baquero and Fonte 2008) tells happened-before (Lamport 1978).
pub fn clock()
    ensures { (limits : Limits) (rows : List Row) → AreLegal limits rows → (a b : ℕ)
        → IsTrue (is_event (history_of rows) a) → IsTrue (is_event (history_of rows) b)
        → StandsAs (order_of (history_of rows) a b) (tree_of tree_clock (history_of rows) a) (tree_of tree_clock (history_of rows) b) }
{}

/// For legal rows, no event knows a value above its own number at any point. So no number of a stamp wraps.
pub fn greatest_value()
    ensures { (limits : Limits) (rows : List Row) → AreLegal limits rows → (event : ℕ) → IsAtMostItsNumber (history_of rows) event }
{}

/// For legal rows, a point that an event raised decides which events it reaches. They are exactly those that know as much
/// of the point as the event does. So one value of one tree tells whether an event happened before another.
pub fn private_point()
    ensures { (limits : Limits) (rows : List Row) → AreLegal limits rows → (event : ℕ) (point : Point)
        → IsRaisedBy (history_of rows) event point → DecidesReach (history_of rows) event point }
{}

/// Legal rows are no more than the limit on events, and their tasks no more than that on tasks.
pub fn limits()
    ensures { (limits : Limits) (rows : List Row) → IsTrue (are_limits limits.events limits.tasks limits.messages)
        → AreLegal limits rows → IsWithinLimits limits (history_of rows) }
{}

/// The id of each task, and the id and the tree of each event's stamp, have at most as many inner nodes as tasks had been
/// spawned. So the size of a stamp depends on the spawns alone, however many events there are.
pub fn size()
    ensures { (rows : List Row) → AreSized rows }
{}

/// For legal rows the text of a stamp has at most 18 bytes for each spawn, and 9 more: `4 s + 1` for the id, `14 s + 5`
/// for the tree, whose numbers have at most five digits, and 3 around them. A tenant has at most 2047 spawns, which
/// makes 36855 bytes.
pub fn text_size()
    ensures spawns { (limits : Limits) (rows : List Row) → IsTrue (are_limits limits.events limits.tasks limits.messages)
        → AreLegal limits rows → AreShort rows }
    ensures parts { (limits : Limits) (rows : List Row) → IsTrue (are_limits limits.events limits.tasks limits.messages)
        → AreLegal limits rows → HaveShortParts rows }
    ensures greatest { (limits : Limits) (rows : List Row) → IsTrue (are_limits limits.events limits.tasks limits.messages)
        → AreLegal limits rows → (event : ℕ) → length (stamp_text_of (history_of rows) event) ≤ 36855 }
{}

/// No stamp is nested deeper than tasks had been spawned up to its event. For legal rows it is nested at most 2047 deep,
/// and `read_stamp` of `stamp_codec` reads one that is nested 2048 deep.
pub fn nesting()
    ensures spawns { (rows : List Row) → NestBySpawns rows }
    ensures greatest { (limits : Limits) (rows : List Row) → IsTrue (are_limits limits.events limits.tasks limits.messages)
        → AreLegal limits rows → (event : ℕ) → NestsAtMost 2047 (stamp_of tree_clock (history_of rows) event) }
{}
