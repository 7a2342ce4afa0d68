//! What is kept of the lines of an export.
ghost use Rattle.std.specs.Prelude.{◌≡◌, suc, ◌+◌, ◌≤◌, ◌↔◌, [], None, IfOk, IfNone, IfSome, IsTrue, false, length};
ghost use Rattle.trace_types.specs.tenant.Rows.{history_of};
ghost use Rattle.trace_types.specs.tenant.Tenant.{AreLegal};
ghost use Rattle.trace_export.specs.Checked.{IsFollowing, IsKept, IsRefused, IsRightAfter, header_in, placing_in};
ghost use Rattle.trace_export.specs.Following.{placing_of};
ghost use Rattle.trace_export.specs.Graph.{IsKeptGraph};
ghost use Rattle.trace_export.specs.Heading.{lines_ahead};
ghost use Rattle.trace_export.specs.Rebuilding.{IsEventMade};

use crate::follower::Follower;
use crate::graph::Graph;
use crate::{Header, Reason};
use std::alloc::{AllocError, Global};
use trace_types::Memory;

/// What is kept of the lines so far, which are right.
#[derive(Drop)]
pub(crate) enum Checked {
    /// Each is a header, or was the one that is due to a tenant. The trees that a tenant keeps compare as its events are
    /// ordered, so nothing has to be compared. The graph is empty, and there is room for what these lines list.
    Due(Follower, Graph),
    /// The header, if the first line is one, and what the other lines list.
    Compared(Option<Header>, Graph),
}

impl Checked {
    /// Nothing yet.
    pub(crate) fn new(alloc: Global) -> Result<Checked, AllocError>
        ensures kept { IfOk result IsKept }
        ensures header { IfOk result (λ checked. header_in checked ≡ None) }
        ensures none { IfOk result (λ checked. placing_in checked ≡ []) }
    {
        Ok(begun(alloc, None, Graph::new(alloc)?))
    }

    /// How many events there are.
    #[tactic(auto, using(crate::proofs::ListedRows::counted))]
    pub(crate) fn events(&self) -> u64
        ensures { result ≡ length (placing_in self.now) }
    {
        match self {
            Checked::Due(follower, _) => follower.ledger.rows().len() as u64,
            Checked::Compared(_, graph) => graph.len() as u64,
        }
    }

    /// The number of the line that comes next.
    #[tactic(auto, using(crate::proofs::ListedRows::counted))]
    pub(crate) fn next_line(&self) -> u64
        ensures { result ≡ lines_ahead (header_in self.now) + suc (length (placing_in self.now)) }
    {
        match self {
            Checked::Due(follower, _) => follower.next_line(),
            Checked::Compared(Some(_), graph) => graph.len() as u64 + 2,
            Checked::Compared(None, graph) => graph.len() as u64 + 1,
        }
    }

    /// Takes the line if it is right: a header, if it is the first line, or the next event. Else it tells why the line is
    /// faulty.
    ///
    /// At the first line that is not the one that is due, the tenant is given back: its ids and names are not needed any
    /// more, and its trees are those of the graph. So it is if there is no memory for what the line reports.
    pub(crate) fn take(
        self,
        alloc: Global,
        line: &[u8],
    ) -> Result<(Checked, Option<Reason>), Memory>
        requires kept { IsKept self }
        requires short { length line.now ≤ 65536 }
        ensures right { IfOk result (λ taken. IfNone taken.1 (IsRightAfter (header_in self) (placing_in self) line.now taken.0)) }
        ensures faulty { IfOk result (λ taken. IfSome taken.1 (λ reason. IsRefused reason (header_in self) (placing_in self) line.now)) }
    {
        match self {
            Checked::Due(follower, graph) => follow(alloc, follower, graph, line),
            Checked::Compared(header, graph) => compare(alloc, header, graph, line),
        }
    }
}

/// Takes the line as [`Checked::take`] does, where each line before it was due.
fn follow(
    alloc: Global,
    follower: Follower,
    mut graph: Graph,
    line: &[u8],
) -> Result<(Checked, Option<Reason>), Memory>
    requires following { IsFollowing follower graph }
    requires short { length line.now ≤ 65536 }
    ensures right { IfOk result (λ taken. IfNone taken.1
        (IsRightAfter follower.header (placing_of (history_of follower.ledger.rows)) line.now taken.0)) }
    ensures faulty { IfOk result (λ taken. IfSome taken.1
        (λ reason. IsRefused reason follower.header (placing_of (history_of follower.ledger.rows)) line.now)) }
{
    let (follower, is_due) = follow_with_room(alloc, follower, &mut graph, line);
    if is_due {
        return Ok((Checked::Due(follower, graph), None));
    }
    let Follower { header, ledger } = follower;
    graph.list(alloc, ledger)?;
    compare(alloc, header, graph, line)
}

/// Takes the line if it is the one that is due, and says whether it is. Before that it makes room in the graph for what the
/// line lists. If there is none, the line is compared, since the tenant's memory is given back for that.
fn follow_with_room(
    alloc: Global,
    follower: Follower,
    graph: &mut Graph,
    line: &[u8],
) -> (Follower, bool)
    requires following { IsFollowing follower graph.old }
    requires short { length line.now ≤ 65536 }
    ensures due { IsTrue result.1 → IsEventMade follower result.0 line.now }
    ensures legal { IsTrue result.1 → AreLegal result.0.ledger.limits result.0.ledger.rows }
    ensures left { result.1 ≡ false → result.0 ≡ follower }
    ensures following { IsFollowing follower graph.new }
{
    if graph.make_room_for(follower.events() + 1).is_err() {
        return (follower, false);
    }
    follower.follow(&(), alloc, line)
}

/// Nothing yet behind this header, or without one. It is followed if there is memory for it.
fn begun(alloc: Global, header: Option<Header>, graph: Graph) -> Checked
    requires graph { IsKeptGraph graph }
    requires none { graph.placed.items ≡ [] }
    ensures kept { IsKept result }
    ensures header { header_in result ≡ header }
    ensures none { placing_in result ≡ [] }
{
    match Follower::new(alloc, &header) {
        Ok(follower) => Checked::Due(follower, graph),
        Err(_) => Checked::Compared(header, graph),
    }
}

/// Takes the line as [`Checked::take`] does, by comparing it with the earlier ones.
fn compare(
    alloc: Global,
    header: Option<Header>,
    mut graph: Graph,
    line: &[u8],
) -> Result<(Checked, Option<Reason>), Memory>
    requires graph { IsKeptGraph graph }
    requires short { length line.now ≤ 65536 }
    ensures right { IfOk result (λ taken. IfNone taken.1 (IsRightAfter header graph.placed.items line.now taken.0)) }
    ensures faulty { IfOk result (λ taken. IfSome taken.1 (λ reason. IsRefused reason header graph.placed.items line.now)) }
{
    let is_first = is_unbegun(&header, &graph);
    match graph.add_line(alloc, line, is_first)? {
        Err(reason) => Ok((Checked::Compared(header, graph), Some(reason))),
        Ok(first) => match first {
            Some(first) => Ok((begun(alloc, Some(first), graph), None)),
            None => Ok((Checked::Compared(header, graph), None)),
        },
    }
}

/// Whether there was no line.
fn is_unbegun(header: &Option<Header>, graph: &Graph) -> bool
    ensures { IsTrue result ↔ (header.now ≡ None) × (graph.now.placed.items ≡ []) }
{
    header.is_none() && graph.len() == 0
}
