//! The adding of events that lines list.
ghost use Rattle.std.specs.Prelude.{◌≡◌, ◌≤◌, ◌++◌, ◌∷◌, ◌⊎◌, [], false, IfErr, IfOk, IfSome, IfNone, length};
ghost use Rattle.trace_types.specs.clock.EventTree.{Leaf};
ghost use Rattle.trace_export.specs.declared.placed.Placed.{Placed};
ghost use Rattle.trace_export.specs.Checked.{IsAdded};
ghost use Rattle.trace_export.specs.Graph.{IsJoinOf, IsKeptGraph};
ghost use Rattle.trace_export.specs.Listing.{listed_of};
ghost use Rattle.trace_export.specs.Verdict.{IsRefusedFor, ComesNext, IsOrderedNext};

use crate::event_line::EventLine;
use crate::graph::Graph;
use crate::placed::{are_increasing_before, place};
use crate::read_line::{ReadLine, line_of, read_json};
use crate::{Header, Reason};
use event_tree::EvTree;
use std::alloc::Global;
use trace_types::{Limits, Memory};

/// What a line adds: the header that it is, or else its event. Or it is faulty, and adds nothing.
pub(crate) type Added = Result<Option<Header>, Reason>;

impl Graph {
    /// Adds the event that the line lists if the line is right, and gives the header that it is, if it may be the first one.
    /// Else it tells why the line is faulty. If memory runs out, what is kept for speed alone is given back, and the line is
    /// read once more.
    pub(crate) fn add_line(
        &mut self,
        alloc: Global,
        line: &[u8],
        is_first: bool,
    ) -> Result<Added, Memory>
        requires graph { IsKeptGraph self.old }
        requires short { length line.now ≤ 65536 }
        ensures added { IfOk result (IsAdded is_first line.now self.old self.new) }
        // Memory runs out only once nothing is kept for speed alone.
        ensures memory { IfErr result (λ _. self.new.hints.are_kept ≡ false) }
    {
        let added = self.try_line(alloc, line, is_first);
        if added.is_ok() || !self.give_back(alloc) {
            return added;
        }
        self.try_line(alloc, line, is_first)
    }

    /// Does as [`Graph::add_line`], and gives nothing back. The graph has the events that it had if memory runs out.
    fn try_line(&mut self, alloc: Global, line: &[u8], is_first: bool) -> Result<Added, Memory>
        requires graph { IsKeptGraph self.old }
        requires short { length line.now ≤ 65536 }
        ensures added { IfOk result (IsAdded is_first line.now self.old self.new) }
        ensures memory { IfErr result (λ _. (self.new.placed.items ≡ self.old.placed.items) × IsKeptGraph self.new) }
        ensures given_back { self.old.hints.are_kept ≡ false → self.new.hints.are_kept ≡ false }
    {
        let json = read_json(alloc, line)?;
        match line_of(alloc, &json, is_first) {
            Err(reason) => Ok(Err(reason)),
            Ok(ReadLine::Header(header)) => Ok(Ok(Some(header))),
            Ok(ReadLine::Event(listed)) => {
                let join = self.join_before(alloc, &listed);
                match self.add_listed(alloc, &listed, &join)? {
                    Some(reason) => Ok(Err(reason)),
                    None => Ok(Ok(None)),
                }
            }
        }
    }

    /// Adds the listed event if it may come next, else tells why it is refused. Its tree is read beside this one. The graph has
    /// the events that it had if memory runs out.
    fn add_listed(
        &mut self,
        alloc: Global,
        listed: &EventLine<'_>,
        join: &EvTree,
    ) -> Result<Option<Reason>, Memory>
        requires graph { IsKeptGraph self.old }
        ensures right { IfOk result (λ fault. IfNone fault ((placed : Placed) × ComesNext self.old.placed.items (listed_of listed.now) placed
            × IsOrderedNext self.old.placed.items placed
            × (self.new.placed.items ≡ self.old.placed.items ++ placed ∷ []) × IsKeptGraph self.new)) }
        ensures refused { IfOk result (λ fault. IfSome fault (λ reason. IsRefusedFor reason self.old.placed.items (listed_of listed.now)
            × (self.new.placed.items ≡ self.old.placed.items))) }
        ensures memory { IfErr result (λ _. (self.new.placed.items ≡ self.old.placed.items) × IsKeptGraph self.new) }
        ensures given_back { self.old.hints.are_kept ≡ false → self.new.hints.are_kept ≡ false }
    {
        let number = self.len() as u64 + 1;
        match place(alloc, number, listed, join)? {
            Err(reason) => Ok(Some(reason)),
            Ok(placed) => {
                let fault = if self.add(alloc, placed, join)? {
                    None
                } else {
                    Some(Reason::Order)
                };
                Ok(fault)
            }
        }
    }

    /// The join of the trees of the events that the listed one follows, which its tree is like. It is 0 everywhere if the
    /// event may not come next.
    fn join_before(&self, alloc: Global, listed: &EventLine<'_>) -> EvTree
        ensures { (result ≡ Leaf 0) ⊎ IsJoinOf self.now.placed.items listed.now.preds result }
    {
        let number = self.len() as u64 + 1;
        let is_next = listed.event == number && number <= Limits::MOST_EVENTS;
        if is_next && are_increasing_before(&listed.preds, number) {
            self.join_of(alloc, &listed.preds)
        } else {
            EvTree::leaf(0)
        }
    }
}
