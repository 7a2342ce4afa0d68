//! The making of the requests of lines that are read.
ghost use Rattle.std.specs.Prelude.{◌≡◌, ◌≢◌, ◌<◌, ◌≤◌, ◌↔◌, ◌⊎◌, ◌-◌, Some, IfNone, IfOk, IfSome, IsTrue, length, slice_get};
ghost use Rattle.trace_types.specs.clock.Stamps.{stamp_text_of};
ghost use Rattle.trace_types.specs.tenant.Rows.{history_of};
ghost use Rattle.trace_types.specs.declared.row.Row.{Row};
ghost use Rattle.trace_export.specs.Listing.{listed_of};
ghost use Rattle.trace_export.specs.Loading.{IsAsListed, IsUnfitAfter, MayFollow};
ghost use Rattle.trace_export.specs.Rebuilding.{IsBegun, IsEventMade, IsMade, IsRejected};

use crate::Reason;
use crate::event_line::EventLine;
use crate::follower::Follower;
use crate::placed::place;
use crate::read_line::{ReadLine, line_of, read_json};
use crate::requests::request_for;
use event_tree::EvTree;
use std::alloc::Global;
use trace_types::{Code, Memory, Reply, Request};

impl Follower {
    /// Begins under the header that the line is, if it is the first line. Else it makes the request of the event that the
    /// line lists. It gives the reason if the line is faulty.
    pub(crate) fn add<T>(
        &mut self,
        rt: &T,
        alloc: Global,
        line: &[u8],
    ) -> Result<Option<Reason>, Memory>
        requires short { length line.now ≤ 65536 }
        ensures right { IfOk result (λ fault. IfNone fault (IsBegun self.old self.new line.now ⊎ IsEventMade self.old self.new line.now)) }
        ensures faulty { IfOk result (λ fault. IfSome fault (λ reason. IsRejected reason self.old line.now)) }
    {
        let json = read_json(alloc, line)?;
        match line_of(alloc, &json, self.is_unbegun()) {
            Err(reason) => Ok(Some(reason)),
            Ok(ReadLine::Header(header)) => {
                *self = Follower::new(alloc, &Some(header))?;
                Ok(None)
            }
            Ok(ReadLine::Event(listed)) => self.add_listed(rt, alloc, &listed),
        }
    }

    /// Makes the request of the listed event if it may come next. It gives the reason if the event does not come next.
    fn add_listed<T>(
        &mut self,
        rt: &T,
        alloc: Global,
        listed: &EventLine<'_>,
    ) -> Result<Option<Reason>, Memory>
        ensures right { IfOk result (λ fault. IfNone fault (IsMade self.old self.new (listed_of listed.now))) }
        ensures unfit { IfOk result (λ fault. IfSome fault (λ reason. IsUnfitAfter reason self.old.ledger.limits self.old.ledger.rows (listed_of listed.now))) }
    {
        let number = self.ledger.rows().len() as u64 + 1;
        let zero = EvTree::leaf(0);
        let like = self.tree_before(listed).unwrap_or(&zero);
        match place(alloc, number, listed, like)? {
            Err(reason) => Ok(Some(reason)),
            Ok(_) => self.make(rt, listed),
        }
    }

    /// The tree of the last event that the listed one follows, if there is one. The tree of the listed event is like it.
    fn tree_before(&self, listed: &EventLine<'_>) -> Option<&EvTree> {
        let last = listed.preds.as_slice().last()?;
        self.ledger.tree(*last)
    }

    /// Makes the request of the listed event. It gives the reason if the event does not come next.
    fn make<T>(&mut self, rt: &T, listed: &EventLine<'_>) -> Result<Option<Reason>, Memory>
        requires may { MayFollow self.old.ledger.rows (listed_of listed.now) }
        ensures right { IfOk result (λ fault. IfNone fault (IsMade self.old self.new (listed_of listed.now))) }
        ensures unfit { IfOk result (λ fault. IfSome fault (λ reason. IsUnfitAfter reason self.old.ledger.limits self.old.ledger.rows (listed_of listed.now))) }
    {
        let request = request_for(listed.kind, listed.task, listed.name);
        match self.ledger.report(rt, &request) {
            Reply::Accepted(number) => {
                if self.is_as_listed(number, listed)? {
                    Ok(None)
                } else {
                    Ok(Some(Reason::NotDue))
                }
            }
            Reply::Refused(code) => refused(code),
            _ => unreachable!(),
        }
    }

    /// Whether the event has the predecessors and the stamp that are listed.
    fn is_as_listed(&self, number: u64, listed: &EventLine<'_>) -> Result<bool, Memory>
        requires event { (0 < number) × (number ≤ length self.now.ledger.rows) }
        ensures { IfOk result (λ is. (row : Row) → slice_get self.now.ledger.rows (number - 1) ≡ Some row
            → IsTrue is ↔ IsAsListed self.now.ledger.rows number row (listed_of listed.now)) }
    {
        let row = &self.ledger.rows()[number as usize - 1];
        if row.preds != listed.preds {
            return Ok(false);
        }
        let is = self.has_stamp(number, listed.stamp)?;
        Ok(is)
    }

    /// Whether the stamp of the event has this text.
    fn has_stamp(&self, number: u64, stamp: &str) -> Result<bool, Memory>
        requires event { (0 < number) × (number ≤ length self.now.ledger.rows) }
        ensures { IfOk result (λ is. IsTrue is ↔ (stamp_text_of (history_of self.now.ledger.rows) number ≡ stamp.now)) }
    {
        match self.ledger.answer(&Request::Stamp(number)) {
            Reply::Stamp(text) => Ok(text.as_bytes() == stamp.as_bytes()),
            Reply::Refused(Code::NoMemory) => Err(Memory),
            _ => unreachable!(),
        }
    }
}

/// Why a line is faulty whose request was refused with this code. Returns `Memory` if the request ran out of memory.
fn refused(code: Code) -> Result<Option<Reason>, Memory>
    ensures { IfOk result (λ reason. (reason ≡ Some Reason.Refused) × (code ≢ Code.NoMemory)) }
{
    match code {
        Code::NoMemory => Err(Memory),
        _ => Ok(Some(Reason::Refused)),
    }
}
