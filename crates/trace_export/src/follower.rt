//! The tenant to which the lines of an export lead.
ghost use Rattle.std.specs.Prelude.{◌≡◌, ◌+◌, ◌≤◌, ◌↔◌, suc, [], None, Some, IfOk, IsTrue, false, length};
ghost use Rattle.trace_types.specs.tenant.Tenant.{AreLegal, fresh, with_row};
ghost use Rattle.trace_export.specs.Following.{IsFollowed, line_of_next};
ghost use Rattle.trace_export.specs.Heading.{lines_ahead};
ghost use Rattle.trace_export.specs.Loading.{limits_under};
ghost use Rattle.trace_export.specs.Rebuilding.{IsEventMade};

use crate::Header;
use crate::header::limits_under;
use crate::line_text::{hinted_report, is_due_line};
use std::alloc::Global;
use tenant_ledger::{KeptId, Ledger, PackedShare, Prepared};
use trace_types::{Limits, Memory};

mod making;

/// A ledger that packs the ids that were not used lately. An id of a deep tree else takes as much as the tree.
pub(crate) type PackedLedger = Ledger<PackedShare>;

/// What the lines so far lead to, which are right.
#[derive(Drop)]
pub(crate) struct Follower {
    /// The first of the lines, if it is a header.
    pub(crate) header: Option<Header>,
    /// What the requests of the others leave.
    pub(crate) ledger: PackedLedger,
}

impl Follower {
    /// What no line of an event leads to, behind this header or without one.
    pub(crate) fn new(alloc: Global, header: &Option<Header>) -> Result<Follower, Memory>
        ensures header { IfOk result (λ follower. follower.header ≡ header.now) }
        ensures fresh { IfOk result (λ follower. follower.ledger ≡ fresh (limits_under header.now)) }
    {
        let ledger = Ledger::with_share(alloc, limits_under(header), PackedShare)?;
        Ok(Follower {
            header: *header,
            ledger,
        })
    }

    /// How many events there are.
    pub(crate) fn events(&self) -> usize
        ensures { result ≡ length self.now.ledger.rows }
    {
        self.ledger.rows().len()
    }

    /// Whether there was no line.
    pub(crate) fn is_unbegun(&self) -> bool
        ensures { IsTrue result ↔ (self.now.header ≡ None) × (self.now.ledger.rows ≡ []) }
    {
        self.header.is_none() && self.ledger.rows().is_empty()
    }

    /// The number of the line that comes next.
    pub(crate) fn next_line(&self) -> u64
        ensures { result ≡ lines_ahead self.now.header + suc (length self.now.ledger.rows) }
    {
        let event = self.ledger.rows().len() as u64 + 1;
        match self.header {
            Some(_) => 1 + event,
            None => event,
        }
    }

    /// Takes the line if it is the one that an export has of the next event, and says whether it is. Else all is as it was,
    /// also if it runs out of memory. No such line is a header.
    pub(crate) fn follow<T>(self, rt: &T, alloc: Global, line: &[u8]) -> (Follower, bool)
        requires limits { self.ledger.limits ≡ limits_under self.header }
        requires short { length line.now ≤ 65536 }
        ensures due { IsTrue result.1 → IsEventMade self result.0 line.now }
        ensures legal { IsTrue result.1 → AreLegal result.0.ledger.limits result.0.ledger.rows }
        ensures left { result.1 ≡ false → result.0 ≡ self }
    {
        let Follower { header, ledger } = self;
        let limits = limits_under(&header);
        let (ledger, is_due) = report_if_due(rt, alloc, ledger, &limits, line);
        (Follower { header, ledger }, is_due)
    }
}

/// Takes the report of the next event, if the line is the one that an export has of it, and says whether it did. The ledger
/// is as it was if the line is another one, or if it runs out of memory.
fn report_if_due<T>(
    rt: &T,
    alloc: Global,
    ledger: PackedLedger,
    limits: &Limits,
    line: &[u8],
) -> (PackedLedger, bool)
    requires limits { ledger.limits ≡ limits.now }
    requires short { length line.now ≤ 65536 }
    ensures due { IsTrue result.1 → IsFollowed ledger result.0 line.now }
    ensures legal { IsTrue result.1 → AreLegal result.0.limits result.0.rows }
    ensures left { result.1 ≡ false → result.0 ≡ ledger }
{
    let _ = limits.events();
    let Some(report) = hinted_report(line) else {
        return (ledger, false);
    };
    let number = ledger.rows().len() as u64 + 1;
    match ledger.prepare(rt, &report) {
        Ok(prepared) => commit_if_due(alloc, prepared, number, line),
        Err((ledger, _)) => (ledger, false),
    }
}

/// Commits the report if the line is the one that an export has of its event, which has this number. It says whether it is.
fn commit_if_due(
    alloc: Global,
    prepared: Prepared<PackedShare>,
    number: u64,
    line: &[u8],
) -> (PackedLedger, bool)
    requires { number ≡ suc (length prepared.tenant.rows) }
    ensures due { IsTrue result.1 → line.now ≡ line_of_next number prepared.tenant.rows prepared.row }
    ensures committed { IsTrue result.1 → result.0 ≡ with_row prepared.tenant (Some prepared.row) }
    ensures legal { IsTrue result.1 → AreLegal result.0.limits result.0.rows }
    ensures left { result.1 ≡ false → result.0 ≡ prepared.tenant }
{
    let is_due = match prepared.id().tree(alloc) {
        Ok(id) => is_due_line(line, number, prepared.row(), id.as_tree(), prepared.tree()),
        Err(_) => false,
    };
    if !is_due {
        return (prepared.abandon(), false);
    }
    let (ledger, _) = prepared.commit();
    let _ = ledger.rows();
    (ledger, true)
}
