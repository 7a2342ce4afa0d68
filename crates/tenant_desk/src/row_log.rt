//! The rows of a desk as a log that only grows, and how far a log is known.
ghost use Rattle.std.specs.Prelude.{◌≡◌, ◌<◌, [], length, IfSome, MatchBool};
ghost use mathlib.Core.List.{IsPrefix};
ghost use Rattle.tenant_desk.specs.Histories.{head_of, longer_by};

use logbook::{Gain, Offer, Opening, Plain, Play, Rule, Seen, Start, Word};
use std::marker::Model;
use trace_types::{Name, Row};

/// An entry of a log. Entries stand in proofs alone, and take no memory.
pub(crate) enum Entry {
    /// The tenant whose log it is. A log begins with it.
    Tenant(Name),
    /// A row behind those before.
    Row(Row),
}

/// The rule of a log: the number of its rows is stored.
pub(crate) struct Counted;

impl Rule<Entry, u64> for Counted {
    ghost use Rattle.std.specs.Prelude.{[]};
    ghost use base.Fml.{ftrue};
    ghost use Rattle.tenant_desk.specs.Histories.{IsCounted};

    ghost holds = { λ cells entries. IsCounted cells entries };

    ghost first = { [] };

    ghost hinted = { λ count entries. Unit {0} };

    ghost shows = { λ entries. [] };

    ghost keeps = { λ names entries. ftrue };

    ghost moves = { λ entry before after answer. Unit {0} };
}

/// The log of a tenant without rows.
struct Naming;

impl Opening<Name, Entry> for Naming {
    ghost use Rattle.std.specs.Prelude.{◌∷◌, []};
    ghost use Rattle.tenant_desk.specs.declared.row_log.Entry.TheVariants as entry;

    ghost log = { λ words tenant. entry.Tenant tenant ∷ [] };
}

/// A step that trades nothing.
struct Untraded;

impl Gain<Entry, u64> for Untraded {
    ghost use base.Fml.{ftrue};

    ghost after = { λ names about answer. ftrue };
}

/// The step that adds a row.
struct Adding;

impl Play<Entry, u64> for Adding {
    ghost use Rattle.tenant_desk.specs.Histories.{Adds};

    ghost then = { Adds };
}

impl Plain<Row, Entry, u64> for Adding {
    ghost use Rattle.std.specs.Prelude.{None};
    ghost use Rattle.tenant_desk.specs.declared.row_log.Entry.TheVariants as entry;

    ghost ask = { λ row. entry.Row row };

    ghost state = { λ row. None };
}

/// The number of the rows of a log. Nothing else is stored of a log.
pub(crate) type Head = Word<Entry, u64, Counted>;

/// The first rows of a log, up to a number that it has reached. A clause sees the rows, which log it is, and whose.
///
/// It is the number of the rows, and takes no memory.
#[derive(Drop)]
pub(crate) struct Front {
    count: u64,
    seen: Seen<Entry, u64, Counted>,
}

impl Model for Front {
    ghost use Rattle.std.specs.Prelude.{◌≡◌, length};
    ghost use Rattle.tenant_desk.specs.Histories.{IsNamed, Line, rows_in, tenant_in};

    ghost Value = { Line };

    ghost view = { λ f. record { rows = rows_in f.seen.log; log = record { identity = f.seen.book; tenant = tenant_in f.seen.log } } };

    ghost invariant = { λ f. (f.count ≡ length (rows_in f.seen.log)) × IsNamed f.seen.log };
}

/// No log is longer.
const MOST_ROWS: u64 = 1 << 62;

/// A new log of this tenant, without rows.
pub(crate) fn new_log(tenant: &Name) -> (Head, Front)
    ensures head { result.0 ≡ head_of result.1.log }
    ensures rows { result.1.rows ≡ [] }
    ensures tenant { result.1.log.tenant ≡ tenant.now }
{
    let (seen, mut pens) = Seen::open_row::<Name, Naming>(tenant, Start::alone(), 1);
    let mut pen = pens.take();
    (Word::tracked(0, &mut pen), Front { count: 0, seen })
}

impl Front {
    /// An equal value. It takes no memory.
    pub(crate) fn again(&self) -> Front
        ensures { result ≡ self.now }
    {
        Front {
            count: self.count,
            seen: self.seen.again(),
        }
    }

    /// Whether the other, of the same log, is no longer than this one. Then this one begins with the other, else the
    /// other begins with this one.
    pub(crate) fn covers(&self, other: &Front) -> bool
        requires { other.now.log ≡ self.now.log }
        ensures { MatchBool result (IsPrefix other.now.rows self.now.rows)
            (IsPrefix self.now.rows other.now.rows × (length self.now.rows < length other.now.rows)) }
    {
        let mut both = self.seen.again();
        both.learn(&other.seen);
        other.count <= self.count
    }

    /// Shows that a log is of one tenant: two fronts of one log name the same.
    pub(crate) fn agrees(&self, other: &Front)
        requires { other.now.log.identity ≡ self.now.log.identity }
        ensures { other.now.log.tenant ≡ self.now.log.tenant }
    {
        let mut both = self.seen.again();
        both.learn(&other.seen);
    }

    /// Adds a row to the log. Returns `None` if there is a row behind these already, or no number is left.
    pub(crate) fn grown(&self, head: &Head, row: &Row) -> Option<Front>
        requires { head.now ≡ head_of self.now.log }
        ensures { IfSome result (λ front. front ≡ longer_by row.now self.now) }
    {
        let count = self.count;
        if count >= MOST_ROWS {
            return None;
        }
        let mut seen = self.seen.again();
        let mut offer: Offer<Entry, u64, Counted, Untraded> = seen.plain::<Untraded, Row, Adding>(
            row,
        );
        let mut pen = seen.no_pen();
        let found = head.compare_exchange::<Adding, Untraded>(
            count,
            count + 1,
            &mut seen,
            &mut offer,
            &mut pen,
        );
        if found != count {
            return None;
        }
        Some(Front {
            count: count + 1,
            seen,
        })
    }
}
