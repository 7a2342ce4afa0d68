//! Prepared reports.
ghost use Rattle.std.specs.Prelude.{◌≡◌, ◌≤◌, suc, ◌∷◌, Some, length};
ghost use Rattle.trace_types.specs.clock.Clock.{tree_clock};
ghost use Rattle.trace_types.specs.tenant.Rows.{history_of, spawn_count};
ghost use Rattle.trace_types.specs.clock.Size.{inner_of_id, inner_of_tree};
ghost use Rattle.trace_types.specs.clock.Stamps.{id_of, tree_of};
ghost use Rattle.trace_types.specs.tenant.Tenant.{with_row};
ghost use Rattle.trace_types.specs.declared.reply.Reply.TheVariants as reply;

use crate::book::{Book, Draft};
use crate::share::{Keep, KeptId, Share};
use crate::{Ledger, PlainShare, Stack};
use std::marker::Model;
use trace_types::{Reply, Row};

/// A ledger with a report that will be accepted. It has to be committed or abandoned, and neither takes memory.
///
/// Contracts see the tenant as it is before the report, and the row of the report.
pub struct Prepared<S: Keep = PlainShare> {
    pub(crate) book: Box<Book<S>>,
    pub(crate) stack: Stack,
    pub(crate) draft: Draft<S>,
}

impl<S: Keep> Model for Prepared<S> {
    ghost use Rattle.tenant_ledger.specs.Upcoming.{Upcoming};
    ghost use Rattle.tenant_ledger.specs.Contents.{tenant_of};
    ghost use Rattle.tenant_ledger.specs.Adding.{IsReady};

    ghost Value = { Upcoming };

    ghost view = { λ p. record { tenant = tenant_of p.book.value; row = p.draft.row } };

    ghost invariant = { λ p. IsReady p.book.value p.draft };
}

impl<S: Keep> Prepared<S> {
    /// The row that the report adds.
    pub fn row(&self) -> &Row
        ensures { result.now ≡ self.now.row }
    {
        self.draft.row()
    }

    /// What the report's event knows, as it is kept.
    pub fn tree(&self) -> &S::Kept
        ensures tree { S.Kept.tree result.now ≡ tree_of tree_clock (self.now.row ∷ history_of self.now.tenant.rows) (suc (length self.now.tenant.rows)) }
        ensures size { inner_of_tree (S.Kept.tree result.now) ≤ spawn_count (self.now.row ∷ history_of self.now.tenant.rows) }
    {
        self.draft.tree()
    }

    /// The id that the report's task has after the event, as it is kept.
    pub fn id(&self) -> &S::Id
        ensures id { S.Id.id result.now ≡ id_of tree_clock (self.now.row ∷ history_of self.now.tenant.rows) self.now.row.task }
        ensures size { inner_of_id (S.Id.id result.now) ≤ spawn_count (self.now.row ∷ history_of self.now.tenant.rows) }
    {
        self.book.id_after(&self.draft)
    }

    /// Adds the report as the tenant's next event. Returns the ledger, and the reply 201 with the event's number.
    pub fn commit(self) -> (Ledger<S>, Reply)
        ensures ledger { result.0 ≡ with_row self.tenant (Some self.row) }
        ensures reply { result.1 ≡ reply.Accepted (suc (length self.tenant.rows)) }
    {
        let Prepared {
            mut book,
            stack,
            draft,
        } = self;
        let event = book.commit(draft);
        (Ledger { book, stack }, Reply::Accepted(event))
    }

    /// Drops the report. The ledger is as it was before.
    pub fn abandon(self) -> Ledger<S>
        ensures { result ≡ self.tenant }
    {
        let Prepared {
            book,
            stack,
            draft: _,
        } = self;
        Ledger { book, stack }
    }
}
