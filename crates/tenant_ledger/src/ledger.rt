//! Ledgers, which take and answer requests by their books.
ghost use Rattle.std.specs.Prelude.{◌≡◌, ◌≤◌, suc, true, Some, IfOk, IfErr, IfSome, MatchOption, is_some, length};
ghost use Rattle.trace_types.specs.tenant.Rows.{history_of, is_event};
ghost use Rattle.trace_types.specs.tenant.Reachability.{order_of};
ghost use Rattle.trace_types.specs.clock.Clock.{tree_clock};
ghost use Rattle.trace_types.specs.clock.Size.{inner_of_id, inner_of_tree};
ghost use Rattle.trace_types.specs.clock.Stamps.{stamp_of, tree_of};
ghost use Rattle.trace_types.specs.text.StampText.{stamp_text};
ghost use Rattle.trace_types.specs.tenant.Tenant.{fresh, step, Steps, Answers, AreLegal, is_report, with_row};
ghost use Rattle.event_tree.specs.Comparison.{StandsAs};
ghost use Rattle.tenant_ledger.specs.Answers.{order_answer, taken_answer};
ghost use Rattle.tenant_ledger.specs.Size.{AreShort, AreSized, HaveShortParts, IsShort, NestBySpawns, spawns_up_to};

use crate::book::Book;
use crate::query_answers::{answer, counts_of, order_of};
use crate::share::{Keep, KeptId, Share};
use crate::{PlainShare, Prepared, Stack, laws};
use std::alloc::Global;
use std::marker::Model;
use trace_query::{Compare, Meant};
use trace_types::{Code, Limits, Memory, Order, Reply, Request, Row};

/// What one tenant has reported. The ledger owns a share, which keeps its ids and trees.
#[derive(Drop)]
pub struct Ledger<S: Keep = PlainShare> {
    pub(crate) book: Box<Book<S>>,
    /// The stack, on which the trees are walked over.
    pub(crate) stack: Stack,
}

impl<S: Keep> Model for Ledger<S> {
    ghost use Rattle.trace_types.specs.tenant.Tenant.{Tenant};
    ghost use Rattle.tenant_ledger.specs.Contents.{tenant_of};
    ghost use Rattle.tenant_ledger.specs.Kept.{IsKept};

    ghost Value = { Tenant };

    ghost view = { λ l. tenant_of l.book.value };

    ghost invariant = { λ l. IsKept l.book.value };
}

impl Ledger {
    /// The ledger of a tenant that has reported nothing, which keeps its ids and trees as they are. Returns `Memory` if
    /// it runs out of memory.
    pub fn new(alloc: Global, limits: Limits) -> Result<Ledger, Memory>
        ensures ledger { IfOk result (λ ledger. ledger ≡ fresh limits) }
    {
        Ledger::with_share(alloc, limits, PlainShare)
    }
}

impl<S: Keep> Ledger<S> {
    /// The ledger of a tenant that has reported nothing, whose ids and trees this share keeps. Returns `Memory`, and
    /// drops the share, if it runs out of memory.
    pub fn with_share(alloc: Global, limits: Limits, share: S) -> Result<Ledger<S>, Memory>
        ensures ledger { IfOk result (λ ledger. ledger ≡ fresh limits) }
    {
        Ok(Ledger {
            book: Box::new(alloc, Book::new(alloc, limits, share)?)?,
            stack: Stack::new(),
        })
    }

    /// The accepted rows, the oldest first. Event k is at k - 1.
    pub fn rows(&self) -> &[Row]
        ensures rows { result.now ≡ self.now.rows }
        ensures legal { AreLegal self.now.limits self.now.rows }
    {
        self.book.rows()
    }

    /// What the event knows, as the ledger keeps it. It is `None` if there is no such event.
    pub fn tree(&self, event: u64) -> Option<&S::Kept>
        ensures known { is_some result ≡ is_event (history_of self.now.rows) event }
        ensures tree { IfSome result (λ kept. S.Kept.tree kept.now ≡ tree_of tree_clock (history_of self.now.rows) event) }
        ensures size { IfSome result (λ kept. inner_of_tree (S.Kept.tree kept.now) ≤ spawns_up_to self.now.rows event) }
    {
        let (_, tree) = self.book.stamp_parts(event)?;
        Some(tree)
    }

    /// The id that the event's task has after it, as the ledger keeps it. It is `None` if there is no such event.
    pub fn id(&self, event: u64) -> Option<&S::Id>
        ensures known { is_some result ≡ is_event (history_of self.now.rows) event }
        ensures id { IfSome result (λ kept. S.Id.id kept.now ≡ (stamp_of tree_clock (history_of self.now.rows) event).0) }
        ensures size { IfSome result (λ kept. inner_of_id (S.Id.id kept.now) ≤ spawns_up_to self.now.rows event) }
    {
        let (id, _) = self.book.stamp_parts(event)?;
        Some(id)
    }

    /// What is kept of the event's stamp: the id that its task has after it, and what the event knows. It is `None` if there
    /// is no such event. [`Ledger::report`] answers a stamp with their text.
    pub fn stamp_parts(&self, event: u64) -> Option<(&S::Id, &S::Kept)>
        ensures { MatchOption result (Steps self.now (Request.Stamp event) (Reply.Refused Code.NoEvent) self.now)
            (λ parts. Steps self.now (Request.Stamp event) (Reply.Stamp (stamp_text (S.Id.id parts.0.now) (S.Kept.tree parts.1.now))) self.now) }
    {
        self.book.stamp_parts(event)
    }

    /// The law by which an order is answered: the trees kept for two events stand to each other as the events do.
    ///
    /// It does nothing.
    pub fn clock(&self, first: u64, second: u64)
        requires first { is_event (history_of self.now.rows) first ≡ true }
        requires second { is_event (history_of self.now.rows) second ≡ true }
        ensures { StandsAs (order_of (history_of self.now.rows) first second)
            (tree_of tree_clock (history_of self.now.rows) first) (tree_of tree_clock (history_of self.now.rows) second) }
    {
        // The law speaks of the events. For its proof: the rows are legal.
        let _ = (first, second);
        let _ = self.rows();
        laws::clock();
    }

    /// How large the ids and the stamps of the tenant are, by [`laws::size`], [`laws::text_size`] and [`laws::nesting`].
    /// [`Ledger::tree`] and [`Ledger::id`] say it of what is kept.
    ///
    /// It does nothing.
    pub fn size(&self)
        ensures sizes { AreSized self.now.rows }
        ensures texts { AreShort self.now.rows }
        ensures parts { HaveShortParts self.now.rows }
        ensures nesting { NestBySpawns self.now.rows }
    {
        // For the proof: these are limits, and the rows are legal.
        let _ = self.book.limits();
        let _ = self.rows();
        laws::size();
        laws::text_size();
        laws::nesting();
    }

    /// Takes one request: an accepted report is the tenant's next event, and a query is answered.
    ///
    /// A request is refused with the first code that applies of those that `refusals` of `trace_types` has for it. Else a
    /// report, `past`, `concurrent`, `cut`, `stamp` or `message` is refused with `NoMemory` (507) if it runs out of
    /// memory. A refused request changes nothing.
    #[tactic(auto, using(crate::proofs::size::Replies::short_reply))]
    pub fn report<R>(&mut self, rt: &R, request: &Request) -> Reply
    where
        S: Share<R>,
        ensures steps { Steps self.old request.now result self.new }
        ensures legal { AreLegal self.new.limits self.new.rows }
        ensures sizes { AreSized self.new.rows }
        ensures short { IsShort self.old.rows request.now result }
    {
        // For the proof: it says that the rows are legal.
        let _ = &self.book;
        self.size();
        laws::size();
        if !request.is_report() {
            return self.answer(request);
        }
        match self.take(rt, request) {
            Ok(event) => Reply::Accepted(event),
            Err(code) => Reply::Refused(code),
        }
    }

    /// Takes one report as [`Ledger::report`] does. It gives the number of the event, or the code of the refusal.
    #[inline(always)]
    pub fn take<R>(&mut self, rt: &R, request: &Request) -> Result<u64, Code>
    where
        S: Share<R>,
        requires { is_report request.now ≡ true }
        ensures steps { Steps self.old request.now (taken_answer result) self.new }
        ensures legal { AreLegal self.new.limits self.new.rows }
    {
        self.book.take(rt, &mut self.stack, request)
    }

    /// How the first event stands to the second, as [`Ledger::report`] answers. It takes no memory.
    #[inline(always)]
    #[tactic(auto, using(crate::proofs::keeping::Refused::order_steps))]
    pub fn order(&self, first: u64, second: u64) -> Result<Order, Code>
        ensures { Steps self.now (Request.Order first second) (order_answer result) self.now }
    {
        let book = &*self.book;
        order_of(book, book.share(), first, second)
    }

    /// How many events, tasks ever and messages there are, as [`Ledger::report`] answers.
    #[inline(always)]
    #[tactic(auto, using(crate::proofs::keeping::Refused::count_steps))]
    pub fn counts(&self) -> (u64, u64, u64)
        ensures { Steps self.now Request.Count (Reply.Count result.0 result.1 result.2) self.now }
    {
        counts_of(&*self.book)
    }

    /// Does all of a report that may be refused, and leaves the rows as they are. What it returns is to be committed or
    /// abandoned.
    ///
    /// If [`Ledger::report`] would refuse the report, it returns the ledger as it was and that refusal.
    pub fn prepare<R>(self, rt: &R, request: &Request) -> Result<Prepared<S>, (Ledger<S>, Reply)>
    where
        S: Share<R>,
        requires { is_report request.now ≡ true }
        ensures same { IfOk result (λ prepared. prepared.tenant ≡ self) }
        ensures accepted { IfOk result (λ prepared. step self request.now ≡ (Reply.Accepted (suc (length self.rows)), with_row self (Some prepared.row))) }
        ensures unchanged { IfErr result (λ refused. refused.0 ≡ self) }
        ensures refused { IfErr result (λ refused. Steps self request.now refused.1 self) }
    {
        let Ledger {
            mut book,
            mut stack,
        } = self;
        match book.prepare(rt, &mut stack, request) {
            Ok(draft) => Ok(Prepared { book, stack, draft }),
            Err(code) => Err((Ledger { book, stack }, Reply::Refused(code))),
        }
    }

    /// Answers a query as [`Ledger::report`] does, and refuses every report with `ViewOnly` (410).
    ///
    /// `past`, `concurrent`, `cut`, `stamp` and `message` are refused with `NoMemory` (507) if they run out of memory.
    /// The others take none.
    #[tactic(auto, using(crate::proofs::size::Replies::short_answer))]
    pub fn answer(&self, request: &Request) -> Reply
        ensures answer { Answers self.now request.now result }
        ensures short { IsShort self.now.rows request.now result }
    {
        self.size();
        let book = &*self.book;
        answer(book, book.share(), request)
    }

    /// Answers as [`Ledger::answer`] does, and compares kept trees by this comparer.
    #[tactic(auto, using(crate::proofs::size::Replies::short_answer))]
    pub fn ask<C: Compare<S::Kept>>(&self, compare: &C, request: &Request) -> Reply
        requires { (kept : S.Kept) → C.admits compare.now kept }
        ensures answer { Answers self.now request.now result }
        ensures short { IsShort self.now.rows request.now result }
    {
        self.size();
        answer(&*self.book, compare, request)
    }
}
