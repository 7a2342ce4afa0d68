//! Desks, which alone take the reports of their tenants.
ghost use Rattle.std.specs.Prelude.{◌≡◌, [], true, IfOk, MatchOption};
ghost use Rattle.std.specs.Arc.{arc_value};
ghost use Rattle.trace_types.specs.tenant.Tenant.{AreLegal, Steps, fresh, is_report};
ghost use Rattle.trace_types.specs.text.Name.{root};
ghost use Rattle.trace_types.specs.text.StampText.{stamp_text};

use crate::Told;
use crate::published_answer::answer_published;
use crate::publisher::Publisher;
use crate::stamp_parts::parts_in;
use crate::views::Views;
use event_tree::EvTree;
use id_tree::IdTree;
use std::alloc::Global;
use std::marker::Model;
use std::mem::ManuallyDrop;
use std::sync::{Arc, Wait};
use tenant_ledger::{Keep, Shared, Stack};
use trace_types::{Code, Limits, Memory, Name, Reply, Request};

/// The desk of a tenant. It alone takes the tenant's reports, and shows the accepted ones to its [`Views`].
///
/// Contracts see the tenant, the rows that are shown, the log that has them, and where its trees are kept. A desk cannot be
/// dropped: end it by [`Desk::close`].
pub struct Desk {
    publisher: Publisher,
    /// The stack, on which the trees are walked over.
    stack: Stack,
}

impl Model for Desk {
    ghost use Rattle.tenant_ledger.specs.Ledger.{tenant_of};
    ghost use Rattle.tenant_desk.specs.Desks.{Desk as Seen};

    ghost Value = { Seen };

    ghost view = { λ d. record { tenant = tenant_of d.publisher.events; published = d.publisher.front.rows; log = d.publisher.front.log; home = d.publisher.events.home } };
}

impl Desk {
    /// Takes one request, as a ledger of the tenant would. An accepted report is published before the call returns. The call
    /// waits for views that still read what was published before the last report.
    ///
    /// A request is refused with the first code that applies of those that `refusals` of `trace_types` has for it. Else a
    /// report, `past`, `concurrent`, `cut`, `stamp` or `message` is refused with `NoMemory` (507) if it runs out of
    /// memory. A refused request changes nothing, and may be made again.
    pub fn call<R: Wait>(&mut self, rt: &R, request: &Request) -> Reply
        ensures steps { Steps self.old.tenant request.now result self.new.tenant }
        ensures legal { AreLegal self.new.tenant.limits self.new.tenant.rows }
        ensures published { self.new.published ≡ self.new.tenant.rows }
        ensures log { self.new.log ≡ self.old.log }
        ensures home { self.new.home ≡ self.old.home }
    {
        let mut reply = Reply::Refused(Code::NoMemory);
        self.call_into(rt, request, &mut reply);
        reply
    }

    /// Takes one request as [`Desk::call`] does, and puts the reply in place of this one. So the reply is not moved from
    /// call to call.
    pub fn call_into<R: Wait>(&mut self, rt: &R, request: &Request, reply: &mut Reply)
        ensures steps { Steps self.old.tenant request.now reply.new self.new.tenant }
        ensures legal { AreLegal self.new.tenant.limits self.new.tenant.rows }
        ensures published { self.new.published ≡ self.new.tenant.rows }
        ensures log { self.new.log ≡ self.old.log }
        ensures home { self.new.home ≡ self.old.home }
    {
        if request.is_report() {
            self.report(rt, request, reply);
        } else {
            // A query is answered by what is published, and orders are looked up in the cache.
            answer_published(self.publisher.events(), true, request, reply);
        }
    }

    /// The id and the tree of the event's stamp, or `None` if there is no such event. [`Desk::call`] answers the stamp with
    /// their text. It asks for no memory.
    pub fn stamp_parts(&self, event: u64) -> Option<(&IdTree, &EvTree)>
        ensures steps { MatchOption result (Steps self.now.tenant (Request.Stamp event) (Reply.Refused Code.NoEvent) self.now.tenant)
            (λ parts. Steps self.now.tenant (Request.Stamp event) (Reply.Stamp (stamp_text parts.0.now parts.1.now)) self.now.tenant) }
        ensures legal { AreLegal self.now.tenant.limits self.now.tenant.rows }
        ensures published { self.now.published ≡ self.now.tenant.rows }
    {
        parts_in(self.publisher.events(), event)
    }

    /// Takes a report. An accepted one is published.
    fn report<R: Wait>(&mut self, rt: &R, request: &Request, reply: &mut Reply)
        requires { is_report request.now ≡ true }
        ensures steps { Steps self.old.tenant request.now reply.new self.new.tenant }
        ensures legal { AreLegal self.new.tenant.limits self.new.tenant.rows }
        ensures published { self.new.published ≡ self.new.tenant.rows }
        ensures log { self.new.log ≡ self.old.log }
        ensures home { self.new.home ≡ self.old.home }
    {
        self.publisher.report(rt, &mut self.stack, request, reply);
        // For the proof: it says that the rows are legal, and that all of them are shown.
        let _ = self.publisher.events();
    }

    /// Tells of all accepted rows. It takes constant time and no memory.
    pub fn tell(&self) -> Told
        ensures { result ≡ record { rows = self.now.tenant.rows; log = self.now.log } }
    {
        Told {
            front: self.publisher.front().again(),
        }
    }

    /// Ends the desk. It waits for views that still read. From then on its views answer every query with `NoPlace` (422).
    pub fn close<R: Wait>(self, rt: &R) {
        let Desk {
            publisher,
            stack: _,
        } = self;
        publisher.close(rt);
    }

    /// Ends the desk as [`Desk::close`] does, and leaves its memory to the end of the process. Use it if the process ends
    /// next: to give the trees back one by one would only take time.
    pub fn close_at_exit<R: Wait>(self, rt: &R) {
        let Desk {
            publisher,
            stack: _,
        } = self;
        // It is not dropped.
        let _ = ManuallyDrop::new(publisher.close(rt));
    }
}

/// A desk of a tenant without rows, and its eight views. Returns `Memory` if it runs out of memory.
///
/// It takes room for as many events, tasks and messages as the limits allow. Its log names `root` as the tenant. Use
/// [`named_desk_and_views`] for tenants with names.
pub fn desk_and_views<R: Wait>(
    rt: &R,
    alloc: Global,
    limits: Limits,
    shared: Arc<Shared>,
) -> Result<(Desk, Views), Memory>
    ensures tenant { IfOk result (λ made. made.0.tenant ≡ fresh limits) }
    ensures published { IfOk result (λ made. made.0.published ≡ []) }
    ensures home { IfOk result (λ made. made.0.home ≡ ⟦<Shared as Keep>⟧.home (arc_value shared)) }
    ensures views { IfOk result (λ made. made.1 ≡ record { left = 8; limits = limits; log = made.0.log }) }
    ensures log { IfOk result (λ made. made.0.log.tenant ≡ root) }
{
    named_desk_and_views(rt, alloc, &Name::root(), limits, shared)
}

/// A desk of the tenant of this name, and its eight views, as [`desk_and_views`] makes them. Their log names this tenant, so
/// it is none of another name.
pub fn named_desk_and_views<R: Wait>(
    rt: &R,
    alloc: Global,
    name: &Name,
    limits: Limits,
    shared: Arc<Shared>,
) -> Result<(Desk, Views), Memory>
    ensures tenant { IfOk result (λ made. made.0.tenant ≡ fresh limits) }
    ensures published { IfOk result (λ made. made.0.published ≡ []) }
    ensures home { IfOk result (λ made. made.0.home ≡ ⟦<Shared as Keep>⟧.home (arc_value shared)) }
    ensures views { IfOk result (λ made. made.1 ≡ record { left = 8; limits = limits; log = made.0.log }) }
    ensures log { IfOk result (λ made. made.0.log.tenant ≡ name.now) }
{
    let mut publisher = Publisher::new(rt, alloc, name, limits, &shared)?;
    match Views::new(alloc, limits, &mut publisher) {
        Ok(views) => {
            let desk = Desk {
                publisher,
                stack: Stack::new(),
            };
            Ok((desk, views))
        }
        Err(refused) => {
            publisher.close(rt);
            Err(refused)
        }
    }
}
