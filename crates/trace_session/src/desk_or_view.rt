//! What sessions borrow: a desk, or a view.
ghost use Rattle.std.specs.Prelude.{◌≡◌, ◌<◌, ◌++◌, ◌∷◌, [], Some, None, IfNone, IfSome, length};
ghost use Rattle.std.specs.Option.{option_to_list};
ghost use Rattle.trace_session.specs.Belonging.{Belongs, RestOf};
ghost use Rattle.trace_session.specs.Hubs.{Owner};
ghost use Rattle.trace_session.specs.Outputs.{GoesThroughGate};
ghost use Rattle.trace_session.specs.Sessions.{AnswersInTime};
ghost use Rattle.trace_session.specs.Witnesses.{told_of};

use crate::output::Output;
use crate::shelf_contents::Resting;
use crate::{Gate, SessionFault};
use line_protocol::Sink;
use std::sync::Wait;
use tenant_desk::{Desk, Told, View};
use trace_types::{Code, Reply, Request};

/// What a tenant lends to a session while it rests, and takes back. It answers the session's requests.
pub(crate) trait Lent: Sized {
    ghost use Rattle.std.specs.Prelude.{ℕ, List};
    ghost use Rattle.trace_types.specs.declared.code.Code.{Code};
    ghost use Rattle.trace_types.specs.declared.request.Request.{Request};
    ghost use Rattle.trace_types.specs.declared.reply.Reply.{Reply};
    ghost use Rattle.trace_types.specs.tenant.Tenant.{Tenant};
    ghost use Rattle.tenant_desk.specs.Histories.{Log};
    ghost use Rattle.trace_session.specs.Resting.{Rests};

    // the request may be answered so, after which it is so
    ghost does: { Self → Request → Reply → Self → Type 0 };

    // what is known of it whenever it is lent
    ghost is_sound: { Self → Type 0 };

    // its tenant, with the rows that it knows of
    ghost tenant_of: { Self → Tenant };

    // the log in which those rows stand
    ghost log_of: { Self → Log };

    // the code of a session that is refused since there is none
    ghost NONE_LEFT: { Code };

    // those of this kind that rest, the one that is lent next behind all others
    ghost those: { Rests → List Self };

    // what rests beside those
    ghost beside: { Rests → Rests };

    // how many of this kind a tenant has
    ghost most: { ℕ };

    /// The code of a session that is refused since there is none.
    const NONE_LEFT: Code;

    /// Answers one request, and puts the reply in place of this one.
    fn answer<T: Wait>(&mut self, rt: &T, request: &Request, reply: &mut Reply)
        ensures does { does self.old request.now reply.new self.new }
        ensures sound { is_sound self.old → is_sound self.new }
        ensures limits { (tenant_of self.new).limits ≡ (tenant_of self.old).limits }
        ensures log { log_of self.new ≡ log_of self.old };

    /// Answers the request for the stamp of this event, and writes the reply. A stamp goes from its id and its tree to the
    /// output.
    fn answer_stamp<W: Sink, T: Wait, G: Gate>(
        &mut self,
        event: u64,
        output: &mut Output<'_, W, T, G>,
    ) -> Result<(), SessionFault>
        ensures does { AnswersInTime does (Some (Request.Stamp event)) self.old self.new (W.seen output.old.writer.now) (W.seen output.new.writer.now) result }
        ensures gate { GoesThroughGate W.seen G.lets_out G.holds_back output.old output.new result }
        ensures sound { is_sound self.old → is_sound self.new }
        ensures limits { (tenant_of self.new).limits ≡ (tenant_of self.old).limits }
        ensures log { log_of self.new ≡ log_of self.old };

    /// Tells of the rows that it knows of.
    fn tell(&self) -> Told
        ensures { result ≡ told_of tenant_of log_of self.now };

    /// Takes one out of what rests, if there is one.
    fn take(resting: &mut Resting) -> Option<Self>
        ensures taken { those resting.old ≡ those resting.new ++ option_to_list result }
        ensures none { IfNone result (those resting.old ≡ []) }
        ensures beside { beside resting.new ≡ beside resting.old }
        // What rested belonged to a tenant. Then it still does, and so does what is taken.
        ensures owner { (owner : Owner) → RestOf owner resting.old → RestOf owner resting.new × IfSome result (Belongs is_sound tenant_of log_of owner) };

    /// Puts it back to what rests. It gives out a desk that was there already, which has to be ended.
    fn put(self, resting: &mut Resting) -> Option<Desk>
        ensures put { length (those resting.old) < most → (those resting.new ≡ those resting.old ++ self ∷ []) × (result ≡ None) }
        ensures beside { beside resting.new ≡ beside resting.old }
        ensures owner { (owner : Owner) → RestOf owner resting.old → Belongs is_sound tenant_of log_of owner self → RestOf owner resting.new };
}

impl Lent for Desk {
    ghost use Rattle.std.specs.Prelude.{None};
    ghost use Rattle.std.specs.Option.{option_to_list};
    ghost use Rattle.trace_types.specs.declared.code.Code.TheVariants.{DeskTaken};
    ghost use Rattle.trace_session.specs.Lent.{IsSoundDesk, TakesRequest};

    ghost does = { TakesRequest };

    ghost is_sound = { IsSoundDesk };

    ghost tenant_of = { λ desk. desk.tenant };

    ghost log_of = { λ desk. desk.log };

    ghost NONE_LEFT = { DeskTaken };

    ghost those = { λ rests. option_to_list rests.desk };

    ghost beside = { λ rests. record rests { desk = None } };

    ghost most = { 1 };

    const NONE_LEFT: Code = Code::DeskTaken;

    fn answer<T: Wait>(&mut self, rt: &T, request: &Request, reply: &mut Reply) {
        self.call_into(rt, request, reply);
    }

    fn answer_stamp<W: Sink, T: Wait, G: Gate>(
        &mut self,
        event: u64,
        output: &mut Output<'_, W, T, G>,
    ) -> Result<(), SessionFault> {
        match self.stamp_parts(event) {
            Some((id, tree)) => output.put_out_stamp(id, tree),
            None => output.put_out(&Reply::Refused(Code::NoEvent)),
        }
    }

    fn tell(&self) -> Told {
        Desk::tell(self)
    }

    fn take(resting: &mut Resting) -> Option<Desk> {
        resting.take_desk()
    }

    fn put(self, resting: &mut Resting) -> Option<Desk> {
        resting.put_desk(self)
    }
}

impl Lent for View {
    ghost use Rattle.std.specs.Prelude.{[]};
    ghost use Rattle.trace_types.specs.declared.code.Code.TheVariants.{NoPlace};
    ghost use Rattle.trace_session.specs.Lent.{AsksView, IsSoundView, tenant_seen};

    ghost does = { AsksView };

    ghost is_sound = { IsSoundView };

    ghost tenant_of = { tenant_seen };

    ghost log_of = { λ view. view.log };

    ghost NONE_LEFT = { NoPlace };

    ghost those = { λ rests. rests.views };

    ghost beside = { λ rests. record rests { views = [] } };

    ghost most = { 8 };

    const NONE_LEFT: Code = Code::NoPlace;

    fn answer<T: Wait>(&mut self, rt: &T, request: &Request, reply: &mut Reply) {
        self.ask_cached_into(rt, request, reply);
    }

    fn answer_stamp<W: Sink, T: Wait, G: Gate>(
        &mut self,
        event: u64,
        output: &mut Output<'_, W, T, G>,
    ) -> Result<(), SessionFault> {
        match self.stamp_parts(event) {
            Ok((id, tree)) => output.put_out_stamp(&id, &tree),
            Err(code) => output.put_out(&Reply::Refused(code)),
        }
    }

    fn tell(&self) -> Told {
        View::tell(self)
    }

    fn take(resting: &mut Resting) -> Option<View> {
        resting.take_view()
    }

    fn put(self, resting: &mut Resting) -> Option<Desk> {
        resting.put_view(self);
        None
    }
}
