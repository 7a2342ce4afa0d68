//! Views, which answer beside a desk.
ghost use Rattle.std.specs.Prelude.{◌≡◌, [], IfOk, MatchResult};
ghost use Rattle.left_right.specs.Sides.{view as known_at};
ghost use Rattle.trace_types.specs.text.StampText.{stamp_text};
ghost use Rattle.tenant_ledger.specs.Size.{IsShort};
ghost use Rattle.tenant_desk.specs.Rules.{HasEntered, IsOfLog, StaysOf};
ghost use Rattle.tenant_desk.specs.Views.{Learns, Responds};

use crate::Told;
use crate::learned_lists::Met;
use crate::published_answer::answer_published;
use crate::publisher::{DeskReader, DeskReading, Publisher};
use crate::publishing_rule::Seeing;
use crate::row_log::Front;
use crate::stamp_parts::shared_parts;
use event_tree::EvTree;
use id_tree::IdTree;
use std::marker::Model;
use std::sync::Wait;
use trace_types::{Code, Limits, Memory, Reply, Request};

/// A view of a tenant. It answers at a list of rows that the desk published. It never goes back behind a list that it saw
/// or was told of.
///
/// Contracts see the rows that it knows of, and the lists that were put together since it last entered. They also see the
/// limits of the tenant, and the log that has the rows.
#[derive(Drop)]
pub struct View {
    /// It is there except during an answer, which moves it.
    reader: Option<DeskReader>,
    seen: Front,
    met: Met,
    limits: Limits,
}

impl Model for View {
    ghost use Rattle.std.specs.Prelude.{Some, None};
    ghost use Rattle.left_right.specs.Sides.{view as known_at};
    ghost use Rattle.tenant_desk.specs.Rules.{IsOfDesk};
    ghost use Rattle.tenant_desk.specs.Views.{BeginWithEach, Known};

    ghost Value = { Known };

    ghost view = { λ v. record { seen = v.seen.rows; met = v.met; limits = v.limits; log = v.seen.log } };

    ghost invariant = { λ v. BeginWithEach v.seen.rows v.met
        × elim v.reader [ None ↦ ⊥ | Some reader ↦ IsOfDesk v.seen.log v.limits (known_at reader.place) ] };
}

/// Enters what is published. The reader comes back if the desk is gone, or if less is published than was seen.
#[tactic(auto, using(crate::proofs::Viewing::entered_log, crate::proofs::Viewing::stays_of))]
fn enter(reader: DeskReader, seen: &Front) -> Result<DeskReading, DeskReader>
    requires { IsOfLog seen.now.log (known_at reader.place) }
    ensures { MatchResult result
        (λ reading. HasEntered (known_at reader.place) seen.now.rows reading.part.value (known_at reading.place))
        (λ left. StaysOf (known_at reader.place) (known_at left.place)) }
{
    let reading = reader.enter_as::<Seeing>()?;
    if reading.get().front().covers(seen) {
        Ok(reading)
    } else {
        Err(reading.leave())
    }
}

/// Gives back what was entered, and says how far it went.
fn give_back(reading: DeskReading) -> (DeskReader, Front)
    ensures known { known_at result.0.place ≡ known_at reading.place }
    ensures front { result.1 ≡ reading.part.value.front }
{
    let front = reading.get().front().again();
    (reading.leave(), front)
}

impl View {
    /// A view that has seen all that is shown. Returns `Memory` if no reader is left, or no memory for it.
    pub(crate) fn new(limits: Limits, publisher: &mut Publisher) -> Result<View, Memory>
        requires limits { publisher.old.events.limits ≡ limits }
        ensures same { publisher.new ≡ publisher.old }
        ensures view { IfOk result (λ view. view ≡ record { seen = publisher.old.front.rows; met = []; limits = limits; log = publisher.old.front.log }) }
    {
        let reader = publisher.reader()?;
        Ok(View {
            reader: Some(reader),
            seen: publisher.front().again(),
            met: Met::new(),
            limits,
        })
    }

    /// Sees the rows that a desk told of, if they are more than were seen. It takes no memory, and waits for nobody.
    #[tactic(auto, using(crate::proofs::Viewing::put_longer, crate::proofs::Viewing::put_shorter))]
    pub fn learn(&mut self, told: Told)
        requires { told.log ≡ self.old.log }
        ensures { Learns self.old told self.new }
    {
        let is_longer = !self.seen.covers(&told.front);
        self.met.put(&told.front, &self.seen);
        if is_longer {
            self.seen = told.front;
        }
    }

    /// Tells of all rows that it knows of. It takes constant time and no memory.
    pub fn tell(&self) -> Told
        ensures { result ≡ record { rows = self.now.seen; log = self.now.log } }
    {
        Told {
            front: self.seen.again(),
        }
    }

    /// Answers a query at the list that is published then. It waits for nobody, and does not use the cache.
    ///
    /// A report is refused with `ViewOnly` (410), and a query with `NoPlace` (422) if the desk is gone. The view is then
    /// as before. `past`, `concurrent`, `cut`, `stamp` and `message` are refused with `NoMemory` (507) if they run out of
    /// memory. The others take none.
    #[tactic(auto, using(crate::proofs::Viewing::short_response))]
    pub fn ask(&mut self, request: &Request) -> Reply
        ensures answer { Responds self.old request.now result self.new }
        ensures log { self.new.log ≡ self.old.log }
        ensures short { IsShort self.new.seen request.now result }
    {
        // For the proof: it says that these are limits.
        let _ = self.limits.events();
        let mut reply = Reply::Refused(Code::NoPlace);
        self.respond(request, false, &mut reply);
        reply
    }

    /// Answers as [`View::ask`] does, and looks orders up in the cache that all tenants share.
    pub fn ask_cached<R: Wait>(&mut self, rt: &R, request: &Request) -> Reply
        ensures answer { Responds self.old request.now result self.new }
        ensures log { self.new.log ≡ self.old.log }
        ensures short { IsShort self.new.seen request.now result }
    {
        let mut reply = Reply::Refused(Code::NoPlace);
        self.ask_cached_into(rt, request, &mut reply);
        reply
    }

    /// Answers as [`View::ask_cached`] does, and puts the reply in place of this one. So the reply is not moved from call to
    /// call.
    #[tactic(auto, using(crate::proofs::Viewing::short_response))]
    pub fn ask_cached_into<R: Wait>(&mut self, _rt: &R, request: &Request, reply: &mut Reply)
        ensures answer { Responds self.old request.now reply.new self.new }
        ensures log { self.new.log ≡ self.old.log }
        ensures short { IsShort self.new.seen request.now reply.new }
    {
        // For the proof: it says that these are limits.
        let _ = self.limits.events();
        self.respond(request, true, reply);
    }

    /// The id and the tree of the event's stamp, at the list that is published then. [`View::ask`] answers the stamp with
    /// their text. They are equal ones that the caller keeps, so no desk waits until they are written. It waits for nobody,
    /// and asks for no memory.
    ///
    /// Returns the code of the refusal: `NoPlace` (422) if the desk is gone, and `NoEvent` (404) if there is no such event.
    /// It is `NoMemory` (507) if a part would stand in more trees than can be counted.
    #[tactic(auto, using(crate::proofs::Viewing::of_log, crate::proofs::Viewing::entered_desk))]
    pub fn stamp_parts(&mut self, event: u64) -> Result<(IdTree, EvTree), Code>
        ensures answer { MatchResult result (λ parts. Responds self.old (Request.Stamp event) (Reply.Stamp (stamp_text parts.0 parts.1)) self.new)
            (λ code. Responds self.old (Request.Stamp event) (Reply.Refused code) self.new) }
        ensures log { self.new.log ≡ self.old.log }
    {
        let Some(reader) = self.reader.take() else {
            unreachable!()
        };
        match enter(reader, &self.seen) {
            Ok(reading) => {
                let parts = shared_parts(reading.get().events(), event);
                let (reader, seen) = give_back(reading);
                self.reader = Some(reader);
                self.seen = seen;
                self.met.clear();
                parts
            }
            Err(reader) => {
                self.reader = Some(reader);
                Err(Code::NoPlace)
            }
        }
    }

    /// Answers as [`View::ask`] does, by the cache that all tenants share or without it.
    #[inline(always)]
    #[tactic(auto, using(crate::proofs::Viewing::of_log, crate::proofs::Viewing::entered_desk))]
    fn respond(&mut self, request: &Request, by_cache: bool, reply: &mut Reply)
        ensures answer { Responds self.old request.now reply.new self.new }
        ensures log { self.new.log ≡ self.old.log }
    {
        if request.is_report() {
            *reply = Reply::Refused(Code::ViewOnly);
            return;
        }
        let Some(reader) = self.reader.take() else {
            unreachable!()
        };
        match enter(reader, &self.seen) {
            Ok(reading) => {
                let events = reading.get().events();
                answer_published(events, by_cache, request, reply);
                let (reader, seen) = give_back(reading);
                self.reader = Some(reader);
                self.seen = seen;
                self.met.clear();
            }
            Err(reader) => {
                *reply = Reply::Refused(Code::NoPlace);
                self.reader = Some(reader);
            }
        }
    }
}
