//! Lines of sessions, answered one after another by a desk or a view.
ghost use Rattle.std.specs.Prelude.{◌≡◌, ◌<◌, ◌≤◌, IfNone, IfSome, Err};
ghost use Rattle.trace_types.specs.declared.code.Code.TheVariants as code;
ghost use Rattle.trace_types.specs.declared.reply.Reply.TheVariants.{Refused};
ghost use Rattle.trace_session.specs.Answers.{AnswersLine};
ghost use Rattle.trace_session.specs.Asking.{asked_by_line};
ghost use Rattle.trace_session.specs.Faults.{session_fault_of};
ghost use Rattle.trace_session.specs.Goings.{Goes, GoesOn};
ghost use Rattle.trace_session.specs.Lent.{AsksView, IsSoundDesk, IsSoundView, TakesRequest};
ghost use Rattle.trace_session.specs.Outputs.{GoesThroughGate, IsSameOutput};
ghost use Rattle.trace_session.specs.Sessions.{AnswersAsked, Session};

use crate::desk_or_view::Lent;
use crate::output::Output;
use crate::{Gate, SessionEnd, SessionFault};
use line_protocol::{Line, LineReader, Sink, Source, read_request};
use std::sync::Wait;
use tenant_desk::{Desk, View};
use trace_types::{Code, Reply, Request};

/// How many requests one session may make.
const MOST_REQUESTS: u64 = 1048576;

/// What a line of a session asks.
#[derive(Clone, Copy)]
pub(crate) enum Asked {
    /// This request, or `None` if the line spells none.
    Request(Option<Request>),
    /// The end of the session.
    Quit,
    /// Nothing, since the input has ended.
    End,
}

/// Answers lines by the desk until the session of this number ends. Each line is a request, and a line that spells none
/// is answered 400. The session ends at `quit`, at the end of its input, and at any other line after 1048576 requests,
/// which is answered 423.
///
/// Each reply is flushed before the next line is waited for. The gate is asked before each line that is written. If it
/// says no, the session ends with `Gate`: the last request was carried out, and its reply is not written.
///
/// Returns `Read` if a read failed, and `TooLong` if all the reads were made. Returns `Write` if a write or a flush
/// failed or was interrupted 1048576 times.
pub fn report_lines<T: Wait, R: Source, W: Sink, G: Gate>(
    rt: &T,
    desk: &mut Desk,
    lines: &mut LineReader<'_, R>,
    writer: &mut W,
    gate: &G,
    number: u64,
) -> Result<SessionEnd, SessionFault>
    ensures same_source { lines.new.source.ghost_name ≡ lines.old.source.ghost_name }
    // What it read, answered and wrote, and how it ended.
    ensures goes { IfNone lines.old.fault (Goes R.seen W.seen (G.lets_out gate.now number) (G.holds_back gate.now number)
        (Session TakesRequest desk.old desk.new) lines.old lines.new writer.old writer.new result) }
    ensures sound { IsSoundDesk desk.old → IsSoundDesk desk.new }
    // The fault of an earlier call is answered again, and then nothing changes.
    ensures again { IfSome lines.old.fault (λ fault. (result ≡ Err (session_fault_of fault)) × (lines.new ≡ lines.old)
        × (writer.new ≡ writer.old) × (desk.new ≡ desk.old)) }
{
    let mut output = Output {
        writer,
        rt,
        gate,
        number,
    };
    output.answer_lines(desk, lines)
}

/// Answers lines by the view, as [`report_lines`] does by a desk. A report is refused with 410, and a query with 422 if
/// no list is published any more.
pub fn view_lines<T: Wait, R: Source, W: Sink, G: Gate>(
    rt: &T,
    view: &mut View,
    lines: &mut LineReader<'_, R>,
    writer: &mut W,
    gate: &G,
    number: u64,
) -> Result<SessionEnd, SessionFault>
    ensures same_source { lines.new.source.ghost_name ≡ lines.old.source.ghost_name }
    // What it read, answered and wrote, and how it ended.
    ensures goes { IfNone lines.old.fault (Goes R.seen W.seen (G.lets_out gate.now number) (G.holds_back gate.now number)
        (Session AsksView view.old view.new) lines.old lines.new writer.old writer.new result) }
    ensures sound { IsSoundView view.old → IsSoundView view.new }
    // The fault of an earlier call is answered again, and then nothing changes.
    ensures again { IfSome lines.old.fault (λ fault. (result ≡ Err (session_fault_of fault)) × (lines.new ≡ lines.old)
        × (writer.new ≡ writer.old) × (view.new ≡ view.old)) }
{
    let mut output = Output {
        writer,
        rt,
        gate,
        number,
    };
    output.answer_lines(view, lines)
}

impl<'a, W: Sink, T: Wait, G: Gate> Output<'a, W, T, G> {
    /// Answers lines by what is lent, until the session ends. No read is made while the writer holds a reply back.
    pub(crate) fn answer_lines<L: Lent, R: Source>(
        &mut self,
        lent: &mut L,
        lines: &mut LineReader<'_, R>,
    ) -> Result<SessionEnd, SessionFault>
        ensures same_source { lines.new.source.ghost_name ≡ lines.old.source.ghost_name }
        ensures same { IsSameOutput self.old self.new }
        ensures goes { IfNone lines.old.fault
            (GoesOn R.seen W.seen G.lets_out G.holds_back (Session L.does lent.old lent.new) lines.old lines.new self.old self.new result) }
        ensures sound { L.is_sound lent.old → L.is_sound lent.new }
        ensures limits { (L.tenant_of lent.new).limits ≡ (L.tenant_of lent.old).limits }
        ensures log { L.log_of lent.new ≡ L.log_of lent.old }
        ensures again { IfSome lines.old.fault (λ fault. (result ≡ Err (session_fault_of fault)) × (lines.new ≡ lines.old)
            × (self.new ≡ self.old) × (lent.new ≡ lent.old)) }
    {
        if let Some(fault) = lines.fault() {
            return Err(SessionFault::from(fault));
        }
        let mut requests = 0u64;
        loop {
            let found = lines.next_flushing(self.writer)?;
            let asked = asked_by_line(found, lines.line());
            if let Some(end) = self.answer(lent, &asked, requests)? {
                return self.finish(end);
            }
            requests += 1;
        }
    }

    /// Answers what is asked after `requests` requests, and gives the end that it brings.
    fn answer<L: Lent>(
        &mut self,
        lent: &mut L,
        asked: &Asked,
        requests: u64,
    ) -> Result<Option<SessionEnd>, SessionFault>
        ensures answers { AnswersAsked L.does asked.now requests lent.old lent.new (W.seen self.old.writer.now) (W.seen self.new.writer.now) result }
        ensures gate { GoesThroughGate W.seen G.lets_out G.holds_back self.old self.new result }
        ensures sound { L.is_sound lent.old → L.is_sound lent.new }
        ensures limits { (L.tenant_of lent.new).limits ≡ (L.tenant_of lent.old).limits }
        ensures log { L.log_of lent.new ≡ L.log_of lent.old }
    {
        match asked {
            Asked::End => Ok(Some(SessionEnd::EndOfInput)),
            Asked::Quit => Ok(Some(SessionEnd::Quit)),
            Asked::Request(_) if requests == MOST_REQUESTS => {
                self.put_out(&Reply::Refused(Code::SessionOver))?;
                Ok(Some(SessionEnd::Over))
            }
            Asked::Request(Some(Request::Stamp(event))) => {
                lent.answer_stamp(*event, self)?;
                Ok(None)
            }
            Asked::Request(request) => {
                let mut reply = Reply::Refused(Code::Line);
                reply_to(self.rt, lent, request, &mut reply);
                self.put_out(&reply)?;
                Ok(None)
            }
        }
    }
}

/// What is asked if this was found. `line` is the line if it is a whole one.
fn asked_by_line(found: Line, line: &[u8]) -> Asked
    ensures { result ≡ asked_by_line found line.now }
{
    match found {
        Line::End => Asked::End,
        Line::TooLong => Asked::Request(None),
        Line::Whole if line == b"quit".as_slice() => Asked::Quit,
        Line::Whole => Asked::Request(read_request(line)),
    }
}

/// Answers a line that is a request. The reply stays 400 if the line spells none.
fn reply_to<T: Wait, L: Lent>(rt: &T, lent: &mut L, request: &Option<Request>, reply: &mut Reply)
    requires { reply.old ≡ Refused code.Line }
    ensures answers { AnswersLine L.does lent.old request.now reply.new lent.new }
    ensures sound { L.is_sound lent.old → L.is_sound lent.new }
    ensures limits { (L.tenant_of lent.new).limits ≡ (L.tenant_of lent.old).limits }
    ensures log { L.log_of lent.new ≡ L.log_of lent.old }
{
    if let Some(request) = request {
        lent.answer(rt, request, reply);
    }
}
