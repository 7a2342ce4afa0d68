//! Answers to lines.
ghost use Rattle.std.specs.Prelude.{◌≡◌, ◌<◌, Some, false, length};
ghost use Rattle.std.specs.Option.{option_copied};
ghost use Rattle.trace_types.specs.text.Lines.{is_too_long};
ghost use Rattle.trace_types.specs.text.Reading.{request_of};
ghost use Rattle.tenant_ledger.specs.Answers.{taken_answer};
ghost use Rattle.trace_world.specs.Answered.{AnswersFound, AnswersRequest, CarriesOut, TellsReply, code_to_nobody};
ghost use Rattle.trace_world.specs.Counted.{CanCount};

use crate::{Counts, World};
use line_protocol::{
    Sink, WriteFault, is_count, read_addressed, read_order, read_request, split_first,
    write_answer, write_count, write_order,
};
use stamp_reply::write_stamp_answer;
use std::sync::Wait;
use tenant_ledger::MeantId;
use trace_query::Meant;
use trace_types::{Code, Name, Reply, Request};

/// Does what a line asks of the tenants, and writes and counts the answer. A line that is too long is `None`, and asks
/// nothing.
#[inline(never)]
pub(crate) fn answer_line<R: Wait, W: Sink>(
    rt: &R,
    world: &mut World,
    line: Option<&[u8]>,
    writer: &mut W,
    counts: &mut Counts,
) -> Result<(), WriteFault>
    requires { CanCount counts.old }
    ensures { AnswersFound (option_copied line.entry) world.old world.new (W.seen writer.old) (W.seen writer.new) counts.old counts.new result }
{
    let Some(line) = line else {
        return refuse(writer, counts, b"?", Code::Line);
    };
    let (name, rest) = split_first(line);
    let Some(tenant) = world.find_text(name) else {
        return refuse(writer, counts, b"?", code_to_nobody(name));
    };
    let Some(request) = rest else {
        return refuse(writer, counts, name, Code::Line);
    };
    if is_count(request) {
        return tell_count(writer, counts, world, tenant);
    }
    match read_order(request) {
        Some(events) => tell_order(writer, counts, world, tenant, events),
        None => answer_at_length(rt, world, tenant, request, writer, counts),
    }
}

/// Does a request of any kind, and writes and counts the answer. It stands apart for the reason that `write_answer` of
/// `line_protocol` gives.
#[inline(never)]
fn answer_at_length<R: Wait, W: Sink>(
    rt: &R,
    world: &mut World,
    tenant: usize,
    request: &[u8],
    writer: &mut W,
    counts: &mut Counts,
) -> Result<(), WriteFault>
    requires tenant { tenant < length world.old.tenants }
    requires counts { CanCount counts.old }
    ensures { AnswersRequest world.old tenant (request_of request.now) world.new (W.seen writer.old) (W.seen writer.new) counts.old counts.new result }
{
    let Some(request) = read_request(request) else {
        return refuse(writer, counts, world.name(tenant).as_bytes(), Code::Line);
    };
    if let Request::Stamp(event) = request {
        return tell_stamp(writer, counts, world, tenant, event);
    }
    if request.is_report() {
        let taken = world.take(rt, tenant, &request);
        return tell_taken(writer, counts, world.name(tenant).as_bytes(), taken);
    }
    let reply = world.step(rt, tenant, &request);
    tell(writer, counts, world.name(tenant).as_bytes(), &reply)
}

/// Tells the number of a report's event, or why the report is refused.
#[inline(always)]
fn tell_taken<W: Sink>(
    writer: &mut W,
    counts: &mut Counts,
    to: &[u8],
    taken: Result<u64, Code>,
) -> Result<(), WriteFault>
    requires { CanCount counts.old }
    ensures { TellsReply (W.seen writer.old) (W.seen writer.new) to.now (taken_answer taken) counts.old counts.new result }
{
    match taken {
        Ok(event) => tell(writer, counts, to, &Reply::Accepted(event)),
        Err(code) => refuse(writer, counts, to, code),
    }
}

/// Tells the tenant how many events, tasks and messages it has.
#[inline(always)]
fn tell_count<W: Sink>(
    writer: &mut W,
    counts: &mut Counts,
    world: &World,
    tenant: usize,
) -> Result<(), WriteFault>
    requires tenant { tenant < length world.now.tenants }
    requires counts { CanCount counts.old }
    ensures { AnswersRequest world.now tenant (Some Request.Count) world.now (W.seen writer.old) (W.seen writer.new) counts.old counts.new result }
{
    counts.count_answered();
    write_count(writer, world.name(tenant), world.ledger(tenant).counts())
}

/// Tells the tenant the stamp of the event. Its text goes from the id and the tree that are kept to the writer.
fn tell_stamp<W: Sink>(
    writer: &mut W,
    counts: &mut Counts,
    world: &World,
    tenant: usize,
    event: u64,
) -> Result<(), WriteFault>
    requires tenant { tenant < length world.now.tenants }
    requires counts { CanCount counts.old }
    ensures { AnswersRequest world.now tenant (Some (Request.Stamp event)) world.now (W.seen writer.old) (W.seen writer.new) counts.old counts.new result }
{
    match world.ledger(tenant).stamp_parts(event) {
        Some((id, tree)) => {
            counts.count_answered();
            let (id, tree) = (id.id_value(), tree.tree_value());
            write_stamp_answer(writer, world.name(tenant), id, tree)
        }
        None => refuse(writer, counts, world.name(tenant).as_bytes(), Code::NoEvent),
    }
}

/// Tells the tenant how the first event stands to the second.
#[inline(always)]
fn tell_order<W: Sink>(
    writer: &mut W,
    counts: &mut Counts,
    world: &World,
    tenant: usize,
    events: (u64, u64),
) -> Result<(), WriteFault>
    requires tenant { tenant < length world.now.tenants }
    requires counts { CanCount counts.old }
    ensures { AnswersRequest world.now tenant (Some (Request.Order events.0 events.1)) world.now (W.seen writer.old) (W.seen writer.new) counts.old counts.new result }
{
    match world.ledger(tenant).order(events.0, events.1) {
        Ok(order) => {
            counts.count_answered();
            write_order(writer, world.name(tenant), order)
        }
        Err(code) => refuse(writer, counts, world.name(tenant).as_bytes(), code),
    }
}

/// Does what a line asks of the tenants, and writes no reply.
pub(crate) fn do_line<R: Wait>(rt: &R, world: &mut World, line: &[u8])
    requires { is_too_long line.now ≡ false }
    ensures { CarriesOut world.old line.now world.new }
{
    let (name, request) = read_addressed(line);
    let Some(tenant) = world.find_text(name) else {
        return;
    };
    if let Some(request) = request {
        drop(world.step(rt, tenant, &request));
    }
}

/// Counts a reply, and writes it behind its addressee.
#[inline(always)]
fn tell<W: Sink>(
    writer: &mut W,
    counts: &mut Counts,
    to: &[u8],
    reply: &Reply,
) -> Result<(), WriteFault>
    requires { CanCount counts.old }
    ensures { TellsReply (W.seen writer.old) (W.seen writer.new) to.now reply.now counts.old counts.new result }
{
    counts.count(reply);
    write_answer(writer, to, reply)
}

/// Counts and writes a refusal.
#[inline(never)]
fn refuse<W: Sink>(
    writer: &mut W,
    counts: &mut Counts,
    to: &[u8],
    code: Code,
) -> Result<(), WriteFault>
    requires { CanCount counts.old }
    ensures { TellsReply (W.seen writer.old) (W.seen writer.new) to.now (Reply.Refused code) counts.old counts.new result }
{
    tell(writer, counts, to, &Reply::Refused(code))
}

/// Why a line is refused if its first word names no tenant.
fn code_to_nobody(word: &[u8]) -> Code
    ensures { result ≡ code_to_nobody word.now }
{
    match Name::read(word) {
        Some(_) => Code::NoTenant,
        None => Code::Line,
    }
}
