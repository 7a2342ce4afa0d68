//! Answers to the queries of a tenant, from what is kept of its events.
ghost use Rattle.std.specs.Prelude.{◌≡◌, ◌<◌, All, IfErr, IfOk, IfSome, false, is_some, length, map, suc, true};
ghost use Rattle.trace_query.specs.Deciding.{DecideInOrder};
ghost use Rattle.trace_query.specs.Queries.{StandInOrder};
ghost use Rattle.trace_types.specs.clock.Clock.{tree_clock};
ghost use Rattle.trace_types.specs.clock.Stamps.{tree_of};
ghost use Rattle.trace_types.specs.tenant.Rows.{is_event};
ghost use Rattle.trace_types.specs.text.StampText.{stamp_text as text_of_parts};
ghost use Rattle.trace_types.specs.tenant.Tenant.{Answers, reply_to_view};
ghost use Rattle.tenant_ledger.specs.Answers.{code_of, is_brief, order_answer};
ghost use Rattle.tenant_ledger.specs.Contents.{history_in, tenant_of};
ghost use Rattle.tenant_ledger.specs.Told.{id_after, of_each};
ghost use Rattle.tenant_ledger.specs.Kept.{IsKept};

use crate::book::Book;
use crate::share::{Keep, KeptId};
use event_tree::{EvTree, RaisedPoint};
use stamp_codec::write_parts;
use std::alloc::Global;
use trace_query::{
    Compare, Meant, QueryFault, concurrent_by_points, cut_by_points, order_by_points,
    past_by_points,
};
use trace_types::{Code, Memory, Name, Numbers, Order, Reply, Request, Text};

/// Answers a query as is due to the tenant, and refuses every report with `ViewOnly` (410).
///
/// `past`, `concurrent`, `cut`, `stamp` and `message` are refused with `NoMemory` (507) if they run out of memory. The
/// others take none.
#[inline(always)]
pub fn answer<S: Keep, C: Compare<S::Kept>>(book: &Book<S>, compare: &C, request: &Request) -> Reply
    requires sound { IsKept book.now }
    requires admitted { (kept : S.Kept) → S.home_of kept ≡ book.now.home → C.admits compare.now kept }
    ensures { Answers (tenant_of book.now) request.now result }
{
    // The compiler zeroes all locals of a function on entry. The two short answers do without those of the others.
    match *request {
        Request::Order(first, second) => match order_of(book, compare, first, second) {
            Ok(order) => Reply::Ordering(order),
            Err(code) => Reply::Refused(code),
        },
        Request::Count => {
            let (events, tasks, messages) = counts_of(book);
            Reply::Count(events, tasks, messages)
        }
        _ => answer_at_length(book, compare, request),
    }
}

/// Answers any other request.
#[inline(never)]
fn answer_at_length<S: Keep, C: Compare<S::Kept>>(
    book: &Book<S>,
    compare: &C,
    request: &Request,
) -> Reply
    requires sound { IsKept book.now }
    requires admitted { (kept : S.Kept) → S.home_of kept ≡ book.now.home → C.admits compare.now kept }
    requires long { is_brief request.now ≡ false }
    ensures { Answers (tenant_of book.now) request.now result }
{
    match *request {
        Request::Local(_)
        | Request::Spawn(..)
        | Request::Send(..)
        | Request::Recv(..)
        | Request::End(_)
        | Request::Join(..) => Reply::Refused(Code::ViewOnly),
        Request::Order(..) | Request::Count => unreachable!(),
        Request::Past(event) => past(book, compare, event),
        Request::Concurrent(event) => concurrent_with(book, compare, event),
        Request::Cut(event) => cut(book, compare, event),
        Request::Event(event) => row(book, event),
        Request::Stamp(event) => stamp(book, event),
        Request::Task(name) => task(book, &name),
        Request::Message(name) => message(book, &name),
    }
}

/// How the first event stands to the second, as [`answer`] answers. It takes no memory.
#[inline(always)]
pub fn order_of<S: Keep, C: Compare<S::Kept>>(
    book: &Book<S>,
    compare: &C,
    first: u64,
    second: u64,
) -> Result<Order, Code>
    requires sound { IsKept book.now }
    requires admitted { (kept : S.Kept) → S.home_of kept ≡ book.now.home → C.admits compare.now kept }
    ensures { order_answer result ≡ reply_to_view (tenant_of book.now) (Request.Order first second) }
{
    let (trees, points) = trees_and_points(book);
    match order_by_points(compare, trees, points, first, second) {
        Ok(order) => Ok(order),
        Err(fault) => Err(code_of(fault)),
    }
}

/// The other events that reach the event.
fn past<S: Keep, C: Compare<S::Kept>>(book: &Book<S>, compare: &C, event: u64) -> Reply
    requires sound { IsKept book.now }
    requires admitted { (kept : S.Kept) → S.home_of kept ≡ book.now.home → C.admits compare.now kept }
    ensures { Answers (tenant_of book.now) (Request.Past event) result }
{
    let (trees, points) = trees_and_points(book);
    listed(past_by_points(compare, book.alloc(), trees, points, event))
}

/// The events that neither reach the event nor are reached from it.
fn concurrent_with<S: Keep, C: Compare<S::Kept>>(book: &Book<S>, compare: &C, event: u64) -> Reply
    requires sound { IsKept book.now }
    requires admitted { (kept : S.Kept) → S.home_of kept ≡ book.now.home → C.admits compare.now kept }
    ensures { Answers (tenant_of book.now) (Request.Concurrent event) result }
{
    let (trees, points) = trees_and_points(book);
    listed(concurrent_by_points(compare, book.alloc(), trees, points, event))
}

/// The last event of each task that reaches the event.
fn cut<S: Keep, C: Compare<S::Kept>>(book: &Book<S>, compare: &C, event: u64) -> Reply
    requires sound { IsKept book.now }
    requires admitted { (kept : S.Kept) → S.home_of kept ≡ book.now.home → C.admits compare.now kept }
    ensures { Answers (tenant_of book.now) (Request.Cut event) result }
{
    let (trees, points) = trees_and_points(book);
    listed(cut_by_points(compare, book.alloc(), trees, points, book.starts(), event))
}

/// What each event knows, and a point of each, as a search by points wants them.
#[inline(always)]
fn trees_and_points<S: Keep>(book: &Book<S>) -> (&[S::Kept], &[Option<RaisedPoint>])
    requires { IsKept book.now }
    ensures kept { All (λ kept. S.home_of kept ≡ book.now.home) result.0.now }
    ensures trees { map S.Kept.tree result.0.now ≡ of_each (tree_of tree_clock) (history_in book.now) }
    ensures in_order { StandInOrder (map S.Kept.tree result.0.now) }
    ensures decided { DecideInOrder (map S.Kept.tree result.0.now) result.1.now }
{
    (book.trees(), book.points())
}

/// The row of the event.
fn row<S: Keep>(book: &Book<S>, event: u64) -> Reply
    requires { IsKept book.now }
    ensures { result ≡ reply_to_view (tenant_of book.now) (Request.Event event) }
{
    match book.place_of(event) {
        Some(place) => Reply::Event(book.rows()[place].share()),
        None => Reply::Refused(Code::NoEvent),
    }
}

/// The stamp of the event.
fn stamp<S: Keep>(book: &Book<S>, event: u64) -> Reply
    requires { IsKept book.now }
    ensures { Answers (tenant_of book.now) (Request.Stamp event) result }
{
    let Some((id, tree)) = book.stamp_parts(event) else {
        return Reply::Refused(Code::NoEvent);
    };
    match stamp_text(book.alloc(), id, tree.tree_value()) {
        Ok(text) => Reply::Stamp(Text::from(text)),
        Err(refused) => Reply::Refused(Code::from(refused)),
    }
}

/// The text of the stamp of this id and this tree. Returns `Memory` if it runs out of memory.
fn stamp_text<I: KeptId>(alloc: Global, id: &I, tree: &EvTree) -> Result<Vec<u8>, Memory>
    ensures { IfOk result (λ text. text.items ≡ text_of_parts (I.id id.now) tree.now) }
{
    let id = id.tree(alloc)?;
    write_parts(alloc, id.as_tree(), tree)
}

/// The state and the last event of the task.
fn task<S: Keep>(book: &Book<S>, name: &Name) -> Reply
    requires { IsKept book.now }
    ensures { result ≡ reply_to_view (tenant_of book.now) (Request.Task name.now) }
{
    match book.task(name) {
        Some((state, last)) => Reply::Task(state, last),
        None => Reply::Refused(Code::NoTask),
    }
}

/// The send and the receipts of the message.
fn message<S: Keep>(book: &Book<S>, name: &Name) -> Reply
    requires { IsKept book.now }
    ensures { Answers (tenant_of book.now) (Request.Message name.now) result }
{
    match book.message(name) {
        Ok(Some((sent, receipts))) => Reply::Message(sent, receipts),
        Ok(None) => Reply::Refused(Code::NoMessage),
        Err(Memory) => Reply::Refused(Code::NoMemory),
    }
}

/// How many events, tasks ever and messages there are.
#[inline(always)]
pub fn counts_of<S: Keep>(book: &Book<S>) -> (u64, u64, u64)
    requires { IsKept book.now }
    ensures { Reply.Count result.0 result.1 result.2 ≡ reply_to_view (tenant_of book.now) Request.Count }
{
    (
        book.rows().len() as u64,
        book.task_count(),
        book.message_count(),
    )
}

/// The reply that gives these events.
fn listed(found: Result<Vec<u64>, QueryFault>) -> Reply
    ensures events { IfOk found (λ events. result ≡ Reply.List events.items) }
    ensures fault { IfErr found (λ fault. result ≡ Reply.Refused (code_of fault)) }
{
    match found {
        Ok(events) => Reply::List(Numbers::from(events)),
        Err(fault) => Reply::Refused(code_of(fault)),
    }
}

/// The code with which a query about events is refused.
fn code_of(fault: QueryFault) -> Code
    ensures { result ≡ code_of fault }
{
    match fault {
        QueryFault::Unknown => Code::NoEvent,
        QueryFault::Memory => Code::NoMemory,
    }
}
