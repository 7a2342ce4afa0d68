//! The line that an export has of an event, looked for without reading JSON.
ghost use Rattle.std.specs.Prelude.{◌≡◌, ◌<◌, ◌≤◌, ◌^◌, ◌↔◌, All, decimal, false, length, IfSome, IsTrue, true};
ghost use Rattle.serde_json.specs.Written.{items_text};
ghost use Rattle.trace_types.specs.clock.EventTree.{maximum};
ghost use Rattle.trace_types.specs.tenant.Tenant.{is_report};
ghost use Rattle.trace_types.specs.text.Name.{is_name};
ghost use Rattle.trace_types.specs.text.StampText.{stamp_text};
ghost use Rattle.trace_types.specs.text.Text.{name_text};
ghost use Rattle.trace_export.specs.DueLine.{IsSpelled, Strips, StripsOn, due_line, due_listed, due_text};
ghost use Rattle.trace_export.specs.Listing.{IsReadAgain, numbers_json};

use crate::requests::request_for;
use event_tree::EvTree;
use id_tree::IdTree;
use itoa::Buffer;
use stamp_codec::strip_parts;
use trace_types::{Kind, Name, Request, Row};

/// Whether the line is the one that an export has of the event of this number. The event has this row, this id of its task
/// after it, and this tree. Such a line is read again as that event, by the grammar of JSON. It takes no memory.
pub(crate) fn is_due_line(line: &[u8], number: u64, row: &Row, id: &IdTree, tree: &EvTree) -> bool
    ensures is { IsTrue result ↔ (line.now ≡ due_line number row.now id.now tree.now) }
    ensures read { IsReadAgain (due_listed number row.now id.now tree.now) }
{
    is_spelled(number, row, tree);
    match strip_line(line, number, row, id, tree) {
        Some(rest) => rest.is_empty(),
        None => false,
    }
}

/// The numbers fit 64 bits and the words are names, which a caller learns by the call.
#[inline(always)]
fn is_spelled(number: u64, row: &Row, tree: &EvTree)
    ensures { IsSpelled number row.now tree.now }
{
    let _name = name_word(&row.name);
    let preds = row.preds.as_slice();
    numbers_fit(preds);
    let _task = row.task.as_bytes();
    value_fits(tree);
}

/// The greatest value of the tree fits 64 bits, which a caller learns by the call.
#[inline(always)]
fn value_fits(tree: &EvTree)
    ensures { maximum tree.now < 2 ^ 64 }
{
    let _parts = tree.parts();
}

/// Each number fits 64 bits, which a caller learns by the call.
#[inline(always)]
fn numbers_fit(numbers: &[u64])
    ensures { All (λ n. n < 2 ^ 64) numbers.now }
{}

/// The name, or `-` if there is none.
#[inline(always)]
fn name_word(name: &Option<Name>) -> &[u8]
    ensures text { result.now ≡ name_text name.now }
    ensures named { IfSome name.now (λ name. IsTrue (is_name name)) }
{
    match name {
        Some(name) => name.as_bytes(),
        None => b"-",
    }
}

/// What follows the text of the event of this number, with this row and this stamp. It looks for one piece behind the other.
fn strip_line<'a>(
    line: &'a [u8],
    number: u64,
    row: &Row,
    id: &IdTree,
    tree: &EvTree,
) -> Option<&'a [u8]>
    ensures { Strips line.now (due_text number row.now (stamp_text id.now tree.now)) result }
{
    let name = name_word(&row.name);
    let preds = row.preds.as_slice();
    let task = row.task.as_bytes();
    let rest = strip(Some(line), b"{\"event\":");
    let rest = strip_number(rest, number);
    let rest = strip(rest, b",\"kind\":\"");
    let rest = strip(rest, row.kind.text().as_bytes());
    let rest = strip(rest, b"\",\"name\":\"");
    let rest = strip(rest, name);
    let rest = strip(rest, b"\",\"preds\":[");
    let rest = strip_preds(rest, preds);
    let rest = strip(rest, b",\"stamp\":\"");
    let rest = strip_stamp(rest, id, tree);
    let rest = strip(rest, b"\",\"task\":\"");
    let rest = strip(rest, task);
    strip(rest, b"\"}")
}

/// What follows the predecessors, with a comma between two and a bracket behind them.
#[inline(always)]
fn strip_preds<'a>(text: Option<&'a [u8]>, preds: &[u64]) -> Option<&'a [u8]>
    requires { length preds.now ≤ 2 }
    ensures { StripsOn text.entry (items_text false (numbers_json preds.now)) result }
{
    match *preds {
        [] => strip(text, b"]"),
        [one] => strip(strip_number(text, one), b"]"),
        [first, second] => {
            let behind = strip(strip_number(text, first), b",");
            strip(strip_number(behind, second), b"]")
        }
        _ => unreachable!(),
    }
}

/// What follows the text of the stamp.
#[inline(always)]
fn strip_stamp<'a>(text: Option<&'a [u8]>, id: &IdTree, tree: &EvTree) -> Option<&'a [u8]>
    ensures { StripsOn text.entry (stamp_text id.now tree.now) result }
{
    match text {
        Some(text) => strip_parts(text, id, tree),
        None => None,
    }
}

/// What follows the digits of the number. It is a function of its own, since the buffer is cleared on entry.
#[inline(never)]
fn strip_number(text: Option<&[u8]>, number: u64) -> Option<&[u8]>
    ensures { StripsOn text.entry (decimal number) result }
{
    let mut buffer = Buffer::new();
    strip(text, buffer.format(number).as_bytes())
}

/// What follows the piece, if it stands at the front of the text. Of no text nothing follows.
#[inline(always)]
fn strip<'a>(text: Option<&'a [u8]>, piece: &[u8]) -> Option<&'a [u8]>
    ensures { StripsOn text.entry piece.now result }
{
    match text {
        Some(text) => text.strip_prefix(piece),
        None => None,
    }
}

/// The report that a line of an export seems to list, by the places at which such a line has its words. A line may list
/// another: what is done with the report has to be compared with the line. It takes no memory.
pub(crate) fn hinted_report(line: &[u8]) -> Option<Request>
    ensures { IfSome result (λ request. is_report request ≡ true) }
{
    let text = line.strip_prefix(b"{\"event\":")?;
    let text = behind_digits(text)?.strip_prefix(b",\"kind\":\"")?;
    let (kind, text) = front_kind(text)?;
    let text = text.strip_prefix(b"\",\"name\":\"")?;
    let name = front_name(text)?;
    let task = last_name(line.strip_suffix(b"\"}")?)?;
    Some(request_for(kind, task, name))
}

/// What follows the digits at the front, if anything does.
fn behind_digits(text: &[u8]) -> Option<&[u8]> {
    let end = text.iter().position(|byte| !byte.is_ascii_digit())?;
    text.get(end..)
}

/// The kind whose word is at the front, and what follows it.
fn front_kind(text: &[u8]) -> Option<(Kind, &[u8])> {
    match text {
        [b'l', b'o', b'c', b'a', b'l', rest @ ..] => Some((Kind::Local, rest)),
        [b's', b'p', b'a', b'w', b'n', rest @ ..] => Some((Kind::Spawn, rest)),
        [b's', b'e', b'n', b'd', rest @ ..] => Some((Kind::Send, rest)),
        [b'r', b'e', b'c', b'v', rest @ ..] => Some((Kind::Recv, rest)),
        [b'e', b'n', b'd', rest @ ..] => Some((Kind::End, rest)),
        [b'j', b'o', b'i', b'n', rest @ ..] => Some((Kind::Join, rest)),
        _ => None,
    }
}

/// The name before the first quote, or that there is none.
fn front_name(text: &[u8]) -> Option<Option<Name>> {
    if let [b'-', b'"', ..] = text {
        return Some(None);
    }
    let end = text.iter().position(|byte| *byte == b'"')?;
    Some(Some(Name::read(text.get(..end)?)?))
}

/// The name behind the last quote.
fn last_name(text: &[u8]) -> Option<Name> {
    let quote = text.iter().rposition(|byte| *byte == b'"')?;
    Name::read(text.get(quote + 1..)?)
}
