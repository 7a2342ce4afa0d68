//! Writing of exports.
ghost use Rattle.std.specs.Prelude.{◌≡◌, ◌<◌, ◌≤◌, ◌++◌, codes, false, IfOk, IfErr, IsErrOf, IsTrue, length, string_bytes};
ghost use Rattle.std.specs.Str.{IsUtf8};
ghost use Rattle.line_protocol.specs.Writing.{EndsInFault, WritesPart, WritesWhole};
ghost use Rattle.serde_json.specs.Data.{depth};
ghost use Rattle.serde_json.specs.Read.{max_depth};
ghost use Rattle.serde_json.specs.View.{view, items_view};
ghost use Rattle.serde_json.specs.Written.{compact_text, has_float};
ghost use Rattle.trace_types.specs.text.Name.{is_name};
ghost use Rattle.trace_types.specs.text.Text.{name_text};
ghost use Rattle.trace_export.specs.Export.{export_lines, listed_row, stamp_at, AreReadAgain, WritesLines, BreaksLines};
ghost use Rattle.trace_export.specs.Heading.{header_line, header_text, IsHeader, IsHeaderJson};
ghost use Rattle.trace_export.specs.Listing.{listed_json, listed_line, numbers_json, IsReadAgain, IsReadAs};

use crate::header::VERSION;
use crate::{ExportFault, Header, StampTexts};
use line_protocol::{Sink, write_bytes};
use serde_json::{Map, Value, put};
use std::alloc::Global;
use trace_types::{Memory, Name, Preds, Row};

/// Writes the export of these rows, whose stamps have these texts: the header and a line for each row, each with its end.
/// It gives the number of rows, and flushes nothing. A check reads each line again as what it lists.
///
/// Returns `Write` if a write failed or 1048576 writes of one line were interrupted, and `Memory` if it runs out of
/// memory.
pub fn export_rows<T: StampTexts, W: Sink>(
    alloc: Global,
    header: &Header,
    rows: &[Row],
    stamps: &T,
    writer: &mut W,
) -> Result<u64, ExportFault>
    requires { length (T.texts stamps.now) ≡ length rows.now }
    ensures count { IfOk result (λ count. count ≡ length rows.now) }
    ensures whole { IfOk result (λ _. WritesLines (W.seen writer.old) (W.seen writer.new) (export_lines header.now rows.now (T.texts stamps.now))) }
    ensures headed { IfOk result (λ _. IsHeader (header_text header.now) header.now) }
    ensures read { IfOk result (λ _. AreReadAgain 0 rows.now (T.texts stamps.now)) }
    ensures fault { IfErr result (λ fault. BreaksLines fault (W.seen writer.old) (W.seen writer.new) (export_lines header.now rows.now (T.texts stamps.now))) }
    ensures write { IsErrOf result ExportFault.Write → EndsInFault (W.seen writer.old) (W.seen writer.new) }
    ensures write_failed { (W.seen writer.old).failures < (W.seen writer.new).failures → IsErrOf result ExportFault.Write }
{
    write_header(alloc, header, writer)?;
    let mut count = 0;
    for row in rows {
        count += 1;
        write_row(alloc, count, row, stamps, writer)?;
    }
    Ok(count)
}

/// Writes the line of the header.
fn write_header<W: Sink>(alloc: Global, header: &Header, writer: &mut W) -> Result<(), ExportFault>
    ensures whole { IfOk result (λ _. WritesWhole (W.seen writer.old) (W.seen writer.new) (header_line header.now)) }
    ensures headed { IfOk result (λ _. IsHeader (header_text header.now) header.now) }
    ensures part { IsErrOf result ExportFault.Write → WritesPart (W.seen writer.old) (W.seen writer.new) (header_line header.now) }
    ensures unchanged { IsErrOf result ExportFault.Memory → writer.new ≡ writer.old }
{
    let json = header_json(alloc, header)?;
    let line = with_end(alloc, &json)?;
    write_bytes(writer, &line)?;
    Ok(())
}

/// The header as JSON.
fn header_json(alloc: Global, header: &Header) -> Result<Value, Memory>
    ensures { IfOk result (λ json. IsHeaderJson (view json) header.now) }
{
    let limits = header.limits;
    let mut members = Map::new(alloc);
    put(&mut members, alloc, "events", Value::from(limits.events()))?;
    put(
        &mut members,
        alloc,
        "messages",
        Value::from(limits.messages()),
    )?;
    put(&mut members, alloc, "tasks", Value::from(limits.tasks()))?;
    put(
        &mut members,
        alloc,
        "tenant",
        Value::try_from_str(alloc, as_str(&header.tenant))?,
    )?;
    put(&mut members, alloc, "version", Value::from(VERSION))?;
    Ok(Value::Object(members))
}

/// Writes the line of one row.
fn write_row<T: StampTexts, W: Sink>(
    alloc: Global,
    event: u64,
    row: &Row,
    stamps: &T,
    writer: &mut W,
) -> Result<(), ExportFault>
    requires { (0 < event) × (event ≤ length (T.texts stamps.now)) }
    ensures whole { IfOk result (λ _. WritesWhole (W.seen writer.old) (W.seen writer.new) (listed_line (listed_row event row.now (stamp_at (T.texts stamps.now) event)))) }
    ensures read { IfOk result (λ _. IsReadAgain (listed_row event row.now (stamp_at (T.texts stamps.now) event))) }
    ensures part { IsErrOf result ExportFault.Write → WritesPart (W.seen writer.old) (W.seen writer.new) (listed_line (listed_row event row.now (stamp_at (T.texts stamps.now) event))) }
    ensures unchanged { IsErrOf result ExportFault.Memory → writer.new ≡ writer.old }
{
    let stamp = stamps.text(event)?;
    let line = line_of(alloc, event, row, stamp)?;
    write_bytes(writer, &line)?;
    Ok(())
}

/// The line of a row, with its end.
fn line_of(alloc: Global, event: u64, row: &Row, stamp: Vec<u8>) -> Result<Vec<u8>, Memory>
    requires { IsUtf8 stamp.items }
    ensures exact { IfOk result (λ line. line.items ≡ listed_line (listed_row event row.now stamp.items)) }
    ensures read { IfOk result (λ _. IsReadAgain (listed_row event row.now stamp.items)) }
{
    let Ok(stamp) = String::from_utf8(stamp) else {
        unreachable!();
    };
    let json = json_of(alloc, event, row, stamp)?;
    let line = with_end(alloc, &json)?;
    Ok(line)
}

/// The text of the JSON, with an end of line. The text is read again if the JSON nests no deeper than is read.
fn with_end(alloc: Global, json: &Value) -> Result<Vec<u8>, Memory>
    ensures line { IfOk result (λ line. has_float (view json.now) ≡ false → line.items ≡ compact_text (view json.now) ++ codes "\n") }
    ensures read { IfOk result (λ _. has_float (view json.now) ≡ false → depth (view json.now) ≤ max_depth → IsReadAs (compact_text (view json.now)) (view json.now)) }
{
    let mut line = json.to_vec(alloc)?;
    line.push(b'\n')?;
    Ok(line)
}

/// The row as JSON.
fn json_of(alloc: Global, event: u64, row: &Row, stamp: String) -> Result<Value, Memory>
    ensures { IfOk result (λ json. view json ≡ listed_json (listed_row event row.now (string_bytes stamp))) }
{
    let mut members = Map::new(alloc);
    put(&mut members, alloc, "event", Value::from(event))?;
    put(
        &mut members,
        alloc,
        "kind",
        Value::try_from_str(alloc, row.kind.text())?,
    )?;
    put(
        &mut members,
        alloc,
        "name",
        Value::try_from_str(alloc, name_word(&row.name))?,
    )?;
    put(
        &mut members,
        alloc,
        "preds",
        Value::from(preds_json(alloc, &row.preds)?),
    )?;
    put(&mut members, alloc, "stamp", Value::from(stamp))?;
    put(
        &mut members,
        alloc,
        "task",
        Value::try_from_str(alloc, as_str(&row.task))?,
    )?;
    Ok(Value::Object(members))
}

/// The predecessors as JSON.
fn preds_json(alloc: Global, preds: &Preds) -> Result<Vec<Value>, Memory>
    ensures { IfOk result (λ json. items_view json.items ≡ numbers_json preds.now) }
{
    let mut items = Vec::with_capacity(alloc, 2)?;
    for event in preds.as_slice() {
        items.push(Value::from(*event))?;
    }
    Ok(items)
}

/// The name, or `-` if there is none.
fn name_word(name: &Option<Name>) -> &str
    ensures { result.now ≡ name_text name.now }
{
    match name {
        Some(name) => as_str(name),
        None => "-",
    }
}

/// The name's text.
fn as_str(name: &Name) -> &str
    ensures text { result.now ≡ name.now }
    ensures name { IsTrue (is_name name.now) }
{
    let Ok(text) = str::from_utf8(name.as_bytes()) else {
        unreachable!();
    };
    text
}
