//! The requests that make the rows of an export.
ghost use Rattle.std.specs.Prelude.{◌≡◌, ◌<◌, ◌++◌, All, Some, IfErr, IfOk, IsErrOf, OnOk, codes};
ghost use Rattle.line_protocol.specs.Writing.{EndsInFault, WritesPart, WritesWhole};
ghost use Rattle.trace_export.specs.Export.{BreaksLines, WritesLines};
ghost use Rattle.trace_export.specs.Listing.{FitsKind};
ghost use Rattle.trace_export.specs.Loading.{request_for, request_line, request_lines};

use crate::ExportFault;
use line_protocol::{Sink, write_bytes};
use std::alloc::{AllocError, Global};
use trace_types::{Kind, Memory, Name, Request, Row};

/// Room for the longest line of a request.
const LINE_BYTES: usize = 128;

/// The request for a report of this kind, by this task, with this name.
pub(crate) fn request_for(kind: Kind, task: Name, name: Option<Name>) -> Request
    ensures { result ≡ request_for kind task name }
{
    match (kind, name) {
        (Kind::Spawn, Some(child)) => Request::Spawn(task, child),
        (Kind::Send, Some(message)) => Request::Send(task, message),
        (Kind::Recv, Some(message)) => Request::Recv(task, message),
        (Kind::Join, Some(child)) => Request::Join(task, child),
        (Kind::End, _) => Request::End(task),
        _ => Request::Local(task),
    }
}

/// Writes the requests of these rows to this tenant, a line for each, and flushes nothing.
pub(crate) fn write_requests<W: Sink>(
    alloc: Global,
    tenant: &Name,
    rows: &[Row],
    writer: &mut W,
) -> Result<(), ExportFault>
    requires { All (λ row. FitsKind row.kind row.name) rows.now }
    ensures whole { OnOk result (WritesLines (W.seen writer.old) (W.seen writer.new) (request_lines tenant.now rows.now)) }
    ensures fault { IfErr result (λ fault. BreaksLines fault (W.seen writer.old) (W.seen writer.new) (request_lines tenant.now rows.now)) }
    ensures write { IsErrOf result ExportFault.Write → EndsInFault (W.seen writer.old) (W.seen writer.new) }
    ensures write_failed { (W.seen writer.old).failures < (W.seen writer.new).failures → IsErrOf result ExportFault.Write }
{
    for row in rows {
        write_request(alloc, tenant, row, writer)?;
    }
    Ok(())
}

/// Writes the line of one request.
fn write_request<W: Sink>(
    alloc: Global,
    tenant: &Name,
    row: &Row,
    writer: &mut W,
) -> Result<(), ExportFault>
    requires { FitsKind row.now.kind row.now.name }
    ensures whole { IfOk result (λ _. WritesWhole (W.seen writer.old) (W.seen writer.new) (request_line tenant.now row.now)) }
    ensures part { IsErrOf result ExportFault.Write → WritesPart (W.seen writer.old) (W.seen writer.new) (request_line tenant.now row.now) }
    ensures unchanged { IsErrOf result ExportFault.Memory → writer.new ≡ writer.old }
{
    let line = line_of(alloc, tenant, row)?;
    write_bytes(writer, &line)?;
    Ok(())
}

/// The line of a request, with its end.
fn line_of(alloc: Global, tenant: &Name, row: &Row) -> Result<Vec<u8>, Memory>
    requires { FitsKind row.now.kind row.now.name }
    ensures { IfOk result (λ line. line.items ≡ request_line tenant.now row.now) }
{
    let mut line = Vec::with_capacity(alloc, LINE_BYTES)?;
    line.extend_from_slice(tenant.as_bytes())?;
    add_word(&mut line, row.kind.text().as_bytes())?;
    add_word(&mut line, row.task.as_bytes())?;
    if let Some(name) = &row.name {
        add_word(&mut line, name.as_bytes())?;
    }
    line.push(b'\n')?;
    Ok(line)
}

/// Adds a blank and the word.
#[inline(always)]
fn add_word(line: &mut Vec<u8>, word: &[u8]) -> Result<(), AllocError>
    ensures { OnOk result (line.new.items ≡ line.old.items ++ codes " " ++ word.now) }
{
    line.push(b' ')?;
    line.extend_from_slice(word)
}
