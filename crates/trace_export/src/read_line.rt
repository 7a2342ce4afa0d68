//! What a line of an export is.
ghost use Rattle.std.specs.Prelude.{◌≤◌, List, ℕ, IfOk, MatchOption, length};
ghost use Rattle.serde_json.specs.Data.{Data};
ghost use Rattle.serde_json.specs.View.{view};
ghost use Rattle.trace_export.specs.Listing.{IsReadAs};
ghost use Rattle.trace_export.specs.ReadLine.{IsToldAs};

use crate::event_line::{EventLine, read_listed};
use crate::header::header_of;
use crate::{Header, Reason};
use serde_json::{Category, Value};
use std::alloc::Global;
use trace_types::Memory;

/// A line that is right by itself.
#[derive(Drop)]
pub enum ReadLine<'a> {
    /// The first line, which is a header.
    Header(Header),
    /// The line of an event.
    Event(EventLine<'a>),
}

/// The JSON that the line is; `None` exactly where it is none.
pub(crate) fn read_json(alloc: Global, line: &[u8]) -> Result<Option<Value>, Memory>
    ensures { IfOk result (λ json. MatchOption json ((other : Data) → ¬ IsReadAs line.now other) (λ json. IsReadAs line.now (view json))) }
{
    let Ok(text) = str::from_utf8(line) else {
        return Ok(None);
    };
    match Value::from_str(alloc, text) {
        Ok(json) => Ok(Some(json)),
        Err(error) if error.classify() == Category::Memory => Err(Memory),
        Err(_) => Ok(None),
    }
}

/// What a line is that has this JSON, or why it is faulty. Only the first line may be a header.
pub(crate) fn line_of(
    alloc: Global,
    json: &Option<Value>,
    is_first: bool,
) -> Result<ReadLine<'_>, Reason>
    ensures { (line : List ℕ) → length line ≤ 65536
        → MatchOption json.now ((other : Data) → ¬ IsReadAs line other) (λ json. IsReadAs line (view json))
        → IsToldAs is_first line result }
{
    let Some(json) = json else {
        return Err(Reason::NoJson);
    };
    if is_first {
        if let Some(header) = header_of(json) {
            return Ok(ReadLine::Header(header));
        }
    }
    match read_listed(alloc, json) {
        Some(listed) => Ok(ReadLine::Event(listed)),
        None => Err(Reason::NoEvent),
    }
}
