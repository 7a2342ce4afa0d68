//! Texts that are shown.
ghost use Rattle.std.specs.Prelude.{◌≡◌, ◌<◌, ◌≤◌, OnOk, IfErr, IsErr};
ghost use Rattle.line_protocol.specs.Writing.{EndsInFault};
ghost use Rattle.collector.specs.Showing.{Shows, ShowsAll};

use crate::fault::Fault;
use line_protocol::{Sink, flush, write_bytes};

/// Writes a text, and hands it on.
pub(crate) fn show<W: Sink>(writer: &mut W, text: &str) -> Result<(), Fault>
    ensures shown { Shows (W.seen writer.old) (W.seen writer.new) text.now }
    ensures ok { OnOk result (ShowsAll (W.seen writer.old) (W.seen writer.new) text.now) }
    ensures err { IfErr result (λ fault. (fault ≡ Fault.Write) × EndsInFault (W.seen writer.old) (W.seen writer.new)) }
    ensures more { (W.seen writer.old).interruptions ≤ (W.seen writer.new).interruptions }
    ensures failed { (W.seen writer.old).failures < (W.seen writer.new).failures → IsErr result }
{
    write_bytes(writer, text.as_bytes()).map_err(|_| Fault::Write)?;
    flush(writer).map_err(|_| Fault::Write)
}
