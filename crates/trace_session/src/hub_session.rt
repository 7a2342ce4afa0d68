//! Sessions on a hub.
ghost use Rattle.std.specs.Prelude.{◌≡◌, ◌⊎◌, None, IsErrOf, Option};
ghost use Rattle.line_protocol.specs.Held.{Held, fresh_held};
ghost use Rattle.line_protocol.specs.LineReading.{Reads};
ghost use Rattle.line_protocol.specs.Source.{StopsAtEnd};
ghost use Rattle.trace_session.specs.Conversations.{Converses, Lends, LendsTo, Opens};
ghost use Rattle.trace_session.specs.Faults.{failed_reads_in};
ghost use Rattle.trace_session.specs.Goings.{GoesOn};
ghost use Rattle.trace_session.specs.Openings.{opening_at, opening_of};
ghost use Rattle.trace_session.specs.State.{state};
ghost use Rattle.trace_session.specs.Witnesses.{Witness as Seen};

use crate::desk_or_view::Lent;
use crate::output::Output;
use crate::tenant::Tenant;
use crate::{Gate, Hub, SessionEnd, SessionFault, Witness};
use line_protocol::{Buffer, Line, LineReader, Sink, Source};
use std::alloc::Global;
use std::sync::Wait;
use tenant_desk::{Desk, View};
use trace_types::{Code, Name};

/// What a session asks for.
#[derive(Clone, Copy, Debug, PartialEq, Eq)]
pub(crate) enum Lending {
    /// The tenant's desk, to report to.
    Desk,
    /// A view of the tenant, to ask.
    View,
}

/// What the first line of a session asks for, and of which tenant.
#[derive(Clone, Copy)]
pub(crate) struct Opening {
    lending: Lending,
    tenant: Name,
}

/// What a session is held over.
#[derive(Drop)]
pub struct Connection<A, B> {
    /// What the session reads.
    pub reader: A,
    /// What it writes to.
    pub writer: B,
    /// The number of the session, by which its gate knows it.
    pub number: u64,
}

/// Holds a session over the connection on the hub.
///
/// Its first line is `report NAME` or `view NAME`, and gets no reply if the tenant's desk or a view can be lent. Else the
/// session writes one line that says why, and ends with `Refused`: 400 for the line, 420 for the tenant, 421 for the
/// desk, or 422 for the views. From the second line on it is [`crate::report_lines`] or [`crate::view_lines`]. What was
/// lent rests in the hub again afterwards, whatever the end. Returns `Memory` if it runs out of memory before anything is
/// read.
///
/// [`witnessed_session`] does the same, and shows that the rows were of the log of that tenant.
pub fn session<T: Wait, R: Source, W: Sink, G: Gate>(
    rt: &T,
    alloc: Global,
    hub: &Hub,
    connection: &mut Connection<R, W>,
    gate: &G,
) -> Result<SessionEnd, SessionFault>
    ensures conversed { (IsErrOf result SessionFault.Memory × (connection.new ≡ connection.old))
        ⊎ ((held : Held) × (witness : Option Seen) × Converses hub.now witness (state (R.seen connection.old.reader) fresh_held (W.seen connection.old.writer)) (state (R.seen connection.new.reader) held (W.seen connection.new.writer)) result
        × Reads (R.seen connection.old.reader) (R.seen connection.new.reader) fresh_held held (failed_reads_in result)) }
    ensures ends { StopsAtEnd (R.seen connection.old.reader) (R.seen connection.new.reader) }
    ensures let_out { ((W.seen connection.new.writer).bytes ≡ (W.seen connection.old.writer).bytes) ⊎ G.lets_out gate.now connection.old.number }
    ensures gate { IsErrOf result SessionFault.Gate → G.holds_back gate.now connection.old.number }
    ensures number { connection.new.number ≡ connection.old.number }
{
    let mut witness = None;
    witnessed_session(rt, alloc, hub, connection, gate, &mut witness)
}

/// Holds a session as [`session`] does, and leaves a witness if a desk or a view was lent, else `None`.
///
/// The witness is of the log of the tenant that the first line named. The replies are those from the rows with which it
/// says that the session began. The rows of two witnesses of one log can be compared by [`tenant_desk::Told::covers`].
pub fn witnessed_session<T: Wait, R: Source, W: Sink, G: Gate>(
    rt: &T,
    alloc: Global,
    hub: &Hub,
    connection: &mut Connection<R, W>,
    gate: &G,
    witness: &mut Option<Witness>,
) -> Result<SessionEnd, SessionFault>
    ensures conversed { (IsErrOf result SessionFault.Memory × (connection.new ≡ connection.old) × (witness.new ≡ None))
        ⊎ ((held : Held) × Converses hub.now witness.new (state (R.seen connection.old.reader) fresh_held (W.seen connection.old.writer)) (state (R.seen connection.new.reader) held (W.seen connection.new.writer)) result
        × Reads (R.seen connection.old.reader) (R.seen connection.new.reader) fresh_held held (failed_reads_in result)) }
    ensures ends { StopsAtEnd (R.seen connection.old.reader) (R.seen connection.new.reader) }
    ensures let_out { ((W.seen connection.new.writer).bytes ≡ (W.seen connection.old.writer).bytes) ⊎ G.lets_out gate.now connection.old.number }
    ensures gate { IsErrOf result SessionFault.Gate → G.holds_back gate.now connection.old.number }
    ensures number { connection.new.number ≡ connection.old.number }
{
    *witness = None;
    let buffer = Buffer::new(alloc)?;
    let mut lines = LineReader::over(&mut connection.reader, buffer);
    let mut output = Output {
        writer: &mut connection.writer,
        rt,
        gate,
        number: connection.number,
    };
    output.converse(hub, &mut lines, witness)
}

/// What is opened if this was found, or `None` at the end of the input. `line` is the line if it is a whole one.
fn opening_at(found: Line, line: &[u8]) -> Option<Option<Opening>>
    ensures { result ≡ opening_at found line.now }
{
    match found {
        Line::End => None,
        Line::TooLong => Some(None),
        Line::Whole => Some(read_opening(line)),
    }
}

/// What the line opens.
fn read_opening(line: &[u8]) -> Option<Opening>
    ensures { result ≡ opening_of line.now }
{
    let (lending, name) = match line.strip_prefix(b"report ".as_slice()) {
        Some(name) => (Lending::Desk, name),
        None => (Lending::View, line.strip_prefix(b"view ".as_slice())?),
    };
    let tenant = Name::read(name)?;
    Some(Opening { lending, tenant })
}

impl<'a, W: Sink, T: Wait, G: Gate> Output<'a, W, T, G> {
    /// Holds the session whose lines these are.
    fn converse<R: Source>(
        &mut self,
        hub: &Hub,
        lines: &mut LineReader<'_, R>,
        witness: &mut Option<Witness>,
    ) -> Result<SessionEnd, SessionFault>
        requires fault { lines.old.fault ≡ None }
        requires witness { witness.old ≡ None }
        ensures { GoesOn R.seen W.seen G.lets_out G.holds_back (Converses hub.now witness.new) lines.old lines.new self.old self.new result }
    {
        let found = lines.next()?;
        let Some(opening) = opening_at(found, lines.line()) else {
            return Ok(SessionEnd::EndOfInput);
        };
        self.open(hub, opening, lines, witness)
    }

    /// Holds the session that was opened in this way.
    fn open<R: Source>(
        &mut self,
        hub: &Hub,
        opening: Option<Opening>,
        lines: &mut LineReader<'_, R>,
        witness: &mut Option<Witness>,
    ) -> Result<SessionEnd, SessionFault>
        requires fault { lines.old.fault ≡ None }
        requires witness { witness.old ≡ None }
        ensures { GoesOn R.seen W.seen G.lets_out G.holds_back (Opens hub.now opening witness.new) lines.old lines.new self.old self.new result }
    {
        let Some(opening) = opening else {
            return self.refuse(Code::Line);
        };
        match hub.find(&opening.tenant) {
            Some(tenant) => self.borrow(tenant, &opening, lines, witness),
            None => self.refuse(Code::NoTenant),
        }
    }

    /// Holds a session with what is asked for of this tenant.
    fn borrow<R: Source>(
        &mut self,
        tenant: &Tenant,
        opening: &Opening,
        lines: &mut LineReader<'_, R>,
        witness: &mut Option<Witness>,
    ) -> Result<SessionEnd, SessionFault>
        requires fault { lines.old.fault ≡ None }
        requires witness { witness.old ≡ None }
        ensures { GoesOn R.seen W.seen G.lets_out G.holds_back (LendsTo opening.now.lending tenant.now witness.new) lines.old lines.new self.old self.new result }
    {
        match opening.lending {
            Lending::Desk => self.hold::<Desk, R>(tenant, lines, witness),
            Lending::View => self.hold::<View, R>(tenant, lines, witness),
        }
    }

    /// Holds a session with what this tenant lends.
    fn hold<L: Lent, R: Source>(
        &mut self,
        tenant: &Tenant,
        lines: &mut LineReader<'_, R>,
        witness: &mut Option<Witness>,
    ) -> Result<SessionEnd, SessionFault>
        requires fault { lines.old.fault ≡ None }
        requires witness { witness.old ≡ None }
        ensures { GoesOn R.seen W.seen G.lets_out G.holds_back (Lends L.is_sound L.tenant_of L.log_of L.does L.NONE_LEFT tenant.now witness.new) lines.old lines.new self.old self.new result }
    {
        let Some(mut lent) = tenant.lend::<L, T>(self.rt) else {
            return self.refuse(L::NONE_LEFT);
        };
        let began = lent.tell();
        let result = self.answer_lines(&mut lent, lines);
        let ended = tenant.take_back(self.rt, lent);
        *witness = Some(Witness { began, ended });
        result
    }
}
