//! The output of a session. All that a session writes is written here.
ghost use Rattle.std.specs.Prelude.{◌≡◌, IfErr, IfOk, MatchOption};
ghost use Rattle.trace_types.specs.text.Name.{Text};
ghost use Rattle.trace_types.specs.text.StampText.{stamp_text};
ghost use Rattle.line_protocol.specs.Writing.{Writes};
ghost use Rattle.trace_session.specs.Conversations.{TurnsAway};
ghost use Rattle.trace_session.specs.Outputs.{GoesThroughGate};
ghost use Rattle.trace_session.specs.Sessions.{Finishes};
ghost use Rattle.trace_session.specs.Written.{PutsOut, StopsAt, reply_line};

use crate::{Gate, SessionEnd, SessionFault};
use event_tree::EvTree;
use id_tree::IdTree;
use line_protocol::{Sink, WriteFault, flush, write_reply};
use stamp_reply::write_stamp_reply;
use std::sync::Wait;
use trace_types::{Code, Reply};

/// The writer of one session and the gate before it, which knows the session by its number. The gate waits on the runtime.
#[derive(Drop)]
pub(crate) struct Output<'a, W, T, G> {
    pub(crate) writer: &'a mut W,
    pub(crate) rt: &'a T,
    pub(crate) gate: &'a G,
    pub(crate) number: u64,
}

/// The leave to write one line. Only asking a gate gives one, and the line spends it.
#[derive(Drop)]
struct Leave(());

impl<'a, W: Sink, T: Wait, G: Gate> Output<'a, W, T, G> {
    /// Asks the gate for leave to write one line.
    fn ask_leave(&self) -> Option<Leave>
        ensures { MatchOption result (G.holds_back self.now.gate.now self.now.number) (λ _. G.lets_out self.now.gate.now self.now.number) }
    {
        let may = self.gate.before_reply(self.rt, self.number);
        may.then_some(Leave(()))
    }

    /// The leave to write one line, if the gate gives it. Else it hands on what was written before.
    fn leave(&mut self) -> Result<Leave, SessionFault>
        ensures given { IfOk result (λ _. (self.new ≡ self.old) × G.lets_out self.old.gate.now self.old.number) }
        ensures stops { IfErr result (λ fault. (text : Text) → StopsAt fault (W.seen self.old.writer.now) (W.seen self.new.writer.now) text) }
        ensures gate { GoesThroughGate W.seen G.lets_out G.holds_back self.old self.new result }
    {
        let Some(leave) = self.ask_leave() else {
            flush(self.writer)?;
            return Err(SessionFault::Gate);
        };
        Ok(leave)
    }

    /// Writes the reply if the gate lets it out. Else it hands on what was written before.
    pub(crate) fn put_out(&mut self, reply: &Reply) -> Result<(), SessionFault>
        ensures put_out { PutsOut (W.seen self.old.writer.now) (W.seen self.new.writer.now) result (reply_line reply.now) }
        ensures gate { GoesThroughGate W.seen G.lets_out G.holds_back self.old self.new result }
    {
        self.leave()?.write(self.writer, reply)?;
        Ok(())
    }

    /// Writes the reply that gives the stamp with this id and this tree, as [`Output::put_out`] writes a reply. It asks for
    /// no memory.
    pub(crate) fn put_out_stamp(&mut self, id: &IdTree, tree: &EvTree) -> Result<(), SessionFault>
        ensures put_out { PutsOut (W.seen self.old.writer.now) (W.seen self.new.writer.now) result (reply_line (Reply.Stamp (stamp_text id.now tree.now))) }
        ensures gate { GoesThroughGate W.seen G.lets_out G.holds_back self.old self.new result }
    {
        self.leave()?.write_stamp(self.writer, id, tree)?;
        Ok(())
    }

    /// Writes that the session is refused with this code, and ends it.
    pub(crate) fn refuse(&mut self, code: Code) -> Result<SessionEnd, SessionFault>
        ensures refuses { TurnsAway code (W.seen self.old.writer.now) (W.seen self.new.writer.now) result }
        ensures gate { GoesThroughGate W.seen G.lets_out G.holds_back self.old self.new result }
    {
        self.put_out(&Reply::Refused(code))?;
        self.finish(SessionEnd::Refused(code))
    }

    /// Ends the session so, once all is handed on.
    pub(crate) fn finish(&mut self, end: SessionEnd) -> Result<SessionEnd, SessionFault>
        ensures finishes { Finishes end (W.seen self.old.writer.now) (W.seen self.new.writer.now) result }
        ensures gate { GoesThroughGate W.seen G.lets_out G.holds_back self.old self.new result }
    {
        flush(self.writer)?;
        Ok(end)
    }
}

impl Leave {
    /// Writes the reply as the one line for which this is the leave.
    fn write<W: Sink>(self, writer: &mut W, reply: &Reply) -> Result<(), WriteFault>
        ensures { Writes (W.seen writer.old) (W.seen writer.new) result (reply_line reply.now) }
    {
        write_reply(writer, reply)
    }

    /// Writes the reply that gives this stamp as the one line for which this is the leave.
    fn write_stamp<W: Sink>(
        self,
        writer: &mut W,
        id: &IdTree,
        tree: &EvTree,
    ) -> Result<(), WriteFault>
        ensures { Writes (W.seen writer.old) (W.seen writer.new) result (reply_line (Reply.Stamp (stamp_text id.now tree.now))) }
    {
        write_stamp_reply(writer, id, tree)
    }
}
