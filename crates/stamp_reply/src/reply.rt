//! Replies that give a stamp, which is spelled into what they are written to.
ghost use Rattle.std.specs.Prelude.{◌≡◌, [], ◌++◌, IfSome, MatchOption, codes};
ghost use Rattle.trace_types.specs.text.StampText.{stamp_text as text_of_parts};
ghost use Rattle.trace_types.specs.text.Text.{reply_text};
ghost use Rattle.line_protocol.specs.Patience.{waits_since_bytes};
ghost use Rattle.line_protocol.specs.Writing.{Writes, WritesBoth};
ghost use Rattle.stamp_reply.specs.Chunks.{GathersOn, StopsGathering};

use crate::chunk_writer::ChunkWriter;
use event_tree::EvTree;
use id_tree::IdTree;
use line_protocol::{Sink, WriteFault, write_prefix};
use stamp_codec::{TakeBytes, spell_parts};
use trace_types::{Name, Reply};

/// Writes the answer that gives the stamp with this id and this tree, as `write_answer` of `line_protocol` writes its
/// text: the addressee and a blank, and then the reply and an end of line. It asks for no memory.
///
/// Returns `WriteFault` at the first failure, or at the 1048576th interruption of one of these two parts.
pub fn write_stamp_answer<W: Sink>(
    writer: &mut W,
    addressee: &Name,
    id: &IdTree,
    tree: &EvTree,
) -> Result<(), WriteFault>
    ensures { WritesBoth (W.seen writer.old) (W.seen writer.new) result (addressee.now ++ codes " ") (reply_text (Reply.Stamp (text_of_parts id.now tree.now)) ++ codes "\n") }
{
    write_prefix(writer, addressee.as_bytes())?;
    write_stamp_reply(writer, id, tree)
}

/// Writes the reply that gives the stamp with this id and this tree, and an end of line, as `write_reply` of
/// `line_protocol` writes its text. It asks for no memory.
///
/// A line of at most 1024 bytes is one write, and a longer one is written in chunks of that size. Returns `WriteFault` at
/// the first failure, or at the 1048576th interruption.
#[inline(never)]
pub fn write_stamp_reply<W: Sink>(
    writer: &mut W,
    id: &IdTree,
    tree: &EvTree,
) -> Result<(), WriteFault>
    ensures { Writes (W.seen writer.old) (W.seen writer.new) result (reply_text (Reply.Stamp (text_of_parts id.now tree.now)) ++ codes "\n") }
{
    let mut line = ChunkWriter::new(writer);
    match spell_reply(&mut line, id, tree) {
        Some(()) => Ok(()),
        None => Err(WriteFault),
    }
}

/// Spells the reply that gives the stamp, and an end of line.
fn spell_reply<W: Sink>(line: &mut ChunkWriter<'_, W>, id: &IdTree, tree: &EvTree) -> Option<()>
    ensures same_writer { line.new.writer.ghost_name ≡ line.old.writer.ghost_name }
    ensures gathers { MatchOption result
        (StopsGathering W.seen line.old line.new (reply_text (Reply.Stamp (text_of_parts id.now tree.now)) ++ codes "\n"))
        (λ _. GathersOn W.seen line.old line.new (reply_text (Reply.Stamp (text_of_parts id.now tree.now)) ++ codes "\n")) }
    ensures all { IfSome result (λ _. line.new.chunk ≡ []) }
    ensures no_wait { IfSome result (λ _. waits_since_bytes (W.seen line.new.writer.now).calls ≡ 0) }
{
    line.take_all(b"200 ")?;
    spell_parts(line, id, tree)?;
    line.end_with(b'\n')
}
