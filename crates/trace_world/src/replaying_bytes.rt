//! Replays of bytes in memory.
ghost use Rattle.std.specs.Prelude.{IfOk};
ghost use Rattle.trace_world.specs.Replayed.{AnswersAll};

use crate::{ReplayFault, World, replay};
use line_protocol::{FromReader, IntoWriter};
use std::alloc::Global;
use std::sync::Wait;

/// Replays the lines of these bytes, and gives what is written for them. Returns `Write` if it runs out of memory for
/// that, and `Memory` if it does so before.
pub fn replay_bytes<T: Wait>(
    rt: &T,
    alloc: Global,
    world: &mut World,
    input: &[u8],
) -> Result<Vec<u8>, ReplayFault>
    ensures { IfOk result (λ output. AnswersAll world.old input.now output.items world.new) }
{
    let mut reader = FromReader::new(input);
    let mut writer = IntoWriter::new(Vec::new(alloc));
    replay(rt, alloc, world, &mut reader, &mut writer)?;
    Ok(writer.into_inner())
}
