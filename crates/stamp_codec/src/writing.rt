//! Writing of stamps.
ghost use Rattle.std.specs.Prelude.{◌≡◌, ◌++◌, IfOk};
ghost use Rattle.trace_types.specs.text.StampText.{stamp_text as text_of_parts};
ghost use Rattle.stamp_codec.specs.StampText.{stamp_as_text};

use crate::Stamp;
use crate::spelling::{TakeBytes, spell_parts};
use event_tree::EvTree;
use id_tree::IdTree;
use std::alloc::Global;
use trace_types::Memory;

/// The text of the stamp, also if it is too large to be read again. The form of the stamp is that of Almeida, Baquero and
/// Fonte (2008). Its spelling is this crate's.
///
/// Returns `Memory` if it runs out of memory for the text.
pub fn write_stamp(alloc: Global, stamp: &Stamp) -> Result<Vec<u8>, Memory>
    ensures { IfOk result (λ text. text.items ≡ stamp_as_text stamp.now) }
{
    write_parts(alloc, &stamp.id, &stamp.tree)
}

/// The text of the stamp that has this id and this tree, as [`write_stamp`] gives it.
///
/// Returns `Memory` if it runs out of memory for the text.
pub fn write_parts(alloc: Global, id: &IdTree, tree: &EvTree) -> Result<Vec<u8>, Memory>
    ensures { IfOk result (λ text. text.items ≡ text_of_parts id.now tree.now) }
{
    let mut text = Vec::new(alloc);
    match spell_parts(&mut text, id, tree) {
        Some(()) => Ok(text),
        None => Err(Memory),
    }
}

impl TakeBytes for Vec<u8> {
    ghost use Rattle.std.proofs.Common.{ap, append_assoc, ◌∙◌};

    ghost takes = { λ before after bytes. after.items ≡ before.items ++ bytes };

    ghost refuses = { λ before after bytes. Unit {0} };

    #[inline(always)]
    fn take_one(&mut self, byte: u8) -> Option<()> {
        self.push(byte).ok()
    }

    #[inline(always)]
    fn take_two(&mut self, byte: u8, next: u8) -> Option<()> {
        self.reserve(2).ok()?;
        self.push_reserved(byte);
        self.push_reserved(next);
        Some(())
    }

    fn take_all(&mut self, bytes: &[u8]) -> Option<()> {
        self.extend_from_slice(bytes).ok()
    }

    ghost takes_both = { λ before between after first others taken more.
        more ∙ ap (λ bytes. bytes ++ others) taken ∙ append_assoc before.items first others };

    ghost refuses_front = { λ before after first others refused. tt };

    ghost refuses_others = { λ before between after first others taken refused. tt };
}
