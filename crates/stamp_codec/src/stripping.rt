//! Looking for the text of a stamp at the front of bytes.
ghost use Rattle.std.specs.Prelude.{◌≡◌, ◌≢◌, ℕ, List, ◌++◌, MatchOption};
ghost use Rattle.trace_types.specs.text.StampText.{stamp_text as text_of_parts};

use crate::spelling::{TakeBytes, spell_parts};
use event_tree::EvTree;
use id_tree::IdTree;

/// What stands behind the text of the stamp that has this id and this tree, as [`crate::write_parts`] gives it. It is
/// `None` exactly if the bytes do not begin with that text. It takes no memory.
pub fn strip_parts<'a>(text: &'a [u8], id: &IdTree, tree: &EvTree) -> Option<&'a [u8]>
    ensures { MatchOption result ((rest : List ℕ) → text.now ≢ text_of_parts id.now tree.now ++ rest)
        (λ rest. text.now ≡ text_of_parts id.now tree.now ++ rest.now) }
{
    let mut front = Front { rest: text };
    spell_parts(&mut front, id, tree)?;
    Some(front.rest)
}

/// Bytes that are compared with what is spelled, from the front on.
#[derive(Drop)]
struct Front<'a> {
    /// What stands behind the bytes that were the same.
    rest: &'a [u8],
}

impl<'a> TakeBytes for Front<'a> {
    ghost use Rattle.std.proofs.Common.{ap, append_assoc, sym, ◌∙◌};
    ghost use Rattle.std.proofs.lemmas.List.{append_cancel_left};

    ghost takes = { λ before after bytes. before.rest.now ≡ bytes ++ after.rest.now };

    ghost refuses = { λ before after bytes. (behind : List ℕ) → before.rest.now ≢ bytes ++ behind };

    #[inline(always)]
    fn take_one(&mut self, byte: u8) -> Option<()> {
        match self.rest {
            [first, after @ ..] if *first == byte => {
                self.rest = after;
                Some(())
            }
            _ => None,
        }
    }

    #[inline(always)]
    fn take_two(&mut self, byte: u8, next: u8) -> Option<()> {
        match self.rest {
            [first, second, after @ ..] if *first == byte && *second == next => {
                self.rest = after;
                Some(())
            }
            _ => None,
        }
    }

    fn take_all(&mut self, bytes: &[u8]) -> Option<()> {
        match self.rest.strip_prefix(bytes) {
            Some(after) => {
                self.rest = after;
                Some(())
            }
            None => None,
        }
    }

    ghost takes_both = { λ before between after first others taken more.
        taken ∙ ap (λ bytes. first ++ bytes) more ∙ sym (append_assoc first others after.rest.now) };

    ghost refuses_front = { λ before after first others lacks behind whole.
        lacks (others ++ behind) (whole ∙ append_assoc first others behind) };

    ghost refuses_others = { λ before between after first others taken lacks behind whole.
        lacks behind (append_cancel_left first between.rest.now (others ++ behind) (sym taken ∙ whole ∙ append_assoc first others behind)) };
}
