//! How deep the parentheses of a stamp's text are nested.
ghost use Rattle.std.specs.Prelude.{◌≡◌, ◌↔◌, ◌<◌, IsTrue};
ghost use Rattle.trace_types.specs.clock.Id.{Id};
ghost use Rattle.stamp_codec.specs.StampText.{Written, SpellsStamp};
ghost use Rattle.stamp_codec.specs.Bounds.{nesting_of};
ghost use Rattle.stamp_codec.specs.Faults.{most_nested};

use crate::bounds::MOST_NESTED;

/// Whether the id or the tree of a stamp's text is nested too deep. It takes no memory, and looks at no byte of a text that
/// is too short for that.
pub fn is_too_deep(text: &[u8]) -> bool
    ensures { (id : Id) (tree : Written) → SpellsStamp text.now id tree → IsTrue result ↔ (most_nested < nesting_of id tree) }
{
    // Each level takes four bytes at least.
    if text.len() <= 4 * MOST_NESTED {
        return false;
    }
    depth_of(text) > MOST_NESTED
}

/// The most parentheses that are open at once in the text of a stamp. It goes over the bytes once.
fn depth_of(text: &[u8]) -> usize
    ensures { (id : Id) (tree : Written) → SpellsStamp text.now id tree → result ≡ nesting_of id tree }
{
    let mut rest = text;
    let mut nested = 0usize;
    let mut deepest = 0usize;
    while let [byte, after @ ..] = rest {
        match byte {
            b'(' => {
                nested += 1;
                deepest = deepest.max(nested);
            }
            b')' => nested = nested.saturating_sub(1),
            _ => {}
        }
        rest = after;
    }
    deepest
}
