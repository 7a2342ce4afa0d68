//! How a stamp is spelled, for whatever takes the bytes.
ghost use Rattle.std.specs.Prelude.{ℕ, List, [], ◌∷◌, ◌++◌, decimal, MatchOption};
ghost use Rattle.trace_types.specs.text.StampText.{stamp_text as text_of_parts};
ghost use Rattle.trace_types.specs.clock.Id.{Pair};
ghost use Rattle.trace_types.specs.clock.EventTree.{Node};
ghost use Rattle.stamp_codec.specs.StampText.{id_text, tree_text};

use event_tree::{EvTree, Parts as TreeParts};
use id_tree::{IdTree, Parts as IdParts};
use itoa::Buffer;

/// What takes the bytes of a text one after another, as a buffer that grows. A contract sees each value as what it has
/// taken so far.
///
/// Each call returns `None` if the bytes were not all taken. A taker keeps the reason itself.
pub trait TakeBytes {
    /// These bytes were taken, and it went from the first value to the second.
    ghost takes: { Self → Self → List ℕ → Type 0 };

    /// These bytes were not all taken, and it went from the first value to the second.
    ghost refuses: { Self → Self → List ℕ → Type 0 };

    /// Takes one byte.
    fn take_one(&mut self, byte: u8) -> Option<()>
        ensures { MatchOption result (refuses self.old self.new (byte ∷ [])) (λ _. takes self.old self.new (byte ∷ [])) };

    /// Takes two bytes.
    fn take_two(&mut self, byte: u8, next: u8) -> Option<()>
        ensures { MatchOption result (refuses self.old self.new (byte ∷ (next ∷ []))) (λ _. takes self.old self.new (byte ∷ (next ∷ []))) };

    /// Takes all of these bytes.
    fn take_all(&mut self, bytes: &[u8]) -> Option<()>
        ensures { MatchOption result (refuses self.old self.new bytes.now) (λ _. takes self.old self.new bytes.now) };

    /// What takes a text and then another has taken both.
    ghost takes_both: { (before between after : Self) (first others : List ℕ)
        → takes before between first → takes between after others → takes before after (first ++ others) };

    /// What refuses the front of a text refuses the text.
    ghost refuses_front: { (before after : Self) (first others : List ℕ)
        → refuses before after first → refuses before after (first ++ others) };

    /// What takes the front of a text and refuses the others refuses the text.
    ghost refuses_others: { (before between after : Self) (first others : List ℕ)
        → takes before between first → refuses between after others → refuses before after (first ++ others) };
}

/// Hands over the text of the stamp that has this id and this tree, as [`crate::write_parts`] gives it. It asks for no
/// memory. It stops at the first bytes that are not taken, and returns `None` then.
pub fn spell_parts<T: TakeBytes>(taker: &mut T, id: &IdTree, tree: &EvTree) -> Option<()>
    ensures { MatchOption result (T.refuses taker.old taker.new (text_of_parts id.now tree.now)) (λ _. T.takes taker.old taker.new (text_of_parts id.now tree.now)) }
{
    taker.take_one(b'[')?;
    spell_id(taker, id, b';')?;
    spell_tree(taker, tree, b']')
}

/// Spells the id and this byte behind it. It stands in [`spell_pair`] twice, so that no call is made for a leaf.
#[cycle(spelled_ids)]
#[inline(always)]
fn spell_id<T: TakeBytes>(taker: &mut T, id: &IdTree, end: u8) -> Option<()>
    ensures { MatchOption result (T.refuses taker.old taker.new (id_text id.now ++ end ∷ [])) (λ _. T.takes taker.old taker.new (id_text id.now ++ end ∷ [])) }
{
    match id.parts() {
        IdParts::Zero => taker.take_two(b'0', end),
        IdParts::One => taker.take_two(b'1', end),
        IdParts::Pair(left, right) => {
            spell_pair(taker, left, right)?;
            taker.take_one(end)
        }
    }
}

/// Spells the tree and this byte behind it. It stands in [`spell_node`] twice, so that no call is made for a leaf.
#[cycle(spelled_trees)]
#[inline(always)]
fn spell_tree<T: TakeBytes>(taker: &mut T, tree: &EvTree, end: u8) -> Option<()>
    ensures { MatchOption result (T.refuses taker.old taker.new (tree_text tree.now ++ end ∷ [])) (λ _. T.takes taker.old taker.new (tree_text tree.now ++ end ∷ [])) }
{
    match tree.parts() {
        TreeParts::Leaf(n) => spell_number(taker, n, end),
        TreeParts::Node(n, left, right) => {
            spell_node(taker, n, left, right)?;
            taker.take_one(end)
        }
    }
}

#[cycle(spelled_ids)]
fn spell_pair<T: TakeBytes>(taker: &mut T, left: &IdTree, right: &IdTree) -> Option<()>
    ensures { MatchOption result (T.refuses taker.old taker.new (id_text (Pair left.now right.now))) (λ _. T.takes taker.old taker.new (id_text (Pair left.now right.now))) }
{
    taker.take_one(b'(')?;
    spell_id(taker, left, b',')?;
    spell_id(taker, right, b')')
}

#[cycle(spelled_trees)]
fn spell_node<T: TakeBytes>(taker: &mut T, n: u64, left: &EvTree, right: &EvTree) -> Option<()>
    ensures { MatchOption result (T.refuses taker.old taker.new (tree_text (Node n left.now right.now))) (λ _. T.takes taker.old taker.new (tree_text (Node n left.now right.now))) }
{
    taker.take_one(b'(')?;
    spell_number(taker, n, b',')?;
    spell_tree(taker, left, b',')?;
    spell_tree(taker, right, b')')
}

/// Spells the number and this byte behind it.
#[inline(always)]
fn spell_number<T: TakeBytes>(taker: &mut T, n: u64, end: u8) -> Option<()>
    ensures { MatchOption result (T.refuses taker.old taker.new (decimal n ++ end ∷ [])) (λ _. T.takes taker.old taker.new (decimal n ++ end ∷ [])) }
{
    // Most numbers of a stamp have one digit.
    if n < 10 {
        return taker.take_two(b'0' + n as u8, end);
    }
    spell_digits(taker, n)?;
    taker.take_one(end)
}

/// Spells a number of any length. It is a function of its own, since the buffer is cleared on entry.
#[inline(never)]
fn spell_digits<T: TakeBytes>(taker: &mut T, n: u64) -> Option<()>
    ensures { MatchOption result (T.refuses taker.old taker.new (decimal n)) (λ _. T.takes taker.old taker.new (decimal n)) }
{
    let mut buffer = Buffer::new();
    taker.take_all(buffer.format(n).as_bytes())
}
