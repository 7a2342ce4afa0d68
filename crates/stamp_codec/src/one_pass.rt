//! Reading of a stamp in one pass, which checks and builds together. It tells no fault.
ghost use Rattle.std.specs.Prelude.{◌≡◌, ℕ, ◌+◌, ◌^◌, ◌<◌, ◌≤◌, false, [], ◌∷◌, ◌++◌, max, IfErr, IfOk, IfSome, MatchOption};
ghost use Rattle.trace_types.specs.clock.Id.{Pair, AreApart};
ghost use Rattle.trace_types.specs.clock.EventTree.{Leaf, Node, maximum};
ghost use Rattle.event_tree.specs.Height.{height};
ghost use Rattle.stamp_codec.specs.StampText.{id_text, tree_text, stamp_as_text};
ghost use Rattle.stamp_codec.specs.Faults.{greatest_sum};
ghost use Rattle.stamp_codec.specs.Bounds.{IsBounded, SpellsNothing, id_height};
ghost use Rattle.stamp_codec.specs.Children.{IsUnevenOver};
ghost use Rattle.stamp_codec.specs.Flat.{OpensNowhere};
ghost use Rattle.stamp_codec.specs.Refused.{IsTreeWithin, NoId, NoPair, NoTree, NoNode};
ghost use Rattle.stamp_codec.specs.Scan.{is_digit_byte};
ghost use Rattle.stamp_codec.specs.declared.one_pass.Unread.TheVariants.{Refused};

use crate::Stamp;
use crate::bounds::{GREATEST_SUM, MOST_NESTED};
use crate::child::Child;
use crate::depth::is_too_deep;
use crate::sharing::take_beside;
use crate::taking::{take_byte, take_digit, take_number, take_parenthesis};
use event_tree::EvTree;
use id_tree::IdTree;
use std::alloc::Global;

/// Why no stamp was read at once.
#[derive(Clone, Copy)]
pub(crate) enum Unread {
    /// The text spells no normal stamp within the bounds.
    Refused,
    /// A part would stand in more trees than can be counted.
    Unshared,
    /// Memory ran out.
    Memory,
}

/// The stamp that the text spells. It shares the parts that stand in this tree at the same place.
///
/// It goes over the bytes once, and stops at the first byte that does not fit. It calls itself no deeper than parentheses
/// may be nested.
#[inline(always)]
pub(crate) fn stamp_at_once(alloc: Global, text: &[u8], tree: &EvTree) -> Result<Stamp, Unread>
    ensures text { IfOk result (λ stamp. text.now ≡ stamp_as_text stamp) }
    ensures bounded { IfOk result (λ stamp. IsBounded stamp) }
    ensures refused { IfErr result (λ unread. unread ≡ Refused → SpellsNothing text.now) }
    ensures flat { OpensNowhere text.now → IfErr result (λ unread. unread ≡ Refused) }
{
    // Nothing is built of a text that is nested too deep.
    if is_too_deep(text) {
        return Err(Unread::Refused);
    }
    let mut rest = text;
    take_byte(&mut rest, b'[')?;
    let id = take_id(alloc, &mut rest, b';', MOST_NESTED)?;
    let mut made = EvTree::leaf(0);
    let read = take_beside(
        alloc,
        &mut rest,
        b']',
        MOST_NESTED,
        GREATEST_SUM,
        tree,
        &mut made,
    )?;
    read.settle(alloc, tree, &mut made)?;
    // The contracts of `parts` tell the prover that both are normal.
    let (_halves, _children) = (id.parts(), made.parts());
    if rest.is_empty() {
        Ok(Stamp { id, tree: made })
    } else {
        Err(Unread::Refused)
    }
}

/// Takes an id and this byte behind it, with at most so many levels of parentheses. It stands in [`take_pair`] twice, so
/// that no call is made for a leaf.
#[cycle(taken_ids)]
#[inline(always)]
fn take_id(alloc: Global, rest: &mut &[u8], end: u8, levels: usize) -> Result<IdTree, Unread>
    ensures text { IfOk result (λ id. rest.old.now ≡ (id_text id ++ end ∷ []) ++ rest.new.now) }
    ensures low { IfOk result (λ id. id_height id ≤ levels) }
    ensures refused { IfErr result (λ unread. unread ≡ Refused → NoId levels end rest.old.now) }
    ensures flat { OpensNowhere rest.old.now → IfErr result (λ unread. unread ≡ Refused) }
{
    match take_digit(rest, end) {
        Some(b'0') => Ok(IdTree::zero()),
        Some(b'1') => Ok(IdTree::one()),
        Some(_) => Err(Unread::Refused),
        None => {
            take_byte(rest, b'(')?;
            let id = take_pair(alloc, rest, levels)?;
            take_byte(rest, end)?;
            Ok(id)
        }
    }
}

/// Takes a pair behind its parenthesis.
#[cycle(taken_ids)]
fn take_pair(alloc: Global, rest: &mut &[u8], levels: usize) -> Result<IdTree, Unread>
    ensures text { IfOk result (λ id. 40 ∷ rest.old.now ≡ id_text id ++ rest.new.now) }
    ensures low { IfOk result (λ id. id_height id ≤ levels) }
    ensures refused { IfErr result (λ unread. unread ≡ Refused → NoPair levels rest.old.now) }
{
    if levels == 0 {
        return Err(Unread::Refused);
    }
    let left = take_id(alloc, rest, b',', levels - 1)?;
    let right = take_id(alloc, rest, b')', levels - 1)?;
    pair_of(alloc, left, right)
}

/// The pair of these halves, if it is normal.
fn pair_of(alloc: Global, left: IdTree, right: IdTree) -> Result<IdTree, Unread>
    ensures exact { IfOk result (λ id. id ≡ Pair left right) }
    ensures refused { IfErr result (λ unread. unread ≡ Refused → ¬ AreApart left right) }
{
    if left.is_zero() && right.is_zero() || left.is_one() && right.is_one() {
        return Err(Unread::Refused);
    }
    match IdTree::fork(alloc, left, right) {
        Ok(id) => Ok(id),
        Err(_) => Err(Unread::Memory),
    }
}

/// Takes a tree and this byte behind it, with at most so many levels of parentheses and no value above `most`. It stands
/// in [`take_node`] twice, so that no call is made for a leaf.
#[cycle(taken_trees)]
#[inline(always)]
fn take_tree(
    alloc: Global,
    rest: &mut &[u8],
    end: u8,
    levels: usize,
    most: u64,
) -> Result<EvTree, Unread>
    requires most { most ≤ greatest_sum }
    requires end { is_digit_byte end ≡ false }
    ensures text { IfOk result (λ tree. rest.old.now ≡ (tree_text tree ++ end ∷ []) ++ rest.new.now) }
    ensures low { IfOk result (λ tree. height tree ≤ levels) }
    ensures small { IfOk result (λ tree. maximum tree ≤ most) }
    ensures refused { IfErr result (λ unread. unread ≡ Refused → NoTree levels most end rest.old.now) }
{
    if !take_parenthesis(rest) {
        return Ok(EvTree::leaf(take_number(rest, end, most)?));
    }
    let tree = take_node(alloc, rest, levels, most)?;
    take_byte(rest, end)?;
    Ok(tree)
}

/// Takes a node behind its parenthesis.
#[cycle(taken_trees)]
pub(crate) fn take_node(
    alloc: Global,
    rest: &mut &[u8],
    levels: usize,
    most: u64,
) -> Result<EvTree, Unread>
    requires { most ≤ greatest_sum }
    ensures text { IfOk result (λ tree. 40 ∷ rest.old.now ≡ tree_text tree ++ rest.new.now) }
    ensures low { IfOk result (λ tree. height tree ≤ levels) }
    ensures small { IfOk result (λ tree. maximum tree ≤ most) }
    ensures refused { IfErr result (λ unread. unread ≡ Refused → NoNode levels most rest.old.now) }
{
    if levels == 0 {
        return Err(Unread::Refused);
    }
    // Many nodes stand over two leaves with numbers of one digit.
    if let Some((number, left, right)) = take_twig(rest) {
        return twig_of(alloc, number - b'0', left - b'0', right - b'0', most);
    }
    let number = take_number(rest, b',', most)?;
    let left = take_tree(alloc, rest, b',', levels - 1, most - number)?;
    let right = take_tree(alloc, rest, b')', levels - 1, most - number)?;
    node_of(alloc, number, left, right)
}

/// Takes a node over two leaves behind its parenthesis, or nothing if none is there. The three numbers have one digit
/// each. It gives their digits as they stand in the text.
#[inline(always)]
fn take_twig(rest: &mut &[u8]) -> Option<(u8, u8, u8)>
    ensures text { MatchOption result (rest.new.now ≡ rest.old.now)
        (λ digits. rest.old.now ≡ digits.0 ∷ (44 ∷ (digits.1 ∷ (44 ∷ (digits.2 ∷ (41 ∷ rest.new.now)))))) }
    ensures number { IfSome result (λ digits. (48 ≤ digits.0) × (digits.0 ≤ 57)) }
    ensures left { IfSome result (λ digits. (48 ≤ digits.1) × (digits.1 ≤ 57)) }
    ensures right { IfSome result (λ digits. (48 ≤ digits.2) × (digits.2 ≤ 57)) }
{
    match *rest {
        [
            number @ b'0'..=b'9',
            b',',
            left @ b'0'..=b'9',
            b',',
            right @ b'0'..=b'9',
            b')',
            after @ ..,
        ] => {
            *rest = after;
            Some((*number, *left, *right))
        }
        _ => None,
    }
}

/// The node over two leaves with these numbers, if it is normal and no value is above `most`.
fn twig_of(alloc: Global, number: u8, left: u8, right: u8, most: u64) -> Result<EvTree, Unread>
    requires { most ≤ greatest_sum }
    ensures exact { IfOk result (λ tree. tree ≡ Node number (Leaf left) (Leaf right)) }
    ensures small { IfOk result (λ tree. maximum tree ≤ most) }
    ensures refused { IfErr result (λ unread. unread ≡ Refused → (levels : ℕ) → ¬ IsTreeWithin levels most (Node number (Leaf left) (Leaf right))) }
{
    if u64::from(number) + u64::from(left.max(right)) > most {
        return Err(Unread::Refused);
    }
    let (left, right) = (
        EvTree::leaf(u64::from(left)),
        EvTree::leaf(u64::from(right)),
    );
    node_of(alloc, u64::from(number), left, right)
}

/// The node over these children, if it is normal.
pub(crate) fn node_of(
    alloc: Global,
    number: u64,
    left: EvTree,
    right: EvTree,
) -> Result<EvTree, Unread>
    requires { number + max (maximum left) (maximum right) < 2 ^ 64 }
    ensures exact { IfOk result (λ tree. tree ≡ Node number left right) }
    ensures refused { IfErr result (λ unread. unread ≡ Refused → IsUnevenOver left right) }
{
    if Child::of(&left).is_uneven_beside(Child::of(&right)) {
        return Err(Unread::Refused);
    }
    match EvTree::fork(alloc, number, left, right) {
        Ok(tree) => Ok(tree),
        Err(_) => Err(Unread::Memory),
    }
}
