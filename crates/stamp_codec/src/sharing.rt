//! Reading of a tree beside another one, whose parts it shares where the two are equal.
ghost use Rattle.std.specs.Prelude.{◌≡◌, ◌↔◌, ◌+◌, ◌^◌, ◌<◌, ◌≤◌, false, [], ◌∷◌, ◌++◌, max, IfErr, IfOk, IsOk, IsTrue, MatchResult};
ghost use Rattle.trace_types.specs.clock.EventTree.{Leaf, Node, maximum};
ghost use Rattle.event_tree.specs.Height.{height};
ghost use Rattle.event_tree.specs.Leaves.{IsLeafTree};
ghost use Rattle.stamp_codec.specs.StampText.{tree_text};
ghost use Rattle.stamp_codec.specs.Faults.{greatest_sum};
ghost use Rattle.stamp_codec.specs.Beside.{tree_beside};
ghost use Rattle.stamp_codec.specs.Children.{IsUnevenOver};
ghost use Rattle.stamp_codec.specs.Flat.{OpensNowhere};
ghost use Rattle.stamp_codec.specs.Refused.{NoTree, NoNode};
ghost use Rattle.stamp_codec.specs.Scan.{is_digit_byte};
ghost use Rattle.stamp_codec.specs.declared.one_pass.Unread.TheVariants.{Refused, Unshared};
ghost use Rattle.stamp_codec.specs.declared.sharing.Beside.TheVariants.{Other, Same};

use crate::one_pass::{Unread, node_of, take_node};
use crate::taking::{take_byte, take_number, take_parenthesis};
use event_tree::{EvTree, Parts};
use std::alloc::Global;
use std::mem;

/// What was read beside a tree.
#[derive(Clone, Copy)]
pub(crate) enum Beside {
    /// An equal tree. Nothing was built.
    Same,
    /// Another tree, which stands in the place that was lent for it. It shares the parts that stand in the first one at
    /// the same place.
    Other,
}

impl Beside {
    /// Whether an equal tree was read.
    fn is_same(self) -> bool
        ensures { IsTrue result ↔ (self ≡ Same) }
    {
        matches!(self, Beside::Same)
    }

    /// Puts the tree into the place that was lent for it, also if it is the same. Returns `Unshared` if a part would stand
    /// in more trees than can be counted. It is a function of its own so that the walk has small frames.
    #[inline(never)]
    pub(crate) fn settle(
        self,
        alloc: Global,
        tree: &EvTree,
        made: &mut EvTree,
    ) -> Result<(), Unread>
        ensures settled { IfOk result (λ _. made.new ≡ tree_beside self tree.now made.old) }
        ensures unshared { IfErr result (λ unread. unread ≡ Unshared) }
        ensures leaf { IsLeafTree (tree_beside self tree.now made.old) → IsOk result }
    {
        if let Beside::Same = self {
            match tree.share(alloc) {
                Ok(same) => *made = same,
                Err(_) => return Err(Unread::Unshared),
            }
        }
        Ok(())
    }
}

/// Takes a tree and this byte behind it, with at most so many levels of parentheses and no value above `most`. A tree that
/// is not the same is put into `made`, which else may hold any. It stands in [`take_node_beside`] twice, so that no call is
/// made for a leaf.
#[cycle(taken_beside)]
#[inline(always)]
pub(crate) fn take_beside(
    alloc: Global,
    rest: &mut &[u8],
    end: u8,
    levels: usize,
    most: u64,
    tree: &EvTree,
    made: &mut EvTree,
) -> Result<Beside, Unread>
    requires most { most ≤ greatest_sum }
    requires end { is_digit_byte end ≡ false }
    ensures flat { OpensNowhere rest.old.now → MatchResult result (λ read. IsLeafTree (tree_beside read tree.now made.new)) (λ unread. unread ≡ Refused) }
    ensures refused { IfErr result (λ unread. unread ≡ Refused → NoTree levels most end rest.old.now) }
    ensures text { IfOk result (λ read. rest.old.now ≡ (tree_text (tree_beside read tree.now made.new) ++ end ∷ []) ++ rest.new.now) }
    ensures low { IfOk result (λ read. height (tree_beside read tree.now made.new) ≤ levels) }
    ensures small { IfOk result (λ read. maximum (tree_beside read tree.now made.new) ≤ most) }
{
    if !take_parenthesis(rest) {
        return Ok(leaf_beside(take_number(rest, end, most)?, tree, made));
    }
    let read = take_node_beside(alloc, rest, levels, most, tree, made)?;
    take_byte(rest, end)?;
    Ok(read)
}

/// Takes a node behind its parenthesis.
#[cycle(taken_beside)]
fn take_node_beside(
    alloc: Global,
    rest: &mut &[u8],
    levels: usize,
    most: u64,
    tree: &EvTree,
    made: &mut EvTree,
) -> Result<Beside, Unread>
    requires { most ≤ greatest_sum }
    ensures refused { IfErr result (λ unread. unread ≡ Refused → NoNode levels most rest.old.now) }
    ensures text { IfOk result (λ read. 40 ∷ rest.old.now ≡ tree_text (tree_beside read tree.now made.new) ++ rest.new.now) }
    ensures low { IfOk result (λ read. height (tree_beside read tree.now made.new) ≤ levels) }
    ensures small { IfOk result (λ read. maximum (tree_beside read tree.now made.new) ≤ most) }
{
    let Parts::Node(base, left, right) = tree.parts() else {
        return take_other(alloc, rest, levels, most, made);
    };
    if levels == 0 {
        return Err(Unread::Refused);
    }
    let number = take_number(rest, b',', most)?;
    let on_left = take_beside(alloc, rest, b',', levels - 1, most - number, left, made)?;
    let mut second = EvTree::leaf(0);
    let on_right = take_beside(
        alloc,
        rest,
        b')',
        levels - 1,
        most - number,
        right,
        &mut second,
    )?;
    if number == base && on_left.is_same() && on_right.is_same() {
        return Ok(Beside::Same);
    }
    on_left.settle(alloc, left, made)?;
    on_right.settle(alloc, right, &mut second)?;
    put_node(alloc, number, made, second)?;
    Ok(Beside::Other)
}

/// Takes a node behind its parenthesis where there is none beside it.
#[inline(never)]
fn take_other(
    alloc: Global,
    rest: &mut &[u8],
    levels: usize,
    most: u64,
    made: &mut EvTree,
) -> Result<Beside, Unread>
    requires { most ≤ greatest_sum }
    ensures other { IfOk result (λ read. read ≡ Other) }
    ensures refused { IfErr result (λ unread. unread ≡ Refused → NoNode levels most rest.old.now) }
    ensures text { IfOk result (λ _. 40 ∷ rest.old.now ≡ tree_text made.new ++ rest.new.now) }
    ensures low { IfOk result (λ _. height made.new ≤ levels) }
    ensures small { IfOk result (λ _. maximum made.new ≤ most) }
{
    *made = take_node(alloc, rest, levels, most)?;
    Ok(Beside::Other)
}

/// Puts this tree and the one on its right under the node with this number, if the node is normal.
#[inline(never)]
fn put_node(alloc: Global, number: u64, made: &mut EvTree, right: EvTree) -> Result<(), Unread>
    requires { number + max (maximum made.old) (maximum right) < 2 ^ 64 }
    ensures exact { IfOk result (λ _. made.new ≡ Node number made.old right) }
    ensures refused { IfErr result (λ unread. unread ≡ Refused → IsUnevenOver made.old right) }
{
    let left = mem::replace(made, EvTree::leaf(0));
    *made = node_of(alloc, number, left, right)?;
    Ok(())
}

/// The leaf of this value beside the tree.
#[inline(always)]
fn leaf_beside(value: u64, tree: &EvTree, made: &mut EvTree) -> Beside
    ensures { tree_beside result tree.now made.new ≡ Leaf value }
{
    match tree.parts() {
        Parts::Leaf(other) if other == value => Beside::Same,
        _ => {
            *made = EvTree::leaf(value);
            Beside::Other
        }
    }
}
