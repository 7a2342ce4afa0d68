//! The first fault of a text with the shape of a stamp. Nothing is built to find it.
ghost use Rattle.std.specs.Prelude.{◌≡◌, ◌≢◌, ℕ, ◌+◌, ◌^◌, ◌<◌, ◌≤◌, ◌↔◌, false, List, ◌++◌, length, IfOk, IsTrue};
ghost use Rattle.trace_types.specs.clock.Id.{Id};
ghost use Rattle.stamp_codec.specs.StampText.{Written, IsShaped, SpellsStamp, id_text};
ghost use Rattle.stamp_codec.specs.Bounds.{SpellsNothing};
ghost use Rattle.stamp_codec.specs.Faults.{most_nested, greatest_sum, IsIdTooDeepAt, IsIdNotNormalAt, IsTreeTooLargeAt, IsTreeNotNormalAt};
ghost use Rattle.stamp_codec.specs.Reading.{Refuses, IsNoMemory};
ghost use Rattle.stamp_codec.specs.Scan.{is_digit_byte};
ghost use Rattle.stamp_codec.specs.Looks.{BeginsTree, Looks, LooksOver, IsAny, IsTreeSeen};

use crate::StampFault;
use crate::bounds::{GREATEST_SUM, MOST_NESTED};
use crate::child::Child;
use crate::cursor::Cursor;

/// The first place that is too large, or else the first node that is not normal. The text spells no normal stamp within
/// the bounds.
///
/// It calls itself no deeper than parentheses may be nested.
pub fn first_fault(text: &[u8]) -> StampFault
    requires shaped { IsShaped text.now }
    requires refused { SpellsNothing text.now }
    ensures exact { Refuses text.now result }
    ensures nothing { ¬ IsNoMemory result }
{
    match look(text) {
        Err(place) => StampFault::TooLarge(place),
        Ok(Some(place)) => StampFault::NotNormal(place),
        Ok(None) => unreachable!(),
    }
}

/// The first node that is not normal. It is an error if a place is too large, which gives the first one.
fn look(text: &[u8]) -> Result<Option<usize>, usize>
    ensures { (id : Id) (tree : Written) → SpellsStamp text.now id tree → LooksOver result id tree }
{
    let mut cursor = Cursor::new(text);
    cursor.skip();
    look_at_id(&mut cursor, 0)?;
    cursor.skip();
    look_at_tree(&mut cursor, b']', 0, 0)?;
    Ok(cursor.uneven)
}

/// Goes over the id that comes next, inside `nested` parentheses. It stops at the first place that is too large.
fn look_at_id(cursor: &mut Cursor, nested: usize) -> Result<(), usize>
    requires fits { cursor.old.place + length cursor.old.rest.now < 2 ^ 64 }
    requires within { nested ≤ most_nested }
    ensures end { IfOk result (λ _. cursor.new.place + length cursor.new.rest.now ≡ cursor.old.place + length cursor.old.rest.now) }
    ensures exact { (id : Id) (rest : List ℕ) → cursor.old.rest.now ≡ id_text id ++ rest
        → Looks result IsAny (IsIdTooDeepAt cursor.old.place nested id) (IsIdNotNormalAt cursor.old.place id)
        cursor.old.uneven cursor.new.uneven cursor.new.rest.now rest }
{
    let start = cursor.place;
    let first = cursor.first();
    cursor.skip();
    if first != b'(' {
        return Ok(());
    }
    if nested == MOST_NESTED {
        return Err(start);
    }
    let left_first = cursor.first();
    look_at_id(cursor, nested + 1)?;
    cursor.skip();
    let right_first = cursor.first();
    look_at_id(cursor, nested + 1)?;
    cursor.skip();
    cursor.note(start, is_same_leaf(left_first, right_first));
    Ok(())
}

/// Whether the halves of a pair that begin with these bytes are both 0 or both 1.
fn is_same_leaf(left_first: u8, right_first: u8) -> bool
    ensures { IsTrue result ↔ ((left_first ≡ right_first) × (left_first ≢ 40)) }
{
    left_first == right_first && left_first != b'('
}

/// Goes over the tree that comes next and this byte behind it, inside `nested` parentheses and below numbers of this sum.
/// It stops at the first place that is too large.
fn look_at_tree(cursor: &mut Cursor, end: u8, nested: usize, sum: u64) -> Result<Child, usize>
    requires fits { cursor.old.place + length cursor.old.rest.now < 2 ^ 64 }
    requires end { is_digit_byte end ≡ false }
    requires nested_within { nested ≤ most_nested }
    requires sum_within { sum ≤ greatest_sum }
    ensures end { IfOk result (λ _. cursor.new.place + length cursor.new.rest.now ≡ cursor.old.place + length cursor.old.rest.now) }
    ensures within { IfOk result (λ child. sum + child.least ≤ greatest_sum) }
    ensures exact { (tree : Written) (rest : List ℕ) → BeginsTree cursor.old.rest.now tree end rest
        → Looks result (IsTreeSeen tree) (IsTreeTooLargeAt cursor.old.place nested sum tree) (IsTreeNotNormalAt cursor.old.place tree)
        cursor.old.uneven cursor.new.uneven cursor.new.rest.now rest }
{
    let start = cursor.place;
    if cursor.first() != b'(' {
        return Ok(Child::number(cursor.number(end, GREATEST_SUM - sum)?));
    }
    if nested == MOST_NESTED {
        return Err(start);
    }
    cursor.skip();
    let number = cursor.number(b',', GREATEST_SUM - sum)?;
    let left = look_at_tree(cursor, b',', nested + 1, sum + number)?;
    let right = look_at_tree(cursor, b')', nested + 1, sum + number)?;
    cursor.skip();
    cursor.note(start, left.is_uneven_beside(right));
    Ok(Child::of_node(number, left, right))
}
