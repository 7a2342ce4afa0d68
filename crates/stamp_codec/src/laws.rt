//! The laws of the text. Each is the contract of a function that does nothing.
ghost use Rattle.std.specs.Prelude.{◌≡◌, List, ℕ};
ghost use Rattle.trace_types.specs.clock.Id.{Id};
ghost use Rattle.stamp_codec.specs.StampText.{Written, SpellsStamp, stamp_as_text, written_tree};
ghost use Rattle.stamp_codec.specs.Bounds.{IsBounded, as_written};
ghost use Rattle.stamp_codec.specs.Reading.{SpellsNormal};
ghost use Rattle.stamp_codec.specs.declared.stamp.Stamp.{Stamp};

/// The text of each normal stamp within the bounds spells that stamp.
pub fn what_is_written_is_spelled()
    ensures { (stamp : Stamp) → IsBounded stamp → SpellsNormal (stamp_as_text stamp) stamp.id (as_written stamp.tree) × (written_tree (as_written stamp.tree) ≡ stamp.tree) }
{}

/// A text spells at most one id and one tree.
pub fn one_reading()
    ensures { (text : List ℕ) (id id' : Id) (tree tree' : Written) → SpellsStamp text id tree → SpellsStamp text id' tree' → (id ≡ id') × (tree ≡ tree') }
{}
