//! Reading of stamps.
ghost use Rattle.std.specs.Prelude.{◌≡◌, IfOk, IfErr};
ghost use Rattle.trace_types.specs.clock.Id.{Id};
ghost use Rattle.stamp_codec.specs.StampText.{Written, written_tree, stamp_as_text};
ghost use Rattle.stamp_codec.specs.Bounds.{IsBounded, SpellsNothing};
ghost use Rattle.stamp_codec.specs.declared.stamp.Stamp.{Stamp};
ghost use Rattle.stamp_codec.specs.Flat.{OpensNowhere};
ghost use Rattle.stamp_codec.specs.Reading.{ReadsStamp, Refuses, SpellsNormal, GivesStamp, IsNoMemory};
ghost use Rattle.stamp_codec.specs.declared.reading.StampFault.TheVariants.{Memory as OutOfMemory};

use crate::Stamp;
use crate::first_fault::first_fault;
use crate::one_pass::{Unread, stamp_at_once};
use crate::scan::shape_fault;
use event_tree::EvTree;
use std::alloc::Global;
use thiserror::Error;
use trace_types::Memory as NoMemory;

/// Why a text is refused as a stamp. Each place is a count of bytes from the start of the text.
///
/// Shape comes before size, and size before normal form. The first place is told of the fault that comes first.
#[derive(Clone, Copy, Debug, PartialEq, Eq, Error)]
pub enum StampFault {
    /// The text does not have the shape of a stamp. Its longest prefix that begins some text of that shape has this many
    /// bytes.
    #[error("no stamp from byte {0} on")]
    Shape(usize),
    /// At this byte a parenthesis is nested deeper than 2048, or a number begins that is too great. The numbers on the
    /// way from the root to a node may have a sum of 2^63 - 1.
    #[error("stamp too large at byte {0}")]
    TooLarge(usize),
    /// At this byte a node begins that could be written shorter. The halves of an id are both 0 or both 1. Or the
    /// children of a tree are equal numbers, or neither of them has the least value 0.
    #[error("node not normal at byte {0}")]
    NotNormal(usize),
    /// The call ran out of memory.
    #[error("no memory")]
    Memory,
}

impl From<NoMemory> for StampFault {
    ghost from_gives = { λ _ fault. fault ≡ OutOfMemory };

    fn from(_refused: NoMemory) -> StampFault {
        StampFault::Memory
    }
}

/// The stamp that the text spells, in the form that Almeida, Baquero and Fonte published (2008), with each node normal.
///
/// It looks first at the shape of the whole text, then at its size, and then at whether each node is normal. It tells the
/// first fault of the first kind that it finds. The id and the tree may each be nested 2048 deep. The numbers on the way
/// from the root to a node may have a sum of 2^63 - 1.
///
/// One pass checks and builds together. It stops at the first byte that does not fit. A text that it refuses is gone over
/// again to tell its fault: once for its shape, without recursion, and once for its size and its nodes. Nothing is built then.
/// Nothing is built at all of a text that is nested too deep.
///
/// Returns `Memory` if it runs out of memory, for a mark of each open parenthesis or for the stamp. `Memory` may come
/// before any other fault.
#[tactic(auto, using(crate::proofs::AtOnce::reads_itself, crate::proofs::AtOnce::no_other, crate::proofs::Bounded::spells_something))]
pub fn read_stamp(alloc: Global, text: &[u8]) -> Result<Stamp, StampFault>
    // The stamp that the text spells, or the fault and its place.
    ensures exact { ReadsStamp text.now result }
    // What spells a stamp is read, unless memory runs out.
    ensures only { (id : Id) (tree : Written) → SpellsNormal text.now id tree → GivesStamp result id (written_tree tree) }
    // What was written of a normal stamp within the bounds is that stamp again, unless memory runs out.
    ensures again { (stamp : Stamp) → IsBounded stamp → text.now ≡ stamp_as_text stamp → GivesStamp result stamp.id stamp.tree }
    // What is read is the text that is written of the stamp.
    ensures found { IfOk result (λ stamp. text.now ≡ stamp_as_text stamp) }
    // A text without parentheses takes no memory.
    ensures flat { OpensNowhere text.now → IfErr result (λ fault. ¬ IsNoMemory fault) }
{
    match stamp_at_once(alloc, text, &EvTree::leaf(0)) {
        Ok(stamp) => Ok(stamp),
        Err(Unread::Refused) => Err(fault_of(alloc, text)),
        Err(Unread::Memory | Unread::Unshared) => Err(StampFault::Memory),
    }
}

/// The stamp that the text spells, as [`read_stamp`] gives it. Its tree shares the parts that stand in this one at the same
/// place, and no block of memory is taken for them.
///
/// Use it if the stamp's tree is like one that is there already. The tree of an event is like those of the events that it
/// follows. The tree beside which a stamp is read does not change it.
///
/// Returns `Memory` as [`read_stamp`] does.
#[tactic(auto, using(crate::proofs::AtOnce::reads_itself, crate::proofs::AtOnce::no_other, crate::proofs::Bounded::spells_something))]
pub fn read_stamp_beside(alloc: Global, text: &[u8], tree: &EvTree) -> Result<Stamp, StampFault>
    // The stamp that the text spells, or the fault and its place.
    ensures exact { ReadsStamp text.now result }
    // What spells a stamp is read, unless memory runs out.
    ensures only { (id : Id) (tree : Written) → SpellsNormal text.now id tree → GivesStamp result id (written_tree tree) }
    // What was written of a normal stamp within the bounds is that stamp again, unless memory runs out.
    ensures again { (stamp : Stamp) → IsBounded stamp → text.now ≡ stamp_as_text stamp → GivesStamp result stamp.id stamp.tree }
    // What is read is the text that is written of the stamp.
    ensures found { IfOk result (λ stamp. text.now ≡ stamp_as_text stamp) }
    // A text without parentheses takes no memory.
    ensures flat { OpensNowhere text.now → IfErr result (λ fault. ¬ IsNoMemory fault) }
{
    match stamp_at_once(alloc, text, tree) {
        Ok(stamp) => Ok(stamp),
        Err(Unread::Refused) => Err(fault_of(alloc, text)),
        Err(Unread::Memory) => Err(StampFault::Memory),
        // A part would stand in more trees than can be counted, so nothing is shared.
        Err(Unread::Unshared) => read_stamp(alloc, text),
    }
}

/// Why the text spells no normal stamp within the bounds.
fn fault_of(alloc: Global, text: &[u8]) -> StampFault
    requires { SpellsNothing text.now }
    ensures exact { Refuses text.now result }
    ensures flat { OpensNowhere text.now → ¬ IsNoMemory result }
{
    match shape_fault(alloc, text) {
        Ok(Some(place)) => StampFault::Shape(place),
        Ok(None) => first_fault(text),
        Err(_) => StampFault::Memory,
    }
}
