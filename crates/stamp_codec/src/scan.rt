//! The scan that tells whether a text has the shape of a stamp.
ghost use Rattle.std.specs.Prelude.{◌≡◌, ◌≢◌, ◌↔◌, [], ◌∷◌, true, IfOk, IsOk, IsTrue, MatchOption};
ghost use Rattle.stamp_codec.specs.Flat.{OpensNowhere};
ghost use Rattle.stamp_codec.specs.StampText.{IsShaped};
ghost use Rattle.stamp_codec.specs.Faults.{IsShapeFault};

use nesting::{Nesting, Side};
use std::alloc::Global;
use trace_types::Memory;

mod nesting;

/// The two parts of a stamp's text.
#[derive(Clone, Copy)]
enum Part {
    Id,
    Tree,
}

/// What has to come next.
#[derive(Clone, Copy)]
enum Awaited {
    /// The bracket before the id.
    Start,
    /// A whole id or tree.
    Node(Part),
    /// What stands behind a whole id or tree.
    NodeEnd(Part),
    /// More digits of a leaf, or what stands behind it.
    LeafDigits,
    /// The number of a node, behind its parenthesis.
    Number,
    /// More digits of a node's number, or the comma.
    NumberDigits,
    /// The comma behind a node's number.
    Comma,
    /// The end of the text.
    Nothing,
}

/// What has to come next, and inside which parentheses.
#[derive(Drop)]
struct Scan {
    awaited: Awaited,
    inside: Nesting,
}

impl Scan {
    ghost use Rattle.stamp_codec.specs.Scan.{awaiting, stepped, closed, id_begun, number_begun, tree_begun, GoesOn};
    ghost use Rattle.stamp_codec.specs.Flat.{IsFlat};
    ghost use Rattle.stamp_codec.specs.declared.scan.nesting.Side.TheVariants.{Left};
    ghost use Rattle.stamp_codec.specs.declared.scan.Awaited.TheVariants as awaits;

    fn start(alloc: Global) -> Scan
        ensures { result ≡ awaiting awaits.Start [] }
    {
        Scan {
            awaited: Awaited::Start,
            inside: Nesting::new(alloc),
        }
    }

    /// Goes on to what is awaited after the byte, and says whether a stamp may go on with it.
    fn step(&mut self, byte: u8) -> Result<bool, Memory>
        ensures exact { IfOk result (λ goes_on. GoesOn goes_on self.new (stepped self.old.awaited self.old.inside byte)) }
        ensures flat { IsFlat self.old → byte ≢ 40 → IsOk result }
    {
        match self.awaited {
            Awaited::Start if byte == b'[' => Ok(self.then(Awaited::Node(Part::Id))),
            Awaited::Node(Part::Id) => self.begin_id(byte),
            Awaited::Node(Part::Tree) => Ok(self.begin_tree(byte)),
            Awaited::NodeEnd(part) => self.close(part, byte),
            Awaited::LeafDigits if byte.is_ascii_digit() => Ok(true),
            Awaited::LeafDigits => self.close(Part::Tree, byte),
            Awaited::Number => Ok(self.begin_number(Awaited::Comma, Awaited::NumberDigits, byte)),
            Awaited::NumberDigits if byte.is_ascii_digit() => Ok(true),
            Awaited::NumberDigits | Awaited::Comma if byte == b',' => self.open(Part::Tree),
            _ => Ok(false),
        }
    }

    fn then(&mut self, awaited: Awaited) -> bool
        ensures { (result ≡ true) × (self.new ≡ awaiting awaited self.old.inside) }
    {
        self.awaited = awaited;
        true
    }

    fn open(&mut self, part: Part) -> Result<bool, Memory>
        ensures { IfOk result (λ goes_on. (goes_on ≡ true) × (self.new ≡ awaiting (awaits.Node part) (Left ∷ self.old.inside))) }
    {
        self.inside.push(Side::Left)?;
        Ok(self.then(Awaited::Node(part)))
    }

    fn begin_id(&mut self, byte: u8) -> Result<bool, Memory>
        ensures exact { IfOk result (λ goes_on. GoesOn goes_on self.new (id_begun self.old.inside byte)) }
        ensures flat { byte ≢ 40 → IsOk result }
    {
        match byte {
            b'(' => self.open(Part::Id),
            b'0' | b'1' => Ok(self.then(Awaited::NodeEnd(Part::Id))),
            _ => Ok(false),
        }
    }

    fn begin_tree(&mut self, byte: u8) -> bool
        ensures { GoesOn result self.new (tree_begun self.old.inside byte) }
    {
        if byte == b'(' {
            self.then(Awaited::Number)
        } else {
            self.begin_number(Awaited::NodeEnd(Part::Tree), Awaited::LeafDigits, byte)
        }
    }

    /// Awaits `alone` behind a 0, which stands alone, and `with_digits` behind another digit.
    fn begin_number(&mut self, alone: Awaited, with_digits: Awaited, byte: u8) -> bool
        ensures { GoesOn result self.new (number_begun alone with_digits self.old.inside byte) }
    {
        match byte {
            b'0' => self.then(alone),
            b'1'..=b'9' => self.then(with_digits),
            _ => false,
        }
    }

    fn close(&mut self, part: Part, byte: u8) -> Result<bool, Memory>
        ensures exact { IfOk result (λ goes_on. GoesOn goes_on self.new (closed part self.old.inside byte)) }
        ensures flat { self.old.inside ≡ [] → IsOk result }
    {
        match (self.inside.pop(), part) {
            (None, Part::Id) if byte == b';' => Ok(self.then(Awaited::Node(Part::Tree))),
            (None, Part::Tree) if byte == b']' => Ok(self.then(Awaited::Nothing)),
            (Some(Side::Left), _) if byte == b',' => {
                self.inside.push(Side::Right)?;
                Ok(self.then(Awaited::Node(part)))
            }
            (Some(Side::Right), _) if byte == b')' => Ok(self.then(Awaited::NodeEnd(part))),
            _ => Ok(false),
        }
    }

    fn is_complete(&self) -> bool
        ensures { IsTrue result ↔ (self.now.awaited ≡ awaits.Nothing) }
    {
        matches!(self.awaited, Awaited::Nothing)
    }
}

/// The place from which on the text does not have the shape of a stamp, or `None` if it has that shape.
///
/// It goes over the bytes once, with one mark in memory for each open parenthesis. Returns `Memory` if it runs out of
/// memory.
pub fn shape_fault(alloc: Global, text: &[u8]) -> Result<Option<usize>, Memory>
    ensures exact { IfOk result (λ fault. MatchOption fault (IsShaped text.now) (λ place. IsShapeFault text.now place)) }
    ensures flat { OpensNowhere text.now → IsOk result }
{
    let mut scan = Scan::start(alloc);
    for (place, byte) in text.iter().enumerate() {
        if !scan.step(*byte)? {
            return Ok(Some(place));
        }
    }
    if scan.is_complete() {
        Ok(None)
    } else {
        Ok(Some(text.len()))
    }
}
