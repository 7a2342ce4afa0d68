//! Paths, which are points of any depth.
ghost use Rattle.std.specs.Prelude.{◌≡◌, ◌<◌, ◌∷◌, [], length, IfNone, IfOk, IfSome};
ghost use Rattle.trace_types.specs.clock.EventTree.{EventTree, value};
ghost use Rattle.trace_types.specs.clock.Points.{half_of, within_half};
ghost use Rattle.event_tree.specs.PathCode.{half_on, point_of};

use crate::Point;
use crate::point::LEVELS;
use std::alloc::{AllocError, Global};
use std::marker::Model;

/// A point at which trees are read, as deep as needed. Below its end it goes on to the left.
#[derive(Drop)]
pub struct Path {
    /// Whether the path goes to the right, at each level from the lowest one up.
    rights: Vec<bool>,
}

impl Model for Path {
    ghost use Rattle.trace_types.specs.clock.Points.{Point as Halves};
    ghost use Rattle.event_tree.specs.PathCode.{point_of};

    ghost Value = { Halves };

    ghost view = { λ path. point_of path.rights.items };
}

impl Path {
    /// The path that goes to the left at each level. It takes no memory.
    pub fn new(alloc: Global) -> Path
        ensures { result ≡ [] }
    {
        Path {
            rights: Vec::new(alloc),
        }
    }

    /// Makes this path equal to the other. After an `AllocError` this path leads to some point.
    pub fn copy_from(&mut self, other: &Path) -> Result<(), AllocError>
        ensures { IfOk result (λ done. self.new ≡ other.now) }
    {
        self.rights.clear();
        self.rights.extend_from_slice(&other.rights)
    }

    /// The point at which trees have the values that they have at the path, or `None` if the path has more levels than a
    /// point. It takes no memory.
    pub fn point(&self) -> Option<Point>
        ensures same { IfSome result (λ point. (tree : EventTree) → value tree point ≡ value tree self.now) }
        ensures none { IfNone result (128 < length self.now) }
    {
        if LEVELS < self.rights.len() as u64 {
            return None;
        }
        let mut halves: u128 = 0;
        for right in self.rights.iter() {
            halves *= 2;
            if *right {
                halves += 1;
            }
        }
        Some(Point::of(halves))
    }

    pub(crate) fn clear(&mut self)
        ensures { self.new ≡ [] }
    {
        self.rights.clear();
    }

    /// Puts one level above the path.
    pub(crate) fn put_above(&mut self, right: bool) -> Result<(), AllocError>
        ensures { IfOk result (λ done. self.new ≡ half_on right ∷ self.old) }
    {
        self.rights.push(right)?;
        Ok(())
    }

    /// Whether the path goes to the right, at each level from the lowest one up.
    pub(crate) fn rights(&self) -> &[bool]
        ensures { point_of result.now ≡ self.now }
    {
        &self.rights
    }
}

/// Whether the path goes to the right at its uppermost level, and its levels below.
pub(crate) fn parted(rights: &[bool]) -> (bool, &[bool])
    ensures half { half_on result.0 ≡ half_of (point_of rights.now) }
    ensures below { point_of result.1.now ≡ within_half (point_of rights.now) }
{
    match rights.split_last() {
        Some((right, below)) => (*right, below),
        None => (false, rights),
    }
}
