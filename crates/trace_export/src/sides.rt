//! Places at which trees were above one another.
ghost use Rattle.std.specs.Prelude.{◌↔◌, IsTrue};
ghost use Rattle.event_tree.specs.Comparison.{IsBelow};

use event_tree::{EvTree, Path};
use std::alloc::Global;

/// The place at which an event's tree was above another one last, and the place at which another one was above it last.
/// They only say where to look first: each place is looked at again.
#[derive(Drop)]
pub(crate) struct Sides {
    pub(crate) above: Path,
    pub(crate) below: Path,
}

impl Sides {
    /// The sides of a tree that was compared with none. It takes no memory.
    pub(crate) fn new(alloc: Global) -> Sides {
        Sides {
            above: Path::new(alloc),
            below: Path::new(alloc),
        }
    }
}

/// Whether the tree of one is below the other's. It looks at the places of both first, and walks only if none of them
/// tells. Both then keep the place that the walk found, if there is memory for it.
pub(crate) fn is_below(
    one: &EvTree,
    sides: &mut Sides,
    other: &EvTree,
    other_sides: &mut Sides,
) -> bool
    ensures { IsTrue result ↔ IsBelow one.now other.now }
{
    if one.is_above_at(other, &sides.above) || one.is_above_at(other, &other_sides.below) {
        return false;
    }
    match one.leq_or_path(other, &mut sides.above) {
        Ok(true) => true,
        Ok(false) => {
            let _ = other_sides.below.copy_from(&sides.above);
            false
        }
        Err(_) => one.leq(other),
    }
}
