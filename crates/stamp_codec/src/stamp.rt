//! Stamps, and the published operations on them.
ghost use Rattle.std.specs.Prelude.{◌≡◌, ◌≢◌, ◌+◌, ◌^◌, ◌<◌, IfOk, IsOk};
ghost use Rattle.trace_types.specs.clock.Id.{Zero, One, AreDisjoint};
ghost use Rattle.trace_types.specs.clock.EventTree.{maximum};
ghost use Rattle.event_tree.specs.Leaves.{IsLeafTree};

use event_tree::EvTree;
use id_tree::IdTree;
use std::alloc::Global;
use trace_types::Memory;

/// A stamp of an interval tree clock (Almeida, Baquero and Fonte 2008): the points that a task owns, and what it knows.
///
/// No call changes a stamp that it is given. A call that is handed an allocator returns `Memory` if it runs out of
/// memory.
#[derive(Debug, Drop)]
pub struct Stamp {
    /// The points that the task owns.
    pub id: IdTree,
    /// What the task knows: how much has happened at each point.
    pub tree: EvTree,
}

impl Stamp {
    ghost use Rattle.stamp_codec.specs.Stamp.{seed, fork, stamp_event, stamp_join, peek};

    /// The stamp from which every other comes: it owns every point, and nothing has happened. It takes no memory.
    pub fn seed() -> Stamp
        ensures { result ≡ seed }
    {
        Stamp {
            id: IdTree::one(),
            tree: EvTree::leaf(0),
        }
    }

    /// Two stamps that share out the points of this one and know what this one knows: the published fork. Both own a
    /// point if this one does.
    ///
    /// A stamp without points whose tree is one number takes no memory.
    pub fn fork(&self, alloc: Global) -> Result<(Stamp, Stamp), Memory>
        ensures exact { IfOk result (λ stamps. stamps ≡ fork self.now) }
        ensures nothing { self.now.id ≡ Zero → IsLeafTree self.now.tree → IsOk result }
    {
        let (first, second) = self.id.split(alloc)?;
        let first = Stamp {
            id: first,
            tree: self.tree.share(alloc)?,
        };
        let second = Stamp {
            id: second,
            tree: self.tree.share(alloc)?,
        };
        Ok((first, second))
    }

    /// The stamp after an event of its own: the published event. The stamp has to own a point, and no value of its tree
    /// may be `u64::MAX`. Every stamp owns a point that comes from the seed by forks, joins and events.
    ///
    /// A stamp that owns every point takes no memory.
    pub fn event(&self, alloc: Global) -> Result<Stamp, Memory>
        requires some { self.now.id ≢ Zero }
        requires fits { maximum self.now.tree + 1 < 2 ^ 64 }
        ensures exact { IfOk result (λ stamp. stamp ≡ stamp_event self.now) }
        ensures whole { self.now.id ≡ One → IsOk result }
    {
        let id = self.id.share(alloc)?;
        let tree = EvTree::event(alloc, &self.id, &self.tree)?;
        Ok(Stamp { id, tree })
    }

    /// The stamp that has the points of both and knows what either knows: the published join.
    ///
    /// No point may be owned by both, which `IdTree::disjoint` tells. Stamps that are live at once and come from one seed
    /// never share a point.
    pub fn join(&self, alloc: Global, other: &Stamp) -> Result<Stamp, Memory>
        requires { AreDisjoint self.now.id other.now.id }
        ensures { IfOk result (λ stamp. stamp ≡ stamp_join self.now other.now) }
    {
        let id = self.id.sum(alloc, &other.id)?;
        let tree = self.tree.join(alloc, &other.tree)?;
        Ok(Stamp { id, tree })
    }

    /// A stamp without points that knows what this one knows, to be sent along: the published peek. It can have no event.
    ///
    /// A tree that is one number takes no memory.
    pub fn peek(&self, alloc: Global) -> Result<Stamp, Memory>
        ensures exact { IfOk result (λ stamp. stamp ≡ peek self.now) }
        ensures leaf { IsLeafTree self.now.tree → IsOk result }
    {
        let tree = self.tree.share(alloc)?;
        Ok(Stamp {
            id: IdTree::zero(),
            tree,
        })
    }
}
