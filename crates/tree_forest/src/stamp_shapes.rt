//! The parts of stamps, ids and event trees, as values that forests keep.

use crate::Shape;
use event_tree::EvTree;
use id_tree::IdTree;
use std::alloc::Global;
use trace_types::Memory;

impl Shape for IdTree {
    ghost use Rattle.id_tree.specs.Digest.{digest};

    ghost digest_of = { digest };

    fn same(&self, other: &IdTree) -> bool {
        self.same(other)
    }

    fn digest(&self) -> u64 {
        self.digest()
    }

    fn share(&self, alloc: Global) -> Result<IdTree, Memory> {
        self.share(alloc)
    }
}

impl Shape for EvTree {
    ghost use Rattle.event_tree.specs.Digest.{tree_digest};

    ghost digest_of = { tree_digest };

    fn same(&self, other: &EvTree) -> bool {
        self.same(other)
    }

    fn digest(&self) -> u64 {
        self.digest()
    }

    fn share(&self, alloc: Global) -> Result<EvTree, Memory> {
        self.share(alloc)
    }
}
