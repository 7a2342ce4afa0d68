//! Ids and trees of one ledger that has to take little memory.
ghost use Rattle.std.specs.Prelude.{[]};

use crate::PackedId;
use crate::share::{Keep, Share};
use event_tree::EvTree;
use id_tree::IdTree;
use trace_query::Compare;
use trace_types::{Memory, Order};

/// Keeps the trees themselves, and packs the ids that were not used lately. It takes no lock, and waits for nobody.
#[derive(Clone, Copy, Debug)]
pub struct PackedShare;

impl Keep for PackedShare {
    type Kept = EvTree;

    type Id = PackedId;

    ghost home = { λ _. [] };

    ghost home_of = { λ _. [] };

    ghost compares = { λ _ _ _. tt };
}

impl Compare<EvTree> for PackedShare {
    ghost admits = { λ _ _. Unit {0} };

    fn order(&self, first: &EvTree, second: &EvTree) -> Order {
        first.order(second)
    }
}

impl<R> Share<R> for PackedShare {
    fn keep_id(&self, _rt: &R, id: IdTree) -> Result<PackedId, Memory> {
        Ok(PackedId::new(id))
    }

    fn keep_tree(&self, _rt: &R, tree: EvTree) -> Result<EvTree, Memory> {
        Ok(tree)
    }
}
