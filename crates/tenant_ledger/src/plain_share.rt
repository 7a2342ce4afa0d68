//! A share that keeps ids and trees as they are.
ghost use Rattle.std.specs.Prelude.{[]};

use crate::{Keep, Share};
use event_tree::EvTree;
use id_tree::IdTree;
use trace_query::Compare;
use trace_types::{Memory, Order};

/// Keeps the ids and trees themselves. It takes no lock, and waits for nobody.
#[derive(Clone, Copy, Debug)]
pub struct PlainShare;

impl Keep for PlainShare {
    type Kept = EvTree;

    type Id = IdTree;

    ghost home = { λ _. [] };

    ghost home_of = { λ _. [] };

    ghost compares = { λ _ _ _. tt };
}

impl Compare<EvTree> for PlainShare {
    ghost admits = { λ _ _. Unit {0} };

    fn order(&self, first: &EvTree, second: &EvTree) -> Order {
        first.order(second)
    }
}

impl<R> Share<R> for PlainShare {
    fn keep_id(&self, _rt: &R, id: IdTree) -> Result<IdTree, Memory> {
        Ok(id)
    }

    fn keep_tree(&self, _rt: &R, tree: EvTree) -> Result<EvTree, Memory> {
        Ok(tree)
    }
}
