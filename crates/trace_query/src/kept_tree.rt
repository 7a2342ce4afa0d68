//! Values that stand for event trees.
ghost use Rattle.std.specs.Prelude.{◌≡◌};
ghost use Rattle.trace_types.specs.clock.EventTree.{EventTree};

use event_tree::EvTree;
use tree_forest::Tree;

/// A value that stands for an event tree, in whatever form it is kept.
pub trait Meant {
    // the event tree for which it stands
    ghost tree: { Self → EventTree };

    /// The tree for which it stands. It takes no memory.
    fn tree_value(&self) -> &EvTree
        ensures { result.now ≡ tree self.now };
}

impl Meant for EvTree {
    ghost tree = { λ tree. tree };

    fn tree_value(&self) -> &EvTree {
        self
    }
}

impl Meant for Tree<EvTree> {
    ghost tree = { λ tree. tree.value };

    fn tree_value(&self) -> &EvTree {
        self.value()
    }
}
