//! What of a child tells whether the node over it is normal.
ghost use Rattle.std.specs.Prelude.{◌≡◌, ◌↔◌, ◌+◌, ◌^◌, ◌<◌, min, false, IsTrue};
ghost use Rattle.trace_types.specs.clock.EventTree.{EventTree, Leaf};
ghost use Rattle.stamp_codec.specs.Children.{IsChild, IsUnevenOver};

use event_tree::{EvTree, Parts};

/// What is known of a child of a node.
#[derive(Clone, Copy)]
pub struct Child {
    /// Its least value at any point.
    pub least: u64,
    /// Whether it is a number alone.
    pub is_number: bool,
}

impl Child {
    /// What is known of this tree.
    #[inline(always)]
    pub fn of(tree: &EvTree) -> Child
        ensures { IsChild result tree.now }
    {
        Child {
            least: tree.min(),
            is_number: matches!(tree.parts(), Parts::Leaf(_)),
        }
    }

    /// What is known of a number alone.
    pub fn number(number: u64) -> Child
        ensures { IsChild result (Leaf number) }
    {
        Child {
            least: number,
            is_number: true,
        }
    }

    /// What is known of a node with this number over these two.
    pub fn of_node(number: u64, left: Child, right: Child) -> Child
        requires { number + min left.least right.least < 2 ^ 64 }
        ensures least { result.least ≡ number + min left.least right.least }
        ensures number { result.is_number ≡ false }
    {
        Child {
            least: number + left.least.min(right.least),
            is_number: false,
        }
    }

    /// Whether a node over these two is not normal: neither reaches 0, or both are one number.
    #[inline(always)]
    pub fn is_uneven_beside(self, right: Child) -> bool
        ensures { (one other : EventTree) → IsChild self one → IsChild right other → IsTrue result ↔ IsUnevenOver one other }
    {
        self.least.min(right.least) != 0
            || self.is_number && right.is_number && self.least == right.least
    }
}
