//! Predecessors of events, stored inline.
ghost use Rattle.std.specs.Prelude.{◌≡◌, ◌≤◌, length, nat_eq};
ghost use Rattle.std.specs.Cmp.{partial_equiv_from_equiv};
ghost use Rattle.std.specs.Cmp.Lexicographic.{pointwise, nat_list_eq_equiv};

use smallvec::SmallVec;
use std::alloc::Global;
use std::marker::Model;

/// The predecessors of an event: at most two event numbers, which are stored inline.
///
/// A contract sees the list.
#[derive(Debug, Drop)]
pub struct Preds {
    events: SmallVec<u64, 2>,
}

impl Model for Preds {
    ghost use Rattle.std.specs.Prelude.{◌≡◌, ℕ, ◌≤◌, List, length};

    ghost Value = { List ℕ };

    ghost view = { λ p. p.events.items };

    ghost invariant = { λ p. length p.events.items ≤ 2 };
}

impl Preds {
    /// The predecessors that are these events, in this order. It takes no memory.
    pub fn of(alloc: Global, events: &[u64]) -> Preds
        requires { length events.now ≤ 2 }
        ensures { result ≡ events.now }
    {
        let events = SmallVec::from_slice(alloc, events).unwrap();
        Preds { events }
    }

    /// The events, in the order in which they were given.
    pub fn as_slice(&self) -> &[u64]
        ensures events { result.now ≡ self.now }
        ensures few { length result.now ≤ 2 }
    {
        self.events.as_slice()
    }

    /// Equal predecessors. It takes no memory.
    pub fn share(&self) -> Preds
        ensures { result ≡ self.now }
    {
        Preds::of(*self.events.allocator(), self.as_slice())
    }
}

impl PartialEq for Preds {
    ghost eq = { pointwise nat_eq };

    ghost laws = { partial_equiv_from_equiv nat_list_eq_equiv };

    fn eq(&self, other: &Preds) -> bool {
        self.as_slice() == other.as_slice()
    }
}

impl Eq for Preds {
    ghost laws = { nat_list_eq_equiv };
}
