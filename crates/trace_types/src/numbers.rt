//! Lists of event numbers.
ghost use Rattle.std.specs.Prelude.{◌≡◌, nat_eq};
ghost use Rattle.std.specs.Cmp.{partial_equiv_from_equiv};
ghost use Rattle.std.specs.Cmp.Lexicographic.{pointwise, nat_list_eq_equiv};

use std::marker::Model;

/// A list of event numbers, each from 1. A contract sees the list.
#[derive(Debug, Drop)]
pub struct Numbers {
    items: Vec<u64>,
}

impl Model for Numbers {
    ghost use Rattle.std.specs.Prelude.{ℕ, List};

    ghost Value = { List ℕ };

    ghost view = { λ n. n.items.items };
}

impl Numbers {
    /// Lends the numbers. It takes no memory.
    pub fn as_slice(&self) -> &[u64]
        ensures { result.now ≡ self.now }
    {
        &self.items
    }
}

impl From<Vec<u64>> for Numbers {
    ghost from_gives = { λ items numbers. numbers ≡ items.items };

    fn from(items: Vec<u64>) -> Numbers {
        Numbers { items }
    }
}

impl PartialEq for Numbers {
    ghost eq = { pointwise nat_eq };

    ghost laws = { partial_equiv_from_equiv nat_list_eq_equiv };

    fn eq(&self, other: &Numbers) -> bool {
        self.as_slice() == other.as_slice()
    }
}

impl Eq for Numbers {
    ghost laws = { nat_list_eq_equiv };
}
