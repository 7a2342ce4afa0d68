//! Which forest a value is of, for clauses alone.
ghost use Rattle.std.specs.Prelude.{◌≡◌};

use crate::Forest;
use boxcar::tag::{Names, Tag};
use std::marker::Model;

/// The home of a forest: clauses know by it which values are of that forest. It has no bytes.
#[derive(Drop)]
pub struct Home {
    tag: Tag,
}

impl Model for Home {
    ghost use Rattle.std.specs.Prelude.{ℕ, List};

    ghost Value = { List ℕ };

    ghost view = { λ h. h.tag.numbers };
}

/// How a home is read off a forest or another home.
struct OfHome;

impl<T> Names<Forest<T>> for OfHome {
    ghost numbers = { λ forest. forest };
}

impl Names<Home> for OfHome {
    ghost numbers = { λ home. home };
}

impl Home {
    /// The home of this forest.
    pub fn of<T>(forest: &Forest<T>) -> Home
        ensures { result ≡ forest.now }
    {
        Home {
            tag: Tag::of::<Forest<T>, OfHome>(forest),
        }
    }

    /// An equal home.
    pub fn again(&self) -> Home
        ensures { result ≡ self.now }
    {
        Home {
            tag: Tag::of::<Home, OfHome>(self),
        }
    }
}
