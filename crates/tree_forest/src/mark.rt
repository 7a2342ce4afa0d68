//! Rows of trees, without their values at hand.
ghost use Rattle.std.specs.Prelude.{◌≡◌};
ghost use Rattle.tree_forest.specs.Homes.{LiesIn};
ghost use Rattle.tree_forest.specs.Kept.{IsOf};

use crate::{Forest, Home};
use boxcar::Pushed;
use std::marker::Model;

/// Which row of a [`Forest`] a tree is of. A mark keeps nothing alive. Contracts see a mark as they see the tree.
#[derive(Drop)]
pub struct Mark<T> {
    row: Pushed<T>,
    home: Home,
}

impl<T> Model for Mark<T> {
    ghost use Rattle.tree_forest.specs.Homes.{LiesIn};
    ghost use Rattle.tree_forest.specs.Kept.{Kept, kept_coded};

    ghost Value = { Kept T };

    ghost coded = { kept_coded T.code };

    ghost view = { λ m. record { value = m.row.value; number = m.row.index; home = m.home } };

    ghost invariant = { λ m. LiesIn m.home m.row };
}

impl<T> Mark<T> {
    /// The mark of a row of the forest.
    pub(crate) fn of(forest: &Forest<T>, row: Pushed<T>) -> Mark<T>
        requires { LiesIn forest.now row }
        ensures value { result.value ≡ row.value }
        ensures home { IsOf forest.now result }
    {
        Mark {
            row,
            home: Home::of(forest),
        }
    }

    /// The number of the row, from 0. It stays the same as long as the forest.
    pub fn number(&self) -> u64
        ensures { result ≡ self.now.number }
    {
        self.row.index() as u64
    }

    /// An equal mark.
    pub fn again(&self) -> Mark<T>
        ensures { result ≡ self.now }
    {
        Mark {
            row: self.row.again(),
            home: self.home.again(),
        }
    }

    /// Two marks of one forest that have one number have one value. It does nothing: it is a law.
    pub fn same_number(&self, forest: &Forest<T>, other: &Mark<T>)
        requires this { IsOf forest.now self.now }
        requires that { IsOf forest.now other.now }
        ensures { self.now.number ≡ other.now.number → self.now.value ≡ other.now.value }
    {
        if self.row.index() == other.row.index() {
            forest.agrees(&self.row, &other.row);
        }
    }
}
