//! Kept values, with their numbers.
ghost use Rattle.std.specs.Prelude.{◌≡◌, IfOk};
ghost use Rattle.tree_forest.specs.Homes.{LiesIn};
ghost use Rattle.tree_forest.specs.Kept.{IsOf};

use crate::{Forest, Mark, Shape};
use boxcar::Pushed;
use std::alloc::Global;
use std::marker::Model;
use trace_types::Memory;

/// A value that a [`Forest`] keeps, with the number of its row.
#[derive(Drop)]
pub struct Tree<T> {
    value: T,
    mark: Mark<T>,
    alloc: Global,
}

impl<T> Model for Tree<T> {
    ghost use Rattle.std.specs.Prelude.{◌≡◌};
    ghost use Rattle.tree_forest.specs.Kept.{Kept, kept_coded};

    ghost Value = { Kept T };

    ghost coded = { kept_coded T.code };

    ghost view = { λ t. t.mark };

    ghost invariant = { λ t. t.value ≡ t.mark.value };
}

impl<T> Tree<T> {
    /// The tree of a row of the forest, whose value is at hand.
    pub(crate) fn of(forest: &Forest<T>, alloc: Global, value: T, row: Pushed<T>) -> Tree<T>
        requires lies { LiesIn forest.now row }
        requires same { value ≡ row.value }
        ensures value { result.value ≡ value }
        ensures home { IsOf forest.now result }
    {
        Tree {
            value,
            mark: Mark::of(forest, row),
            alloc,
        }
    }

    /// The value that is kept.
    pub fn value(&self) -> &T
        ensures { result.now ≡ self.now.value }
    {
        &self.value
    }

    /// The number of the row that keeps the value, from 0. It stays the same as long as the forest.
    pub fn number(&self) -> u64
        ensures { result ≡ self.now.number }
    {
        self.mark.number()
    }

    /// The row that keeps the value.
    pub fn mark(&self) -> &Mark<T>
        ensures { result.now ≡ self.now }
    {
        &self.mark
    }

    /// Two trees of one forest that have one number have one value. It does nothing: it is a law.
    pub fn same_number(&self, forest: &Forest<T>, other: &Tree<T>)
        requires this { IsOf forest.now self.now }
        requires that { IsOf forest.now other.now }
        ensures { self.now.number ≡ other.now.number → self.now.value ≡ other.now.value }
    {
        self.mark.same_number(forest, &other.mark);
    }
}

impl<T: Shape> Tree<T> {
    /// An equal tree, over the same value. Returns `Memory` if the value cannot be shared.
    pub fn share(&self) -> Result<Tree<T>, Memory>
        ensures { IfOk result (λ tree. tree ≡ self.now) }
    {
        Ok(Tree {
            value: self.value.share(self.alloc)?,
            mark: self.mark.again(),
            alloc: self.alloc,
        })
    }
}
