//! The table that keeps the values, and how a value is found there.
ghost use Rattle.std.specs.Prelude.{◌≡◌, IfOk, IfSome, length};
ghost use Rattle.tree_forest.specs.Homes.{LiesIn};
ghost use Rattle.tree_forest.specs.Kept.{IsOf};

use crate::{Shape, Tree};
use boxcar::Pushed;
use std::alloc::Global;
use std::collections::HashMap;
use std::marker::Model;
use std::sync::{Mutex, Wait};
use trace_types::Memory;

/// How many maps there are, each behind a lock of its own.
const SHARDS: usize = 16;

/// For each digest the row that was last added under it. Until that is known, it is the row that was next.
type Shard = HashMap<u64, usize>;

/// Keeps values for all threads, each in a row that stays as long as the forest.
///
/// A value is found by its digest, in the map of one of 16 shards. A thread holds a shard's lock for one step of its map.
/// It never holds one while it compares, shares or adds values.
#[derive(Drop)]
pub struct Forest<T> {
    table: boxcar::Vec<T>,
    shards: Vec<Mutex<Shard>>,
    alloc: Global,
}

impl<T> Model for Forest<T> {
    ghost use Rattle.std.specs.Prelude.{◌≡◌, ℕ, List, length};
    ghost use Rattle.tree_forest.specs.Homes.{home_of};

    ghost Value = { List ℕ };

    ghost view = { λ f. home_of f.table };

    ghost invariant = { λ f. length f.shards.items ≡ 16 };
}

/// The maps of all digests, without rows. Returns `Memory` if it runs out of memory.
fn empty_shards(alloc: Global) -> Result<Vec<Mutex<Shard>>, Memory>
    ensures { IfOk result (λ shards. length shards.items ≡ 16) }
{
    let mut shards = Vec::with_capacity(alloc, SHARDS)?;
    while shards.len() < SHARDS {
        shards.push(Mutex::new(HashMap::new(alloc)))?;
    }
    Ok(shards)
}

impl<T> Forest<T> {
    /// A row has one value.
    pub(crate) fn agrees(&self, one: &Pushed<T>, other: &Pushed<T>)
        requires one { LiesIn self.now one.now }
        requires other { LiesIn self.now other.now }
        requires row { one.now.index ≡ other.now.index }
        ensures { one.now.value ≡ other.now.value }
    {
        self.table.agrees(one, other);
    }
}

impl<T: Shape + Drop> Forest<T> {
    /// A forest without rows. Returns `Memory` if it runs out of memory.
    ///
    /// No clause says that it has no rows, since the contract of its table tells nothing of what is in it. No body could
    /// add one: it is handed no value, and cannot make one.
    pub fn new(alloc: Global) -> Result<Forest<T>, Memory> {
        Ok(Forest {
            table: boxcar::Vec::new(alloc)?,
            shards: empty_shards(alloc)?,
            alloc,
        })
    }

    /// The tree that keeps the value, in the last row under its digest if that row has this value, else in a new row.
    ///
    /// Equal values may get two numbers, if two threads intern them at once or if another value has their digest. Returns
    /// `Memory` if it runs out of memory or of numbers. Then all earlier rows stand, and one row may have been added.
    pub fn intern<R: Wait>(&self, rt: &R, value: &T) -> Result<Tree<T>, Memory>
        ensures value { IfOk result (λ tree. tree.value ≡ value.now) }
        ensures home { IfOk result (λ tree. IsOf self.now tree) }
    {
        let digest = value.digest();
        let index = self.index_under(rt, digest)?;
        if let Some(tree) = self.found(index, value)? {
            return Ok(tree);
        }
        let row = self.added(rt, value)?;
        if row.index() != index {
            self.remember(rt, digest, row.index())?;
        }
        let kept = self.table.value(&row).share(self.alloc)?;
        Ok(Tree::of(self, self.alloc, kept, row))
    }

    /// The map that has this digest.
    fn shard(&self, digest: u64) -> &Mutex<Shard> {
        &self.shards[(digest % SHARDS as u64) as usize]
    }

    /// The row to which the digest leads. A digest that leads to none leads to the next row from now on, which is that of
    /// the value if no other thread adds a row first.
    #[inline(always)]
    fn index_under<R: Wait>(&self, rt: &R, digest: u64) -> Result<usize, Memory> {
        let next = self.table.count();
        let mut rows = self.shard(digest).lock(rt);
        let entry = rows.entry(digest).map_err(|_| Memory)?;
        Ok(*entry.or_insert(next))
    }

    /// The tree of the row, if the row has this value. It takes no lock.
    fn found(&self, index: usize, value: &T) -> Result<Option<Tree<T>>, Memory>
        ensures value { IfOk result (λ found. IfSome found (λ tree. tree.value ≡ value.now)) }
        ensures home { IfOk result (λ found. IfSome found (λ tree. IsOf self.now tree)) }
    {
        let Some(row) = self.table.witness(index) else {
            return Ok(None);
        };
        let kept = self.table.value(&row);
        if !kept.same(value) {
            return Ok(None);
        }
        let kept = kept.share(self.alloc)?;
        Ok(Some(Tree::of(self, self.alloc, kept, row)))
    }

    /// Adds a row with the value. It takes no lock of a shard.
    fn added<R: Wait>(&self, rt: &R, value: &T) -> Result<Pushed<T>, Memory>
        ensures value { IfOk result (λ row. row.value ≡ value.now) }
        ensures lies { IfOk result (λ row. LiesIn self.now row) }
    {
        let kept = value.share(self.alloc)?;
        self.table.push_shown(rt, kept).map_err(|_| Memory)
    }

    /// Has the digest lead to this row from now on.
    #[inline(never)]
    fn remember<R: Wait>(&self, rt: &R, digest: u64, index: usize) -> Result<(), Memory> {
        self.shard(digest).lock(rt).insert(digest, index)?;
        Ok(())
    }
}
