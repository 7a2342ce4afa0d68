//! What ledgers keep their ids and trees by.
ghost use Rattle.std.specs.Prelude.{◌≡◌, ℕ, List, IfOk};
ghost use Rattle.trace_types.specs.clock.Id.{Id};
ghost use Rattle.tenant_ledger.specs.IdValues.{id_of};

use event_tree::EvTree;
use id_tree::IdTree;
use std::alloc::Global;
use std::sync::Arc;
use trace_query::{Compare, Meant};
use trace_types::Memory;
use tree_forest::Tree;

/// A value that stands for an id, in whatever form it is kept.
///
/// What is asked of it takes memory only if the id is not kept as a tree.
pub trait KeptId {
    // the id for which it stands
    ghost id: { Self → Id };

    /// The id for which it stands. Returns `Memory` if the tree has to be made and memory runs out, or if no task has the id any
    /// more and it was given back.
    fn tree(&self, alloc: Global) -> Result<IdValue<'_>, Memory>
        ensures { IfOk result (λ value. id_of value ≡ id self.now) };

    /// How many inner nodes of a tree may be given back by [`KeptId::pack`].
    fn loose_nodes(&self) -> u64 {
        0
    }

    /// Keeps the id as a tree from now on, if there is memory for it. It gives how many inner nodes were made.
    fn unpack(&mut self, _alloc: Global) -> u64
        ensures { id self.new ≡ id self.old }
    {
        0
    }

    /// Keeps the id in less memory from now on, if that can be done.
    fn pack(&mut self, _alloc: Global)
        ensures { id self.new ≡ id self.old }
    {}

    /// Notes that no task has the id any more. It gives how many inner nodes were given back.
    fn retire(&mut self) -> u64
        ensures { id self.new ≡ id self.old }
    {
        0
    }
}

/// An id that is kept as a tree.
pub trait MeantId: KeptId {
    /// The id for which it stands. It takes no memory.
    fn id_value(&self) -> &IdTree
        ensures { result.now ≡ Self.KeptId.id self.now };
}

/// The tree of a kept id.
#[derive(Drop)]
pub enum IdValue<'a> {
    /// The tree as it is kept.
    Lent(&'a IdTree),
    /// A tree that was made of what is kept.
    Made(IdTree),
}

impl IdValue<'_> {
    #[inline(always)]
    pub fn as_tree(&self) -> &IdTree
        ensures { result.now ≡ id_of self.now }
    {
        match self {
            IdValue::Lent(id) => id,
            IdValue::Made(id) => id,
        }
    }
}

impl KeptId for IdTree {
    ghost id = { λ id. id };

    #[inline(always)]
    fn tree(&self, _alloc: Global) -> Result<IdValue<'_>, Memory> {
        Ok(IdValue::Lent(self))
    }
}

impl MeantId for IdTree {
    fn id_value(&self) -> &IdTree {
        self
    }
}

impl KeptId for Tree<IdTree> {
    ghost id = { λ tree. tree.value };

    #[inline(always)]
    fn tree(&self, _alloc: Global) -> Result<IdValue<'_>, Memory> {
        Ok(IdValue::Lent(self.value()))
    }
}

impl MeantId for Tree<IdTree> {
    fn id_value(&self) -> &IdTree {
        self.value()
    }
}

/// What a share keeps of ids and event trees. It compares the trees that it keeps. For that it takes no memory, and waits for
/// nobody.
///
/// A share may know more of its trees than what they mean, such as where it holds them. This is their home, which only
/// contracts see. A share without such knowledge gives every tree the empty home.
pub trait Keep: Drop + Compare<<Self as Keep>::Kept> {
    /// What is kept of an event tree.
    type Kept: Meant + Drop;

    /// What is kept of an id.
    type Id: KeptId + Drop;

    // where the trees are that it keeps
    ghost home: { Self → List ℕ };

    // where the kept tree is
    ghost home_of: { Self.Kept → List ℕ };

    // it may be asked about each tree that it keeps
    ghost compares: { (share : Self) (kept : Self.Kept) → home_of kept ≡ home share → Self.Compare.admits share kept };
}

/// Keeps the ids and event trees of ledgers.
///
/// What is kept means what was handed in, whatever else the share holds. A share that takes a lock asks of `R` that it
/// may wait. One that waits for nobody takes any `R`, as `()`.
pub trait Share<R>: Keep {
    /// Keeps an id. Returns `Memory` if it runs out of memory.
    fn keep_id(&self, rt: &R, id: IdTree) -> Result<Self::Id, Memory>
        ensures { IfOk result (λ kept. Self.Id.id kept ≡ id) };

    /// Keeps an event tree in the home of the share's trees. Returns `Memory` if it runs out of memory.
    fn keep_tree(&self, rt: &R, tree: EvTree) -> Result<Self::Kept, Memory>
        ensures tree { IfOk result (λ kept. Self.Kept.tree kept ≡ tree) }
        ensures home { IfOk result (λ kept. Self.home_of kept ≡ Self.home self.now) };
}

/// Keeps as what is behind it does.
impl<S: Keep> Keep for Arc<S> {
    ghost use Rattle.std.specs.Arc.{arc_value};

    type Kept = S::Kept;

    type Id = S::Id;

    ghost home = { λ share. S.home (arc_value share) };

    ghost home_of = { λ kept. S.home_of kept };

    ghost compares = { λ share kept is. S.compares (arc_value share) kept is };
}

impl<R, S: Share<R>> Share<R> for Arc<S> {
    #[inline(always)]
    fn keep_id(&self, rt: &R, id: IdTree) -> Result<S::Id, Memory> {
        S::keep_id(self, rt, id)
    }

    #[inline(always)]
    fn keep_tree(&self, rt: &R, tree: EvTree) -> Result<S::Kept, Memory> {
        S::keep_tree(self, rt, tree)
    }
}
