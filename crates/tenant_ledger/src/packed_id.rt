//! Ids that are kept in few bytes.
ghost use Rattle.std.specs.Prelude.{◌≡◌, ◌++◌, IfOk, OnOk};
ghost use Rattle.tenant_ledger.specs.Packing.{id_of_nodes, packed, with_node};

use crate::share::{IdValue, KeptId};
use id_tree::{IdTree, Parts};
use std::alloc::Global;
use std::collections::VecDeque;
use std::marker::Model;
use std::mem;
use std::snapshot::Snapshot;
use trace_types::Memory;

/// An id that is kept as a tree or packed, as it is asked for. Contracts see the id.
#[derive(Drop)]
pub struct PackedId {
    form: Form,
}

/// How an id is kept.
#[derive(Drop)]
pub(crate) enum Form {
    Tree(IdTree),
    /// The nodes of its tree, each pair behind its halves. A node takes a byte, and a half that is nothing beside one that is
    /// not takes none.
    Packed(Vec<PackedNode>),
    /// Nothing, since no task has the id any more. Proofs alone see it.
    Retired(Snapshot<IdTree>),
}

/// A node of a packed id.
#[derive(Clone, Copy)]
pub(crate) enum PackedNode {
    Zero,
    One,
    /// The pair of the id before it and nothing.
    Left,
    /// The pair of nothing and the id before it.
    Right,
    /// The pair of the two ids before it.
    Pair,
}

impl Model for PackedId {
    ghost use Rattle.trace_types.specs.clock.Id.{Id};
    ghost use Rattle.id_tree.specs.IdCode.{id_code};
    ghost use Rattle.tenant_ledger.specs.Packing.{id_of_form};

    ghost Value = { Id };

    ghost coded = { id_code };

    ghost view = { λ id. id_of_form id.form };
}

impl PackedId {
    /// The id, as a tree.
    pub(crate) fn new(id: IdTree) -> PackedId
        ensures { result ≡ id }
    {
        PackedId {
            form: Form::Tree(id),
        }
    }
}

impl KeptId for PackedId {
    ghost id = { λ id. id };

    fn tree(&self, alloc: Global) -> Result<IdValue<'_>, Memory> {
        match &self.form {
            Form::Tree(id) => Ok(IdValue::Lent(id)),
            Form::Packed(nodes) => Ok(IdValue::Made(unpacked(alloc, nodes)?)),
            Form::Retired(_) => Err(Memory),
        }
    }

    fn loose_nodes(&self) -> u64 {
        match &self.form {
            Form::Tree(id) => id.inner(),
            Form::Packed(_) | Form::Retired(_) => 0,
        }
    }

    fn unpack(&mut self, alloc: Global) -> u64 {
        if let Form::Packed(nodes) = &self.form
            && let Ok(id) = unpacked(alloc, nodes)
        {
            let made = nodes.len() as u64;
            self.form = Form::Tree(id);
            return made;
        }
        0
    }

    fn pack(&mut self, alloc: Global) {
        let nodes = match &self.form {
            Form::Tree(id) => packed(alloc, id),
            Form::Packed(_) | Form::Retired(_) => return,
        };
        if let Ok(nodes) = nodes {
            self.form = Form::Packed(nodes);
        }
    }

    fn retire(&mut self) -> u64 {
        let (shown, given_back) = match &self.form {
            Form::Tree(id) => (Snapshot::of(id), id.inner()),
            Form::Packed(_) | Form::Retired(_) => return 0,
        };
        self.form = Form::Retired(shown);
        given_back
    }
}

/// The nodes of the id, each pair behind its halves.
fn packed(alloc: Global, id: &IdTree) -> Result<Vec<PackedNode>, Memory>
    ensures { IfOk result (λ nodes. id_of_nodes nodes.items ≡ id.now) }
{
    // For the proof: it says that the id is normal.
    let _parts = id.parts();
    let mut nodes = Vec::new(alloc);
    nodes.reserve_exact(packed_len(id))?;
    push_packed(id, &mut nodes)?;
    Ok(nodes)
}

/// How many nodes the packed id has.
fn packed_len(id: &IdTree) -> usize {
    match id.parts() {
        Parts::Zero | Parts::One => 1,
        Parts::Pair(half, other) | Parts::Pair(other, half) if other.is_zero() => {
            packed_len(half).saturating_add(1)
        }
        Parts::Pair(left, right) => packed_len(left)
            .saturating_add(packed_len(right))
            .saturating_add(1),
    }
}

/// Adds the nodes of the id.
fn push_packed(id: &IdTree, nodes: &mut Vec<PackedNode>) -> Result<(), Memory>
    ensures { OnOk result (nodes.new.items ≡ nodes.old.items ++ packed id.now) }
{
    match id.parts() {
        Parts::Zero => nodes.push(PackedNode::Zero)?,
        Parts::One => nodes.push(PackedNode::One)?,
        Parts::Pair(left, right) if right.is_zero() => {
            push_packed(left, nodes)?;
            nodes.push(PackedNode::Left)?;
        }
        Parts::Pair(left, right) if left.is_zero() => {
            push_packed(right, nodes)?;
            nodes.push(PackedNode::Right)?;
        }
        Parts::Pair(left, right) => {
            push_packed(left, nodes)?;
            push_packed(right, nodes)?;
            nodes.push(PackedNode::Pair)?;
        }
    }
    Ok(())
}

/// The id of which these are the nodes. It goes over them once, and keeps the ids that are not yet in a pair.
fn unpacked(alloc: Global, nodes: &[PackedNode]) -> Result<IdTree, Memory>
    ensures { IfOk result (λ id. id ≡ id_of_nodes nodes.now) }
{
    let mut ids = VecDeque::new(alloc);
    for node in nodes.iter() {
        add_node(alloc, &mut ids, *node)?;
    }
    Ok(ids.pop_front().unwrap_or(IdTree::zero()))
}

/// Adds a node to the ids before it, of which a pair takes two.
fn add_node(alloc: Global, ids: &mut VecDeque<IdTree>, node: PackedNode) -> Result<(), Memory>
    ensures { OnOk result (ids.new.items ≡ with_node node ids.old.items) }
{
    let id = match node {
        PackedNode::Zero => IdTree::zero(),
        PackedNode::One => IdTree::one(),
        PackedNode::Left => {
            let left = ids.pop_front().unwrap_or(IdTree::zero());
            IdTree::fork(alloc, left, IdTree::zero())?
        }
        PackedNode::Right => {
            let right = ids.pop_front().unwrap_or(IdTree::zero());
            IdTree::fork(alloc, IdTree::zero(), right)?
        }
        PackedNode::Pair => {
            let right = ids.pop_front().unwrap_or(IdTree::zero());
            let left = ids.pop_front().unwrap_or(IdTree::zero());
            IdTree::fork(alloc, left, right)?
        }
    };
    ids.push_front(id)?;
    Ok(())
}
