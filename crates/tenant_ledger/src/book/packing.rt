//! Ids of a book are packed, where its share can do that.
ghost use Rattle.std.specs.Prelude.{◌≡◌, map, vec_capacity, vec_len};

use super::report::Deed;
use super::{Book, Draft, Report};
use crate::share::{Keep, KeptId};
use std::alloc::Global;

/// The most nodes of ids that a book keeps loose, if it has few events.
const LEAST: u64 = 256;

/// So many events are few.
const FEW_EVENTS: u64 = 512;

/// How many nodes more it keeps loose for each further event, up to as many events as the usual limit allows.
const NODES: u64 = 1;

/// As many events as the usual limit allows.
const USUAL_EVENTS: u64 = 4096;

/// How many nodes more it keeps loose for each event beyond them. They take less than a path of a deep tree.
const MORE_NODES: u64 = 24;

impl<S: Keep> Book<S> {
    /// Has the ids of the report's tasks be there as trees, if there is memory for them. Before that it packs all others, if too
    /// many of their nodes could be given back.
    #[inline(always)]
    pub(super) fn unpack_ids(&mut self, report: &Report)
        ensures { self.new ≡ self.old }
    {
        let acting = report.acting.id;
        let joined = match report.deed {
            Deed::Join(_, _, task) => task.id,
            _ => acting,
        };
        if self.loose > most_loose(self.rows.len() as u64) {
            self.pack_others(acting, joined);
        }
        self.unpack_at(acting);
        if joined != acting {
            self.unpack_at(joined);
        }
    }

    /// Has the id at the place be there as a tree, if there is memory for it.
    #[inline(always)]
    fn unpack_at(&mut self, place: usize)
        ensures { self.new ≡ self.old }
    {
        let made = unpack_in(self.alloc, &mut self.ids, place);
        self.loose = self.loose.saturating_add(made);
    }

    /// The places of the ids that no task has any more once the draft's event is added: those of its task and of the task that it
    /// joins, if the event makes an id.
    #[inline(always)]
    pub(super) fn places_left(&self, draft: &Draft<S>) -> (Option<usize>, Option<usize>) {
        if draft.made.first.is_none() {
            return (None, None);
        }
        let own = match self.tasks.get_index(draft.index) {
            Some((_, task)) => Some(task.id),
            None => None,
        };
        match (&draft.made.second, &draft.named) {
            (None, Some(joined)) => (own, Some(joined.id)),
            _ => (own, None),
        }
    }

    /// Notes that no task has the id at the place any more, if one is given.
    #[inline(always)]
    pub(super) fn retire_at(&mut self, place: Option<usize>)
        ensures { self.new ≡ self.old }
    {
        if let Some(place) = place {
            let given_back = retire_in(&mut self.ids, place);
            self.loose = self.loose.saturating_sub(given_back);
        }
    }

    /// Packs all ids but those at these two places.
    #[inline(never)]
    fn pack_others(&mut self, one: usize, other: usize)
        ensures { self.new ≡ self.old }
    {
        self.loose = 0;
        pack_all_but(self.alloc, &mut self.ids, one, other);
    }
}

/// The most nodes of ids that a book of so many events keeps loose.
#[inline(always)]
fn most_loose(events: u64) -> u64 {
    let further = events.saturating_sub(USUAL_EVENTS);
    NODES
        .saturating_mul((events - further).saturating_sub(FEW_EVENTS))
        .saturating_add(MORE_NODES.saturating_mul(further))
        .saturating_add(LEAST)
}

/// Notes that no task has the id at the place any more, if there is one. It gives how many inner nodes were given back.
#[inline(always)]
fn retire_in<I: KeptId>(ids: &mut Vec<I>, place: usize) -> u64
    ensures ids { map I.id ids.new.items ≡ map I.id ids.old.items }
    ensures len { vec_len ids.new ≡ vec_len ids.old }
    ensures capacity { vec_capacity ids.new ≡ vec_capacity ids.old }
{
    match ids.get_mut(place) {
        Some(id) => id.retire(),
        None => 0,
    }
}

/// Packs all ids but those at these two places.
fn pack_all_but<I: KeptId>(alloc: Global, ids: &mut Vec<I>, one: usize, other: usize)
    ensures ids { map I.id ids.new.items ≡ map I.id ids.old.items }
    ensures len { vec_len ids.new ≡ vec_len ids.old }
    ensures capacity { vec_capacity ids.new ≡ vec_capacity ids.old }
{
    for place in 0..ids.len() {
        if place != one && place != other {
            pack_in(alloc, ids, place);
        }
    }
}

/// Packs the id at the place, if there is one.
#[inline(always)]
fn pack_in<I: KeptId>(alloc: Global, ids: &mut Vec<I>, place: usize)
    ensures ids { map I.id ids.new.items ≡ map I.id ids.old.items }
    ensures len { vec_len ids.new ≡ vec_len ids.old }
    ensures capacity { vec_capacity ids.new ≡ vec_capacity ids.old }
{
    if let Some(id) = ids.get_mut(place) {
        id.pack(alloc);
    }
}

/// Has the id at the place be there as a tree, if there is one, and memory for it. It gives how many inner nodes were made.
#[inline(always)]
fn unpack_in<I: KeptId>(alloc: Global, ids: &mut Vec<I>, place: usize) -> u64
    ensures ids { map I.id ids.new.items ≡ map I.id ids.old.items }
    ensures len { vec_len ids.new ≡ vec_len ids.old }
    ensures capacity { vec_capacity ids.new ≡ vec_capacity ids.old }
{
    match ids.get_mut(place) {
        Some(id) => id.unpack(alloc),
        None => 0,
    }
}
