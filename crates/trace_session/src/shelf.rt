//! Shelves, on which lies what no session has.
ghost use Rattle.std.specs.Prelude.{◌≡◌, ◌<◌, IfErr, IfOk, IfSome};
ghost use Rattle.trace_session.specs.Belonging.{Belongs, RestOf};
ghost use Rattle.trace_session.specs.Resting.{IsWhole};
ghost use Rattle.trace_session.specs.Shelves.{HasEmpty};

use crate::desk_or_view::Lent;
use crate::owner::Owner;
use crate::shelf_contents::Resting;
use atomic_table::{Play, Refused, Seat, Table, TableRule};
use std::alloc::Global;
use std::sync::Wait;

/// The rule of a shelf: what lies there belongs to the tenant whose shelf it is.
pub(crate) struct Keeping;

impl TableRule<Option<Resting>, Owner, Owner> for Keeping {
    ghost use Rattle.trace_session.specs.Shelves.{KeepsFor};

    ghost holds = { KeepsFor };

    ghost first = { λ owner. owner };
}

/// The step that takes what lies there, if something does.
struct Taking;

impl Play<Option<Resting>, Owner> for Taking {
    ghost use Rattle.trace_session.specs.Shelves.{Takes};

    ghost then = { λ step before found after. Takes before.0 found after };
}

/// The step that puts down what the slot has.
struct Putting;

impl Play<Option<Resting>, Owner> for Putting {
    ghost use Rattle.std.specs.Prelude.{◌≡◌, []};

    ghost then = { λ step before found after. after.1 ≡ [] };
}

/// The turn of a thread: the right to the slot of a shelf, in which nothing lies. Only with it can something be put down.
type Turn = Seat<Option<Resting>, Owner>;

/// Where what rests of one tenant lies, and where it is taken by one thread at a time. The key of its table says whose it is.
///
/// What lies under a lock is known by its type alone. So it lies in a table, whose key is fixed when it is made. The word of
/// the table is the lock: a thread has its turn from when it takes what lies there until it puts it down, and others wait.
/// A shelf cannot be dropped: end it by [`Shelf::into_resting`].
pub(crate) struct Shelf {
    table: Table<Option<Resting>, Owner, Owner, Keeping, Global>,
    ghost words: { table.shared.table_id.words ≡ 1 },
    ghost slots: { table.shared.table_id.slots ≡ 1 },
}

/// The number of the one word and of the one slot.
const SLOT: usize = 0;

/// The word while something lies in the slot.
const THERE: u64 = 0;

/// The word while a thread has it.
const TAKEN: u64 = 1;

/// The word while a thread has it, and others may sleep until it is put down.
const AWAITED: u32 = 2;

impl Shelf {
    /// The shelf of this tenant, whose desk and views lie there. It gives them back if it runs out of memory.
    pub(crate) fn new(alloc: Global, owner: &Owner, resting: Resting) -> Result<Shelf, Resting>
        requires { IsWhole owner.now.limits owner.now.log resting }
        ensures shelf { IfOk result (λ shelf. shelf.table.shared.key ≡ owner.now) }
        ensures back { IfErr result (λ back. back ≡ resting) }
    {
        let Ok(mut slots) = Vec::with_capacity(alloc, 1) else {
            return Err(resting);
        };
        slots.push_reserved(Some(resting));
        match Table::new(alloc, &[THERE], slots, owner) {
            Ok((table, seat)) => {
                // As a badge it can be dropped.
                let _ = seat.into_badge();
                Ok(Shelf { table })
            }
            Err(Refused { mut slots }) => {
                let Some(Some(resting)) = slots.pop() else {
                    unreachable!()
                };
                slots.destroy_empty();
                Err(resting)
            }
        }
    }

    /// Lends a desk or a view, if one lies there.
    pub(crate) fn lend<L: Lent, R: Wait>(&self, rt: &R) -> Option<L>
        ensures { IfSome result (Belongs L.is_sound L.tenant_of L.log_of self.now.table.shared.key) }
    {
        let (mut resting, turn) = self.take(rt);
        let lent = L::take(&mut resting);
        self.put(resting, turn);
        lent
    }

    /// Takes back what was lent.
    pub(crate) fn take_back<L: Lent, R: Wait>(&self, rt: &R, lent: L)
        requires { Belongs L.is_sound L.tenant_of L.log_of self.now.table.shared.key lent }
    {
        let (mut resting, turn) = self.take(rt);
        let other = lent.put(&mut resting);
        self.put(resting, turn);
        if let Some(other) = other {
            other.close(rt);
        }
    }

    /// Takes what lies there. It waits as long as another thread has it.
    fn take<R: Wait>(&self, rt: &R) -> (Resting, Turn)
        ensures rests { RestOf self.now.table.shared.key result.0 }
        ensures turn { (result.1.table_id ≡ self.now.table.shared.table_id) × HasEmpty result.1.me }
    {
        if let Some(taken) = self.take_at_once(TAKEN) {
            return taken;
        }
        for _ in rt.forever() {
            if let Some(taken) = self.take_at_once(AWAITED as u64) {
                return taken;
            }
            self.table.shared.park(rt, SLOT, AWAITED);
        }
        unreachable!()
    }

    /// Takes what lies there, if no other thread has it. The word is then this one, whether it was taken or not.
    #[tactic(auto, using(crate::proofs::Shelves::found_there, crate::proofs::Shelves::left_empty))]
    fn take_at_once(&self, word: u64) -> Option<(Resting, Turn)>
        requires { 0 < word }
        ensures rests { IfSome result (λ taken. RestOf self.now.table.shared.key taken.0) }
        ensures turn { IfSome result (λ taken. (taken.1.table_id ≡ self.now.table.shared.table_id) × HasEmpty taken.1.me) }
    {
        let shared = &self.table.shared;
        let (found, mut turn) = shared.swap_new_seat::<Taking>(SLOT, word);
        if found != THERE {
            // As a badge it can be dropped.
            let _ = turn.into_badge();
            return None;
        }
        let Some(resting) = shared.exchange(&mut turn, SLOT, None) else {
            unreachable!()
        };
        Some((resting, turn))
    }

    /// Puts this down where what was taken lay. It ends the turn, and wakes a thread that sleeps until then.
    #[tactic(auto, using(crate::proofs::Shelves::found_none))]
    fn put(&self, resting: Resting, mut turn: Turn)
        requires rests { RestOf self.now.table.shared.key resting }
        requires turn { (turn.table_id ≡ self.now.table.shared.table_id) × HasEmpty turn.me }
    {
        let shared = &self.table.shared;
        let before = shared.exchange(&mut turn, SLOT, Some(resting));
        let None = before else { unreachable!() };
        let found = shared.swap::<Putting>(&mut turn, SLOT, THERE);
        // As a badge it can be dropped.
        let _ = turn.into_badge();
        if found != TAKEN {
            shared.wake_one(SLOT);
        }
    }

    /// What lies there, when no thread shares the shelf any more.
    pub(crate) fn into_resting(self) -> Option<Resting> {
        let Shelf { table } = self;
        let mut closed = table.close();
        let resting = closed.take(SLOT);
        closed.free();
        resting
    }
}
