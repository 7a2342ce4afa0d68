//! Sessions at once, by workers that are handed connections.
ghost use Rattle.std.specs.Prelude.{◌≡◌, ◌↔◌, ◌+◌, ◌<◌, ◌≤◌, ◌^◌, ◌⊎◌, IfOk, IsErrOf};
ghost use Rattle.trace_session.specs.Serving.{Accepts, IsWorkers};

use crate::queue::Queue;
use crate::{Connection, Door, DoorFault, Gate, Hub, session};
use crossbeam_channel::{Receiver, Sender, unbounded};
use line_protocol::{Sink, Source};
use std::alloc::{AllocError, Global};
use std::sync::{Mutex, Wait};
use std::thread;
use std::thread::{Scope, Threads};
use thiserror::Error;

/// The most workers.
const MOST_WORKERS: usize = 32;

/// The most connections that are accepted.
const MOST_CONNECTIONS: u64 = 1 << 32;

/// What was served.
#[derive(Clone, Copy, Debug, PartialEq, Eq)]
pub struct ServeCounts {
    /// The connections that were handed to the workers.
    pub sessions: u64,
    /// The sessions that ended in a fault.
    pub faults: u64,
}

/// The faults of serving.
#[derive(Clone, Copy, Debug, PartialEq, Eq, Error)]
pub enum ServeFault {
    /// There are to be no workers, or more than 32.
    #[error("bad workers")]
    Workers,
    /// The door failed.
    #[error("accept fault")]
    Door,
    /// The server ran out of memory.
    #[error("no memory")]
    Memory,
}

impl From<DoorFault> for ServeFault {
    ghost use Rattle.std.specs.Prelude.{◌≡◌};
    ghost use Rattle.trace_session.specs.declared.serving.ServeFault.TheVariants.{Door};

    ghost from_gives = { λ _ fault. fault ≡ Door };

    fn from(_fault: DoorFault) -> ServeFault {
        ServeFault::Door
    }
}

impl From<AllocError> for ServeFault {
    ghost use Rattle.std.specs.Prelude.{◌≡◌};
    ghost use Rattle.trace_session.specs.declared.serving.ServeFault.TheVariants.{Memory};

    ghost from_gives = { λ _ fault. fault ≡ Memory };

    fn from(_refused: AllocError) -> ServeFault {
        ServeFault::Memory
    }
}

/// What workers hold sessions in: a hub. What goes to a thread is generic over it, since the proof that it may be sent then asks
/// of a hub no more than `Sync`. With the hub itself that proof would walk through all that a hub has.
trait Hall<T> {
    /// Holds the session of this connection, and says whether it came to its end.
    fn hold<A: Source + Drop, B: Sink + Drop, G: Gate>(
        &self,
        rt: &T,
        alloc: Global,
        connection: Connection<A, B>,
        gate: &G,
    ) -> bool;
}

impl<T: Wait> Hall<T> for Hub {
    fn hold<A: Source + Drop, B: Sink + Drop, G: Gate>(
        &self,
        rt: &T,
        alloc: Global,
        mut connection: Connection<A, B>,
        gate: &G,
    ) -> bool {
        session(rt, alloc, self, &mut connection, gate).is_ok()
    }
}

/// What the workers share.
#[derive(Drop)]
struct Shop<'x, T, H, G, A, B> {
    rt: &'x T,
    alloc: Global,
    hall: &'x H,
    gate: &'x G,
    from: Receiver<Connection<A, B>>,
    faults: Mutex<u64>,
}

impl<'x, T: Wait, H: Hall<T>, G: Gate, A: Source + Drop, B: Sink + Drop> Shop<'x, T, H, G, A, B> {
    /// Holds a session for each connection that comes, until no more can come, and counts those that end in a fault.
    fn work(&self) {
        let mut mine = 0u64;
        for connection in self.from.iter(self.rt) {
            if !self.hall.hold(self.rt, self.alloc, connection, self.gate) {
                mine = mine.saturating_add(1);
            }
        }
        let mut all = self.faults.lock(self.rt);
        *all = all.saturating_add(mine);
    }
}

/// Hands what the door gives to the workers, numbered from 1, until it closes, and tells how many connections that were.
fn accept_all<T: Wait, D: Door>(
    rt: &T,
    door: &mut D,
    queue: &mut Queue<D::Reader, D::Writer>,
) -> Result<u64, ServeFault>
    requires { queue.old ≡ 0 }
    ensures accepts { Accepts D.given D.failures D.most door.old door.new result }
    ensures handed { IfOk result (λ count. queue.new ≡ count) }
{
    for _turn in 0..MOST_CONNECTIONS {
        let Some((reader, writer)) = door.accept(rt)? else {
            break;
        };
        if !queue.hand_on(rt, reader, writer) {
            return Err(ServeFault::Memory);
        }
    }
    Ok(queue.handed())
}

/// Starts the workers, and accepts until the door closes. If a worker cannot be started, it takes no connection and returns
/// `Memory`.
fn start_and_accept<
    's,
    'x,
    'y,
    T: Threads + Wait + Sync,
    H: Hall<T> + Sync,
    D: Door,
    G: Gate + Sync,
>(
    scope: &'s Scope<'s, &'y ()>,
    shop: &'y Shop<'x, T, H, G, D::Reader, D::Writer>,
    door: &mut D,
    workers: usize,
    to: Sender<Connection<D::Reader, D::Writer>>,
) -> Result<u64, ServeFault>
    ensures { Accepts D.given D.failures D.most door.old door.new result }
{
    for _ in 0..workers {
        if let Err(refused) = scope.spawn(move || shop.work()) {
            return Err(AllocError::from(refused).into());
        }
    }
    accept_all(shop.rt, door, &mut Queue::new(to))
}

/// What came of serving at a door. It has the door, since a scope does not tell what became of what it borrows.
struct Served<'d, D> {
    door: &'d mut D,
    sessions: Result<u64, ServeFault>,
}

/// Starts the workers, accepts until the door closes, and waits until all workers have ended.
fn serve_in_scope<'x, 'd, T: Threads + Wait + Sync, H: Hall<T> + Sync, D: Door, G: Gate + Sync>(
    shop: &Shop<'x, T, H, G, D::Reader, D::Writer>,
    door: &'d mut D,
    workers: usize,
    to: Sender<Connection<D::Reader, D::Writer>>,
) -> Served<'d, D>
    ensures same_door { result.door.ghost_name ≡ door.entry.ghost_name }
    ensures accepts { Accepts D.given D.failures D.most door.entry.now result.door.now result.sessions }
{
    thread::scope(
        thread::scope_env(),
        shop.rt,
        move |scope| -> Served<'_, D>
            ensures same_door { result.door.ghost_name ≡ door.entry.ghost_name }
            ensures accepts { Accepts D.given D.failures D.most door.entry.now result.door.now result.sessions }
        {
            let sessions = start_and_accept(scope, shop, door, workers, to);
            Served { door, sessions }
        },
    )
}

/// Accepts connections until the door closes, at most 2^32 of them, and has this many workers hold a session on the hub
/// for each. Sessions are numbered from 1, in the order of their connections. It returns once all workers have ended.
///
/// Returns `Workers` outside 1 to 32, `Door` if the door fails, and `Memory` if it runs out of memory. It also returns
/// `Memory` if a worker cannot be started, and then no connection was taken. Sessions that were begun come to their end
/// first.
pub fn serve<T: Threads + Wait + Sync, D: Door, G: Gate + Sync>(
    rt: &T,
    alloc: Global,
    hub: &Hub,
    door: &mut D,
    workers: usize,
    gate: &G,
) -> Result<ServeCounts, ServeFault>
    ensures sessions { IfOk result (λ counts. D.given door.new ≡ D.given door.old + counts.sessions) }
    ensures most { D.most door.new ≡ D.most door.old }
    ensures closed { D.failures door.old ≡ 0 →
        IfOk result (λ counts. (D.most door.old ≤ D.given door.new) ⊎ (counts.sessions ≡ 2 ^ 32)) }
    ensures workers { IsErrOf result ServeFault.Workers ↔ (IsWorkers workers → ⊥) }
    ensures door { IsErrOf result ServeFault.Door ↔ (D.failures door.old < D.failures door.new) }
    ensures none_taken { IsErrOf result ServeFault.Workers → door.new ≡ door.old }
    // At `Memory` the door was not asked, or a connection was taken that could not be handed on.
    ensures memory { IsErrOf result ServeFault.Memory → (door.new ≡ door.old) ⊎ (D.given door.old < D.given door.new) }
{
    if workers == 0 || workers > MOST_WORKERS {
        return Err(ServeFault::Workers);
    }
    let (to, from) = unbounded(alloc)?;
    let shop = Shop {
        rt,
        alloc,
        hall: hub,
        gate,
        from,
        faults: Mutex::new(0u64),
    };
    let Served { door: _, sessions } = serve_in_scope(&shop, door, workers, to);
    let Shop { faults, .. } = shop;
    Ok(ServeCounts {
        sessions: sessions?,
        faults: faults.into_inner(),
    })
}
