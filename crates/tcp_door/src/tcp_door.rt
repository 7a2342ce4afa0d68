//! Doors over TCP listeners.
ghost use Rattle.std.specs.Prelude.{◌≡◌, ◌+◌, ◌≤◌, IfOk, IfNone, MatchResult, MatchOption, IsTrue, false, if◌then◌else◌};

use crate::Half;
use crate::place::Place;
use line_protocol::{Buffered, FromReader, IntoWriter};
use std::alloc::Global;
use std::io::ErrorKind;
use std::net::{Ipv4Addr, Net, TcpListener, TcpStream};
use std::sync::atomic::AtomicU64;
use std::sync::{Arc, Wait};
use thiserror::Error;
use trace_session::{Door, DoorFault};
use trace_types::Memory;

/// The most connections that are open at once, so that files are left for others.
const MOST_OPEN: u64 = 256;

/// What is read from a connection, and what is written to it.
type Ends = (FromReader<Half>, Buffered<IntoWriter<Half>>);

/// Why there is no door.
#[derive(Clone, Copy, Debug, PartialEq, Eq, Error)]
pub enum DoorRefusal {
    /// The port could not be bound.
    #[error("port")]
    Port,
    /// It ran out of memory.
    #[error("no memory")]
    Memory,
}

/// Gives the connections that are made to one port of 127.0.0.1, and closes after as many as it was opened for.
///
/// At most 256 connections are open at once, and the next one waits until one is closed. A connection is passed over if
/// it was broken off before it could be given, or if it runs out of memory.
#[derive(Drop)]
pub struct TcpDoor {
    listener: TcpListener,
    alloc: Global,
    free: Arc<AtomicU64>,
    most: u64,
    given: u64,
    has_failed: bool,
    ghost within: { given ≤ most },
}

impl TcpDoor {
    /// Listens at this port of 127.0.0.1, for at most `most` connections.
    ///
    /// Returns `Memory` if it runs out of memory, else `Port` if the port cannot be bound.
    pub fn open<R: Net<Listener = TcpListener, Stream = TcpStream>>(
        rt: &R,
        alloc: Global,
        port: u16,
        most: u64,
    ) -> Result<TcpDoor, DoorRefusal>
        ensures { IfOk result (λ door. (door.most ≡ most) × (door.given ≡ 0) × (door.has_failed ≡ false)) }
    {
        let Ok(free) = Arc::new(alloc, AtomicU64::new(MOST_OPEN)) else {
            return Err(DoorRefusal::Memory);
        };
        let Ok(listener) = TcpListener::bind(rt, (Ipv4Addr::LOCALHOST, port)) else {
            return Err(DoorRefusal::Port);
        };
        Ok(TcpDoor {
            listener,
            alloc,
            free,
            most,
            given: 0,
            has_failed: false,
        })
    }

    /// The next connection that can be given.
    fn next_ends<R: Wait>(&self, rt: &R) -> Result<Ends, DoorFault> {
        for _ in rt.forever() {
            let place = Place::take(rt, &self.free).map_err(|_| DoorFault)?;
            match self.listener.accept() {
                Ok((stream, _)) => {
                    if let Ok(ends) = ends_of(self.alloc, stream, place) {
                        return Ok(ends);
                    }
                }
                Err(error) if error.kind() == ErrorKind::ConnectionAborted => {}
                Err(_) => return Err(DoorFault),
            }
        }
        Err(DoorFault)
    }
}

impl Door for TcpDoor {
    type Reader = FromReader<Half>;

    type Writer = Buffered<IntoWriter<Half>>;

    ghost given = { λ door. door.given };

    ghost failures = { λ door. if door.has_failed then 1 else 0 };

    ghost most = { λ door. door.most };

    fn accept<R: Wait>(&mut self, rt: &R) -> Result<Option<Ends>, DoorFault> {
        if self.has_failed || self.given >= self.most {
            return Ok(None);
        }
        match self.next_ends(rt) {
            Ok(ends) => {
                self.given += 1;
                Ok(Some(ends))
            }
            Err(fault) => {
                self.has_failed = true;
                Err(fault)
            }
        }
    }
}

/// The ends of the connection with this stream, which has this place. Replies are short and are waited for, so the system
/// is told to hold none back.
fn ends_of(alloc: Global, stream: TcpStream, place: Place) -> Result<Ends, Memory> {
    let _ = stream.set_nodelay(true);
    let (reader, writer) = Half::both(alloc, stream, place)?;
    let writer = Buffered::new(alloc, IntoWriter::new(writer))?;
    Ok((FromReader::new(reader), writer))
}
