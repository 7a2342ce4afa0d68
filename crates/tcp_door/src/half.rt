//! Halves of connections.

use crate::place::Place;
use std::alloc::Global;
use std::io;
use std::io::{Read, Write};
use std::net::TcpStream;
use std::sync::Arc;
use trace_types::Memory;

/// A connection, and the place that it has.
#[derive(Drop)]
struct Connection {
    stream: TcpStream,
    place: Place,
}

/// One half of a connection: what is read from it, or what is written to it. It is closed once both are dropped.
#[derive(Drop)]
pub struct Half {
    connection: Arc<Connection>,
}

impl Half {
    /// Both halves of the connection with this stream, which keeps the place until both are dropped. Returns `Memory`,
    /// and closes the connection, if it runs out of memory.
    pub(crate) fn both(
        alloc: Global,
        stream: TcpStream,
        place: Place,
    ) -> Result<(Half, Half), Memory> {
        let connection = Arc::new(alloc, Connection { stream, place })?;
        let other = Arc::try_clone(&connection)?;
        Ok((Half { connection }, Half { connection: other }))
    }
}

impl Read for Half {
    fn read(&mut self, buffer: &mut [u8]) -> io::Result<usize> {
        let mut stream = &self.connection.stream;
        stream.read(buffer)
    }
}

impl Write for Half {
    fn write(&mut self, bytes: &[u8]) -> io::Result<usize> {
        let mut stream = &self.connection.stream;
        stream.write(bytes)
    }

    fn flush(&mut self) -> io::Result<()> {
        Ok(())
    }
}
