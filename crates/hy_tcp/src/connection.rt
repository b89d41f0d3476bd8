//! A connection, with what its socket has not taken yet.

ghost use Rattle.std.specs.Prelude.{◌≤◌, IfOk, IfSome, length};

use std::alloc::Global;
use std::io;
use std::io::{ErrorKind, Read, Write};
use std::net::{Shutdown, TcpStream};

/// The most bytes of a connection that wait for its socket; where there would be more, a send fails.
const MAX_UNSENT: usize = 4_194_304;

/// A socket that does not block, and the bytes that it has not taken yet.
#[derive(Drop)]
pub(crate) struct Connection {
    stream: TcpStream,
    unsent: Vec<u8>,
    sent: usize,
}

/// Whether the socket cannot go on now, and is whole.
pub(crate) fn is_waiting(error: &io::Error) -> bool {
    matches!(
        error.kind(),
        ErrorKind::WouldBlock | ErrorKind::TimedOut | ErrorKind::Interrupted
    )
}

impl Connection {
    /// The connection over this socket, which does not block from now on.
    pub(crate) fn over(alloc: Global, stream: TcpStream) -> io::Result<Connection> {
        stream.set_nonblocking(true)?;
        stream.set_nodelay(true)?;
        Ok(Connection {
            stream,
            unsent: Vec::new(alloc),
            sent: 0,
        })
    }

    /// What came, at the front of the buffer; 0 at the end, and nothing where nothing came.
    pub(crate) fn read(&mut self, buf: &mut [u8]) -> io::Result<Option<usize>>
        ensures { IfOk result (λ count. IfSome count (λ count. count ≤ length buf.new)) }
    {
        match self.stream.read(buf) {
            Ok(count) => Ok(Some(count)),
            Err(error) if is_waiting(&error) => Ok(None),
            Err(error) => Err(error),
        }
    }

    /// Sends the bytes, or keeps those that the socket does not take now.
    pub(crate) fn send(&mut self, bytes: &[u8]) -> io::Result<()> {
        if self.has_unsent() {
            return self.keep(bytes);
        }
        match self.stream.write(bytes) {
            Ok(count) => self.keep(&bytes[count..]),
            Err(error) if is_waiting(&error) => self.keep(bytes),
            Err(error) => Err(error),
        }
    }

    /// Keeps the bytes for later.
    fn keep(&mut self, bytes: &[u8]) -> io::Result<()> {
        self.forget_sent();
        if self.unsent.len().saturating_add(bytes.len()) > MAX_UNSENT {
            return Err(io::Error::from(ErrorKind::Other));
        }
        self.unsent.extend_from_slice(bytes)?;
        Ok(())
    }

    /// Moves the bytes that wait to the front.
    fn forget_sent(&mut self) {
        let sent = self.sent.min(self.unsent.len());
        let waiting = self.unsent.len() - sent;
        self.unsent.copy_within(sent.., 0);
        self.unsent.truncate(waiting);
        self.sent = 0;
    }

    /// Whether bytes wait for the socket.
    pub(crate) fn has_unsent(&self) -> bool {
        self.sent < self.unsent.len()
    }

    /// Hands the socket what it takes of the bytes that wait, and tells whether it took any.
    pub(crate) fn flush(&mut self) -> io::Result<bool> {
        let rest = self.unsent.get(self.sent..).unwrap_or(b"");
        if rest.is_empty() {
            return Ok(false);
        }
        let count = match self.stream.write(rest) {
            Ok(count) => count,
            Err(error) if is_waiting(&error) => 0,
            Err(error) => return Err(error),
        };
        self.sent = self.sent.saturating_add(count);
        if !self.has_unsent() {
            self.unsent.clear();
            self.sent = 0;
        }
        Ok(count > 0)
    }

    /// Tells the peer that no more comes.
    pub(crate) fn end(&self) -> io::Result<()> {
        self.stream.shutdown(Shutdown::Write)
    }
}
