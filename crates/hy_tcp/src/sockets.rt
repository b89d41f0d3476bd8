//! The sockets of a net: a listener, the open connections, and those that are being closed.

ghost use Rattle.std.specs.Prelude.{◌<◌, IfSome, IfOk, length};
ghost use Rattle.hy_base.specs.Moves.{InBuffer};

use crate::connection::Connection;
use crate::pace::Pace;
use hy_base::Arrival;
use std::alloc::{AllocError, Global};
use std::io;
use std::io::ErrorKind;
use std::net::{Ipv4Addr, Net, SocketAddr, SocketAddrV4, TcpListener, TcpStream};
use std::rt::Clock;
use std::time::{Duration, Instant};

/// The most connections that are open at once.
const ROOM: usize = 8_192;

/// The most connections that are being closed at once.
const CLOSING_ROOM: usize = 256;

/// How long a closed connection goes on when its peer takes nothing of what was sent, in microseconds.
/// What the peer sends meanwhile is read, and left.
const LINGER: u128 = 600_000;

/// The bytes of a piece of memory that is larger than any that a server takes for a value.
const LARGE: usize = 32_000_000;

/// How many pieces are read, one after another, before a look whether a peer waits to be accepted.
const READS: u32 = 8;

/// How many passes one wait makes at most.
const PASSES: u32 = 100_000;

/// How long a dial waits for its peer, in milliseconds.
const DIALLING: u64 = 1_000;

/// An open connection by its number.
#[derive(Drop)]
struct Open {
    number: u32,
    connection: Connection,
}

/// A connection that was closed here. It sends what waits, and is read until its peer closes too.
#[derive(Drop)]
struct Closing {
    connection: Connection,
    since: Option<Instant>,
    ended: bool,
    heard: bool,
}

/// Sockets that do not block, which are read in turn, from the place of the next one on. The open ones
/// stand by their numbers.
#[derive(Drop)]
pub(crate) struct Sockets {
    alloc: Global,
    listener: Option<TcpListener>,
    open: Vec<Open>,
    closing: Vec<Closing>,
    next: usize,
    reads: u32,
    given: u32,
    pace: Pace,
}

fn loopback(port: u16) -> SocketAddr {
    SocketAddr::V4(SocketAddrV4::new(Ipv4Addr::new(127, 0, 0, 1), port))
}

/// Has the allocator keep what is freed from now on. It gives memory back to the system beyond a limit
/// that rises with the largest piece ever freed, and a server takes and frees values all the time.
fn keep_freed_memory(alloc: Global) -> Result<(), AllocError> {
    let mut large: Vec<u8> = Vec::with_capacity(alloc, LARGE)?;
    large.push(0)?;
    Ok(())
}

fn unknown() -> io::Error {
    io::Error::from(ErrorKind::Other)
}

impl Sockets {
    /// No socket is open. Room is reserved for as many connections as can be.
    pub(crate) fn new(alloc: Global) -> Result<Sockets, AllocError> {
        keep_freed_memory(alloc)?;
        Ok(Sockets {
            alloc,
            listener: None,
            open: Vec::with_capacity(alloc, ROOM)?,
            closing: Vec::with_capacity(alloc, ROOM)?,
            next: 0,
            reads: 0,
            given: 0,
            pace: Pace::new(),
        })
    }

    /// Takes connections at the port from now on.
    pub(crate) fn listen<R: Net<Listener = TcpListener, Stream = TcpStream>>(
        &mut self,
        rt: &R,
        port: u16,
    ) -> io::Result<()> {
        let listener = TcpListener::bind(rt, loopback(port))?;
        listener.set_nonblocking(true)?;
        self.listener = Some(listener);
        Ok(())
    }

    /// Opens a connection to the port, and answers its number.
    pub(crate) fn dial<R: Net<Listener = TcpListener, Stream = TcpStream>>(
        &mut self,
        rt: &R,
        port: u16,
    ) -> io::Result<u32> {
        if !self.has_room() {
            return Err(unknown());
        }
        self.pace.hurry();
        let patience = Duration::from_millis(DIALLING);
        let stream = TcpStream::connect_timeout(rt, &loopback(port), patience)?;
        self.keep(stream)
    }

    /// Sends the bytes, or keeps those that the socket does not take now.
    pub(crate) fn send(&mut self, number: u32, bytes: &[u8]) -> io::Result<()> {
        match self.place_of(number) {
            Some(place) if place < self.open.len() => self.open[place].connection.send(bytes),
            _ => Err(unknown()),
        }
    }

    /// Sends no more on the connection than waits, and forgets its number.
    pub(crate) fn close(&mut self, number: u32) -> io::Result<()> {
        match self.place_of(number) {
            Some(place) if place < self.open.len() => {
                let connection = self.take_out(place);
                self.finish(Closing::of(connection));
                Ok(())
            }
            _ => Ok(()),
        }
    }

    /// What comes next, or Quiet where nothing comes for some milliseconds.
    pub(crate) fn wait<C: Clock>(&mut self, clock: &C, buf: &mut [u8]) -> io::Result<Arrival>
        ensures { IfOk result (InBuffer (length buf.new)) }
    {
        for _ in 0..PASSES {
            self.flush();
            if let Some(arrival) = self.read_or_accept(buf)? {
                self.pace.came();
                return Ok(arrival);
            }
            if self.pace.is_over(clock) {
                break;
            }
            if self.pace.is_eager(self.open.len()) {
                continue;
            }
            self.pace.rest(clock);
            self.closing.retain_mut(|closing| closing.goes_on(clock));
        }
        Ok(Arrival::Quiet)
    }

    /// A piece of an open connection, or else a new one. A peer that waits to be accepted comes first
    /// where many pieces were read since the last look.
    fn read_or_accept(&mut self, buf: &mut [u8]) -> io::Result<Option<Arrival>>
        ensures { IfOk result (λ found. IfSome found (InBuffer (length buf.new))) }
    {
        let is_late = self.reads >= READS;
        if !is_late {
            if let Some(arrival) = self.read_any(buf) {
                self.reads = self.reads.saturating_add(1);
                return Ok(Some(arrival));
            }
        }
        self.reads = 0;
        match self.accept()? {
            Some(number) => Ok(Some(Arrival::Opened(number))),
            None if is_late => Ok(self.read_any(buf)),
            None => Ok(None),
        }
    }

    /// Numbers the connection over the socket, and keeps it.
    fn keep(&mut self, stream: TcpStream) -> io::Result<u32> {
        let connection = Connection::over(self.alloc, stream)?;
        let number = self.given.checked_add(1).ok_or(unknown())?;
        self.open.push(Open { number, connection })?;
        self.given = number;
        Ok(number)
    }

    fn has_room(&self) -> bool {
        self.open.len() < ROOM && self.given < u32::MAX
    }

    /// The place of the connection of this number.
    fn place_of(&self, number: u32) -> Option<usize> {
        self.open
            .binary_search_by_key(&number, |open| open.number)
            .ok()
    }

    /// The next connection that a peer opened. One that failed at once, or for which there is no room now, is none.
    fn accept(&mut self) -> io::Result<Option<u32>> {
        if !self.has_room() {
            return Ok(None);
        }
        let Some(listener) = &self.listener else {
            return Ok(None);
        };
        match listener.accept() {
            Ok((stream, _peer)) => Ok(self.keep(stream).ok()),
            Err(_) => Ok(None),
        }
    }

    /// The first piece of a pass over the open connections, from the one that is next on.
    fn read_any(&mut self, buf: &mut [u8]) -> Option<Arrival>
        ensures { IfSome result (InBuffer (length buf.new)) }
    {
        for _ in 0..self.open.len() {
            let place = if self.next < self.open.len() {
                self.next
            } else {
                0
            };
            self.next = place.saturating_add(1);
            if let Some(arrival) = self.read_at(place, buf) {
                return Some(arrival);
            }
        }
        None
    }

    /// What came on the connection at the place. One that failed is closed.
    fn read_at(&mut self, place: usize, buf: &mut [u8]) -> Option<Arrival>
        ensures { IfSome result (InBuffer (length buf.new)) }
    {
        if place >= self.open.len() {
            return None;
        }
        let open = &mut self.open[place];
        let number = open.number;
        match open.connection.read(buf) {
            Ok(None) => None,
            Ok(Some(count)) if count > 0 => Some(Arrival::Bytes(number, count)),
            Ok(Some(_)) | Err(_) => {
                let mut closing = Closing::of(self.take_out(place));
                closing.heard = true;
                self.finish(closing);
                Some(Arrival::Closed(number))
            }
        }
    }

    /// Takes the connection out. Those behind it move up, and the next one stays the next.
    fn take_out(&mut self, place: usize) -> Connection
        requires { place < length self.old.«open».items }
    {
        if place < self.next {
            self.next -= 1;
        }
        self.open.remove(place).connection
    }

    /// Sends what waits on a connection that was closed on one side, as long as there is room for such.
    fn finish(&mut self, mut closing: Closing) {
        if self.closing.len() < CLOSING_ROOM && closing.is_taken().is_some() {
            let _kept = self.closing.push(closing);
        }
    }

    /// Hands the sockets what waits for them. A peer that takes some will soon take more.
    fn flush(&mut self) {
        for open in self.open.iter_mut() {
            if matches!(open.connection.flush(), Ok(true)) {
                self.pace.hurry();
            }
        }
        for closing in self.closing.iter_mut() {
            closing.flush();
        }
    }
}

impl Closing {
    /// The connection, from its close on.
    fn of(connection: Connection) -> Closing {
        Closing {
            connection,
            since: None,
            ended: false,
            heard: false,
        }
    }

    /// Sends what waits. Where the peer takes some, its time begins again.
    fn flush(&mut self) {
        if matches!(self.connection.flush(), Ok(true)) {
            self.since = None;
        }
    }

    /// Sends what waits, then ends, and reads until the peer has ended too; whether that is still to be
    /// done, and not too long since the peer took something.
    fn goes_on<C: Clock>(&mut self, clock: &C) -> bool {
        match self.is_taken() {
            Some(true) => self.since = None,
            Some(false) => {}
            None => return false,
        }
        match self.since {
            None => {
                self.since = Instant::now(clock).ok();
                true
            }
            Some(since) => match since.elapsed(clock) {
                Ok(passed) => passed.as_micros() < LINGER,
                Err(_) => false,
            },
        }
    }

    /// Whether the peer took anything; none where the connection is at its end, or failed.
    fn is_taken(&mut self) -> Option<bool> {
        let took = self.connection.flush().ok()?;
        if !self.ended && !self.connection.has_unsent() {
            self.connection.end().ok()?;
            self.ended = true;
        }
        let mut rest = [0u8; 4_096];
        if !self.heard {
            match self.connection.read(&mut rest) {
                Ok(Some(0)) => self.heard = true,
                Ok(_) => {}
                Err(_) => return None,
            }
        }
        if self.ended && self.heard {
            None
        } else {
            Some(took)
        }
    }
}
