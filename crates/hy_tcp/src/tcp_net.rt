//! A net over sockets. It tells nothing but its counts of faults.

ghost use Rattle.std.specs.Prelude.{◌≡◌, IfOk, Ok};
ghost use Rattle.hy_base.specs.Faults.{HasCause};

use crate::sockets::Sockets;
use hy_base::{Arrival, Failed, Net};
use std::alloc::{AllocError, Global};
use std::io;
use std::net::{TcpListener, TcpStream};
use std::rt::Clock;

/// Connections of the loopback, which are read in turn, at most 8,192 at once.
///
/// It is a trusted edge: that bytes arrive as they were sent is the system's to keep.
#[derive(Drop)]
pub struct TcpNet<'a, R: std::net::Net<Listener = TcpListener, Stream = TcpStream> + Clock> {
    rt: &'a R,
    sockets: Sockets,
    taking_faults: u64,
    sending_faults: u64,
}

impl<'a, R: std::net::Net<Listener = TcpListener, Stream = TcpStream> + Clock> TcpNet<'a, R> {
    /// No connection is open. Room is reserved for all that can be.
    pub fn new(rt: &'a R, alloc: Global) -> Result<TcpNet<'a, R>, AllocError> {
        Ok(TcpNet {
            rt,
            sockets: Sockets::new(alloc)?,
            taking_faults: 0,
            sending_faults: 0,
        })
    }
}

/// The answer, with the count raised where it is an error.
fn counted<T>(answer: io::Result<T>, faults: &mut u64) -> Result<T, Failed>
    ensures done { IfOk result (λ done. answer ≡ Ok done) }
    ensures cause { HasCause faults.old faults.new result }
{
    match answer {
        Ok(done) => Ok(done),
        Err(_) => {
            *faults = faults.saturating_add(1);
            Err(Failed)
        }
    }
}

impl<'a, R: std::net::Net<Listener = TcpListener, Stream = TcpStream> + Clock> Net
    for TcpNet<'a, R> {
    ghost told = { λ net. ⊥ };

    ghost tells = { λ net moves. ⊥ };

    ghost taking_faults = { λ net. net.taking_faults };

    ghost sending_faults = { λ net. net.sending_faults };

    fn listen(&mut self, port: u16) -> Result<(), Failed> {
        let answer = self.sockets.listen(self.rt, port);
        counted(answer, &mut self.taking_faults)
    }

    fn dial(&mut self, port: u16) -> Result<u32, Failed> {
        let answer = self.sockets.dial(self.rt, port);
        counted(answer, &mut self.sending_faults)
    }

    fn next(&mut self, buf: &mut [u8]) -> Result<Arrival, Failed> {
        let answer = self.sockets.wait(self.rt, buf);
        counted(answer, &mut self.taking_faults)
    }

    fn send(&mut self, conn: u32, bytes: &[u8]) -> Result<(), Failed> {
        let answer = self.sockets.send(conn, bytes);
        counted(answer, &mut self.sending_faults)
    }

    fn close(&mut self, conn: u32) {
        let _closed = self.sockets.close(conn);
    }
}
