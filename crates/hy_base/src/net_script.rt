//! What comes over a net in memory.

ghost use Rattle.std.specs.Prelude.{◌≡◌, length};
ghost use Rattle.hy_base.specs.Moves.{came, InBuffer};
ghost use Rattle.hy_base.specs.Script.{next_arrived, rest_behind, rest_of};

use crate::arrival::{Arrival, Arrived};

/// Arrivals, of which so many were given, and so many bytes of the next piece.
#[derive(Debug, Drop)]
pub(crate) struct Script {
    all: Vec<Arrived>,
    given: usize,
    inside: usize,
}

impl Script {
    /// Nothing was given yet.
    pub(crate) fn new(all: Vec<Arrived>) -> Script
        ensures rest { rest_of result ≡ all.items }
        ensures all { result.all ≡ all }
    {
        Script {
            all,
            given: 0,
            inside: 0,
        }
    }

    /// The next arrival, of a piece as much as the buffer takes; behind the last one Quiet without end.
    pub(crate) fn give(&mut self, buf: &mut [u8]) -> Arrival
        ensures within { InBuffer (length buf.new) result }
        ensures gives { came result buf.new ≡ next_arrived (length buf.old) (rest_of self.old) }
        ensures rest { rest_of self.new ≡ rest_behind (length buf.old) (rest_of self.old) }
        ensures all { self.new.all ≡ self.old.all }
    {
        let arrival = match self.all.get(self.given) {
            None => return Arrival::Quiet,
            Some(Arrived::Bytes(conn, bytes)) => {
                let from = self.inside.min(bytes.bytes().len());
                let rest = &bytes.bytes()[from..];
                let count = rest.len().min(buf.len());
                buf[..count].copy_from_slice(&rest[..count]);
                if count < rest.len() {
                    self.inside = from + count;
                    return Arrival::Bytes(*conn, count);
                }
                Arrival::Bytes(*conn, count)
            }
            Some(Arrived::Opened(conn)) => Arrival::Opened(*conn),
            Some(Arrived::Closed(conn)) => Arrival::Closed(*conn),
            Some(Arrived::Quiet) => Arrival::Quiet,
        };
        self.given += 1;
        self.inside = 0;
        arrival
    }
}
