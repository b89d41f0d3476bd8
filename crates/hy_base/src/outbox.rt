//! What was done on a net in memory: the calls, and the bytes that were sent.

ghost use Rattle.std.specs.Prelude.{◌≡◌, ◌+◌, ◌==◌, ℕ, length, ◌++◌, ◌∷◌, [], IsTrue, IfOk, true, not, if◌then◌else◌};
ghost use Rattle.hy_base.specs.declared.net_call.NetCall.TheVariants as kept;
ghost use Rattle.hy_base.specs.Outbox.{bytes_on, fresh_outbox, has_room};

use crate::failure::NoMemory;
use crate::net_call::NetCall;
use crate::pieces::Pieces;
use std::alloc::Global;
use std::marker::Model;

/// The calls in order, and the bytes that were sent, with room for so many of each. No call takes memory.
#[derive(Debug, Drop)]
pub(crate) struct Outbox {
    calls: Vec<NetCall>,
    pieces: Pieces,
    room: usize,
    overrun: bool,
}

impl Model for Outbox {
    ghost use Rattle.hy_base.specs.Outbox.{Done, IsReserved};

    ghost Value = { Done };

    ghost view = { λ outbox. record {
      calls = outbox.calls.items;
      bytes = outbox.pieces.bytes.items;
      runs = outbox.pieces.runs.items;
      room = outbox.room;
      overrun = outbox.overrun;
    } };

    ghost invariant = { λ outbox. IsReserved outbox.calls outbox.pieces outbox.room };
}

impl Outbox {
    /// Nothing was done yet.
    #[tactic(auto, unfolding(crate::specs::Pieces::total))]
    pub(crate) fn new(alloc: Global, room: usize) -> Result<Outbox, NoMemory>
        ensures { IfOk result (λ outbox. outbox ≡ fresh_outbox room) }
    {
        let calls = Vec::with_capacity(alloc, room)?;
        let bytes = Vec::with_capacity(alloc, room)?;
        let runs = Vec::with_capacity(alloc, room)?;
        Ok(Outbox {
            calls,
            pieces: Pieces { bytes, runs },
            room,
            overrun: false,
        })
    }

    /// Whether there is room for a call that sends so many bytes; if not, there is none from now on.
    pub(crate) fn reserve(&mut self, size: usize) -> bool
        ensures room { result ≡ has_room self.old size }
        ensures after { self.new ≡ record self.old { overrun = not result } }
    {
        let fits = !self.overrun
            && self.calls.len() < self.room
            && size <= self.room.saturating_sub(self.pieces.bytes.len());
        self.overrun = !fits;
        fits
    }

    /// Keeps a call.
    pub(crate) fn keep(&mut self, call: NetCall)
        requires { IsTrue (has_room self.old 0) }
        ensures { self.new ≡ record self.old { calls = self.old.calls ++ call ∷ [] } }
    {
        self.calls.push_reserved(call);
    }

    /// Keeps that the piece was sent on the connection.
    pub(crate) fn send(&mut self, conn: u32, piece: &[u8])
        requires { IsTrue (has_room self.old (length piece.now)) }
        ensures calls { self.new.calls
            ≡ self.old.calls ++ kept.Send conn (length piece.now) true ∷ [] }
        ensures bytes { (c : ℕ) → bytes_on self.new c
            ≡ bytes_on self.old c ++ (if conn == c then piece.now else []) }
        ensures size { length self.new.bytes ≡ length self.old.bytes + length piece.now }
        ensures room { self.new.room ≡ self.old.room }
        ensures overrun { self.new.overrun ≡ self.old.overrun }
    {
        self.pieces.add(conn, piece);
        self.calls.push_reserved(NetCall::Send {
            conn,
            size: piece.len(),
            done: true,
        });
    }

    /// The calls, the oldest first.
    pub(crate) fn calls(&self) -> &[NetCall]
        ensures { result.now ≡ self.now.calls }
    {
        &self.calls
    }

    /// The bytes that were sent on the connection.
    pub(crate) fn bytes_on(&self, conn: u32) -> &[u8]
        ensures { result.now ≡ bytes_on self.now conn }
    {
        self.pieces.of(conn)
    }
}
