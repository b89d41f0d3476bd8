//! A net in memory: it gives a script, and keeps what is done on it.

ghost use Rattle.std.specs.Prelude.{◌≡◌, ◌⊎◌, ◌↔◌, ◌+◌, ℕ, List, length, false, IfOk, OnOk, OnErr, IsErr, is_ok};
ghost use Rattle.std.specs.Result.{result_ok};
ghost use Rattle.hy_base.specs.Faults.{HasCause};
ghost use Rattle.hy_base.specs.Moves.{Move, listen, dial, send, close, bytes_sent, is_dialled, came, InBuffer};
ghost use Rattle.hy_base.specs.Net.{Calls as AddsCalls, Takes};
ghost use Rattle.hy_base.specs.Script.{next_arrived, rest_behind, rest_of};
ghost use Rattle.hy_base.specs.NetTape.{TellsTape, IsTold, IsFresh, FailsByNumber, FailsCall, calls_of};
ghost use Rattle.hy_base.specs.NetTape.{LeavesTape, TakesNumber};

use crate::arrival::{Arrival, Arrived};
use crate::calls::{Calls, fault};
use crate::failure::{Failed, NoMemory};
use crate::net::Net;
use crate::net_call::NetCall;
use crate::net_script::Script;
use crate::outbox::Outbox;
use std::alloc::Global;

/// A net that gives a script and then Quiet without end, and on which chosen calls fail.
///
/// Dialled connections have the numbers 1, 2, 3 and so on. There is room for so many calls of
/// `listen`, `dial`, `send` and `close`, and for so many bytes that are sent. From the first call on
/// for which it does not suffice each of them fails and none is kept, and the tape no longer tells
/// what happened over it.
#[derive(Debug, Drop)]
pub struct NetTape {
    script: Script,
    outbox: Outbox,
    calls: Calls,
    dialled: u32,
    taking_faults: u64,
    sending_faults: u64,
}

impl NetTape {
    /// Nothing was given or done yet. Memory is reserved for `room` calls and `room` bytes.
    ///
    /// The calls of `listen`, `dial`, `next` and `send` fail whose numbers, counted together from
    /// 1, are in `failing`.
    #[tactic(auto, unfolding(crate::specs::Script::Leaves, crate::specs::NetTape::calls_of, crate::specs::Moves::bytes_sent, crate::specs::Moves::is_dialled, crate::specs::Pieces::bytes_in))]
    pub fn new(
        alloc: Global,
        script: Vec<Arrived>,
        room: usize,
        failing: Vec<u32>,
    ) -> Result<NetTape, NoMemory>
        ensures { IfOk result (IsFresh script.items room failing.items) }
    {
        let outbox = Outbox::new(alloc, room)?;
        Ok(NetTape {
            script: Script::new(script),
            outbox,
            calls: Calls::new(failing),
            dialled: 0,
            taking_faults: 0,
            sending_faults: 0,
        })
    }

    /// The bytes that were sent on the connection.
    pub fn sent(&self, conn: u32) -> &[u8]
        ensures { (moves : List Move) → TellsTape self.now moves
            → result.now ≡ bytes_sent conn moves }
    {
        self.outbox.bytes_on(conn)
    }

    /// The calls of `listen`, `dial`, `send` and `close`, the oldest first.
    pub fn calls(&self) -> &[NetCall]
        ensures { (moves : List Move) → TellsTape self.now moves
            → result.now ≡ calls_of moves }
    {
        self.outbox.calls()
    }
}

impl Net for NetTape {
    ghost told = { IsTold };

    ghost tells = { TellsTape };

    ghost taking_faults = { λ tape. tape.taking_faults };

    ghost sending_faults = { λ tape. tape.sending_faults };

    fn listen(&mut self, port: u16) -> Result<(), Failed>
        ensures tells { AddsCalls IsTold TellsTape self.old self.new (listen port (is_ok result)) }
        ensures cause { HasCause self.old.taking_faults self.new.taking_faults result }
        ensures other { self.new.sending_faults ≡ self.old.sending_faults }
        ensures fails { IsErr result ↔ FailsCall self.old 0 }
        ensures leaves { LeavesTape self.old self.new 0 }
        ensures number { TakesNumber self.old self.new }
        ensures dialled { self.new.dialled ≡ self.old.dialled }
    {
        let fails = self.calls.next_fails();
        if !self.outbox.reserve(0) {
            return Err(fault(&mut self.taking_faults));
        }
        self.outbox.keep(NetCall::Listen { port, done: !fails });
        if fails {
            return Err(fault(&mut self.taking_faults));
        }
        Ok(())
    }

    fn dial(&mut self, port: u16) -> Result<u32, Failed>
        ensures tells { AddsCalls IsTold TellsTape self.old self.new (dial port (result_ok result)) }
        ensures fresh { IfOk result (λ conn. IsTold self.new
            → (before : List Move) → TellsTape self.old before → is_dialled conn before ≡ false) }
        ensures cause { HasCause self.old.sending_faults self.new.sending_faults result }
        ensures other { self.new.taking_faults ≡ self.old.taking_faults }
        ensures fails { IsErr result
            ↔ (FailsCall self.old 0 ⊎ (self.old.dialled ≡ u32.MAX)) }
        ensures next { IfOk result (λ conn. conn ≡ self.old.dialled + 1) }
        ensures dialled { OnOk result (self.new.dialled ≡ self.old.dialled + 1) }
        ensures undialled { OnErr result (self.new.dialled ≡ self.old.dialled) }
        ensures leaves { LeavesTape self.old self.new 0 }
        ensures number { TakesNumber self.old self.new }
    {
        let fails = self.calls.next_fails();
        if !self.outbox.reserve(0) {
            return Err(fault(&mut self.sending_faults));
        }
        if fails || self.dialled == u32::MAX {
            self.outbox.keep(NetCall::Dial { port, number: None });
            return Err(fault(&mut self.sending_faults));
        }
        self.dialled += 1;
        let number = self.dialled;
        self.outbox.keep(NetCall::Dial {
            port,
            number: Some(number),
        });
        Ok(number)
    }

    fn next(&mut self, buf: &mut [u8]) -> Result<Arrival, Failed>
        ensures within { IfOk result (InBuffer (length buf.new)) }
        ensures tells { Takes IsTold TellsTape self.old self.new buf.new result }
        ensures cause { HasCause self.old.taking_faults self.new.taking_faults result }
        ensures other { self.new.sending_faults ≡ self.old.sending_faults }
        ensures fails { IsErr result ↔ FailsByNumber self.old }
        ensures gives { IfOk result (λ arrival. came arrival buf.new
            ≡ next_arrived (length buf.old) (rest_of self.old.script)) }
        ensures rest { OnOk result
            (rest_of self.new.script ≡ rest_behind (length buf.old) (rest_of self.old.script)) }
        ensures unmoved { OnErr result (self.new.script ≡ self.old.script) }
        ensures outbox { self.new.outbox ≡ self.old.outbox }
        ensures number { TakesNumber self.old self.new }
        ensures dialled { self.new.dialled ≡ self.old.dialled }
    {
        if self.calls.next_fails() {
            return Err(fault(&mut self.taking_faults));
        }
        Ok(self.script.give(buf))
    }

    fn send(&mut self, conn: u32, bytes: &[u8]) -> Result<(), Failed>
        ensures tells { AddsCalls IsTold TellsTape self.old self.new
            (send conn bytes.now (is_ok result)) }
        ensures cause { HasCause self.old.sending_faults self.new.sending_faults result }
        ensures other { self.new.taking_faults ≡ self.old.taking_faults }
        ensures fails { IsErr result ↔ FailsCall self.old (length bytes.now) }
        ensures leaves { LeavesTape self.old self.new (length bytes.now) }
        ensures number { TakesNumber self.old self.new }
        ensures dialled { self.new.dialled ≡ self.old.dialled }
    {
        let fails = self.calls.next_fails();
        if !self.outbox.reserve(bytes.len()) {
            return Err(fault(&mut self.sending_faults));
        }
        if fails {
            self.outbox.keep(NetCall::Send {
                conn,
                size: bytes.len(),
                done: false,
            });
            return Err(fault(&mut self.sending_faults));
        }
        self.outbox.send(conn, bytes);
        Ok(())
    }

    fn close(&mut self, conn: u32)
        ensures tells { AddsCalls IsTold TellsTape self.old self.new (close conn) }
        ensures taking { self.new.taking_faults ≡ self.old.taking_faults }
        ensures sending { self.new.sending_faults ≡ self.old.sending_faults }
        ensures leaves { LeavesTape self.old self.new 0 }
        ensures calls { self.new.calls ≡ self.old.calls }
        ensures dialled { self.new.dialled ≡ self.old.dialled }
    {
        if self.outbox.reserve(0) {
            self.outbox.keep(NetCall::Close { conn });
        }
    }
}
