//! Serving the metadata of a store over a net.

ghost use Rattle.std.specs.Prelude.{◌≡◌, ◌≤◌, ◌∷◌, [], ℕ, Some, IsErrOf};
ghost use Rattle.hy_base.specs.Faults.{Rose};
ghost use Rattle.hy_base.specs.Net.{Adds};
ghost use Rattle.hy_serve.specs.MetaRole.{ServesMeta};
ghost use Rattle.hy_serve.specs.MetaStanding.{requests_for, requests_in, request_for, weight_at};
ghost use Rattle.hy_serve.specs.MetaPlaying.{Makes, MakesFirst, ReadsAll};
ghost use Rattle.hy_serve.specs.declared.fault.ServeFault.TheVariants as faults;

use crate::fault::ServeFault;
use crate::letter::{Letter, Turn};
use crate::meta_server::MetaServer;
use crate::room::buffer;
use hy_base::{Net, NoMemory};
use std::alloc::Global;

/// Serves the metadata of a store at this port, until so many arrivals were taken.
///
/// The first message of a connection must ask for a session, and each later one be a request of the
/// client that got it; a connection on which anything else comes is closed, and so is one on which an
/// answer could not be sent. Each answer goes to the open connection of its client, if there is one.
pub fn serve_meta<N: Net>(
    net: &mut N,
    alloc: Global,
    port: u16,
    arrivals: u32,
) -> Result<(), ServeFault>
    ensures plays { Adds N.told N.tells net.old net.new (ServesMeta port arrivals result) }
    ensures fault { IsErrOf result faults.NetFault
        → Rose (N.taking_faults net.old) (N.taking_faults net.new) }
    ensures kept { ¬ IsErrOf result faults.NetFault
        → N.taking_faults net.new ≡ N.taking_faults net.old }
{
    let mut buf = buffer(alloc)?;
    serve_over(net, alloc, port, arrivals, &mut buf)
}

/// The same, with room for a piece.
fn serve_over<N: Net>(
    net: &mut N,
    alloc: Global,
    port: u16,
    arrivals: u32,
    buf: &mut [u8],
) -> Result<(), ServeFault>
    ensures plays { Adds N.told N.tells net.old net.new (ServesMeta port arrivals result) }
    ensures fault { IsErrOf result faults.NetFault
        → Rose (N.taking_faults net.old) (N.taking_faults net.new) }
    ensures kept { ¬ IsErrOf result faults.NetFault
        → N.taking_faults net.new ≡ N.taking_faults net.old }
{
    let mut server = MetaServer::new(alloc)?;
    net.listen(port)?;
    for _taken in 0..arrivals {
        let arrival = net.next(buf)?;
        let reading = server.take(alloc, arrival, buf)?;
        read_all(net, alloc, &mut server, reading)?;
    }
    Ok(())
}

/// Reads all that came on the connection, if there is one that is to be read.
fn read_all<N: Net>(
    net: &mut N,
    alloc: Global,
    server: &mut MetaServer,
    reading: Option<u32>,
) -> Result<(), NoMemory>
    ensures plays { Adds N.told N.tells net.old net.new
        (ReadsAll server.old server.new reading result) }
    ensures taking { N.taking_faults net.new ≡ N.taking_faults net.old }
{
    match reading {
        Some(conn) => read_on(net, alloc, server, conn),
        None => Ok(()),
    }
}

/// Reads the messages that came on the connection, and does after each what is due.
fn read_on<N: Net>(
    net: &mut N,
    alloc: Global,
    server: &mut MetaServer,
    conn: u32,
) -> Result<(), NoMemory>
    ensures plays { Adds N.told N.tells net.old net.new
        (ReadsAll server.old server.new (Some conn) result) }
    ensures taking { N.taking_faults net.new ≡ N.taking_faults net.old }
{
    'messages: loop {
        let turn = server.turn(alloc, conn)?;
        if let Turn::Rests = turn {
            return Ok(());
        }
        carry_out(net, server, conn, turn);
    }
}

/// Does what is due.
fn carry_out<N: Net>(net: &mut N, server: &mut MetaServer, conn: u32, turn: Turn)
    ensures plays { Adds N.told N.tells net.old net.new
        (Makes server.old server.new (requests_in conn turn) []) }
    ensures taking { N.taking_faults net.new ≡ N.taking_faults net.old }
    ensures lighter { (c : ℕ) → weight_at server.new c ≤ weight_at server.old c }
{
    match turn {
        Turn::Rests => {}
        Turn::Closes => net.close(conn),
        Turn::Sends(letters) => send_all(net, server, &letters),
    }
}

/// Sends each, where its connection is still open.
fn send_all<N: Net>(net: &mut N, server: &mut MetaServer, letters: &[Letter])
    ensures plays { Adds N.told N.tells net.old net.new
        (Makes server.old server.new (requests_for letters.now) []) }
    ensures taking { N.taking_faults net.new ≡ N.taking_faults net.old }
    ensures lighter { (c : ℕ) → weight_at server.new c ≤ weight_at server.old c }
{
    for letter in letters {
        send_one(net, server, letter);
    }
}

/// Sends it, where its connection is still open, and closes the connection if that fails.
fn send_one<N: Net>(net: &mut N, server: &mut MetaServer, letter: &Letter)
    ensures plays { Adds N.told N.tells net.old net.new
        (MakesFirst server.old server.new (request_for letter.now)) }
    ensures taking { N.taking_faults net.new ≡ N.taking_faults net.old }
    ensures lighter { (c : ℕ) → weight_at server.new c ≤ weight_at server.old c }
{
    if !server.is_open(letter.conn) {
        return;
    }
    match net.send(letter.conn, letter.bytes.bytes()) {
        Ok(()) => {}
        Err(_failed) => {
            server.close(letter.conn);
            net.close(letter.conn);
        }
    }
}
