use crate::{ServeFault, serve_meta};
use hy_base::{Arrived, Blob, NetCall, NetTape};
use std::alloc::Global;
use std::test::Fail;

/// What comes over the net, its bytes in hexadecimal digits.
#[derive(Clone, Copy, Debug, Drop)]
enum Came {
    Opens(u32),
    Says(u32, &'static str),
    Closes(u32),
}

use Came::{Closes, Opens, Says};

const PORT: u16 = 7000;

const JOIN: &str = "0000000101";

const JOINED_1: &str = "000000058100000001";

const JOINED_2: &str = "000000058100000002";

const FULL: &str = "0000000188";

/// Client 1 reads the key `a`, and is told that it has no record.
const READ_1: &str = "0000000b0200000001000000010161";

const NONE_1: &str = "0000000c820000000100000001016100";

/// A net on which this comes, and of which these calls fail.
fn tape(alloc: Global, came: &[Came], failing: &[u32]) -> Result<NetTape, Fail> {
    let mut script = Vec::new(alloc);
    for one in came {
        let arrived = match one {
            Opens(conn) => Arrived::Opened(*conn),
            Says(conn, digits) => Arrived::Bytes(*conn, Blob::of(bytes_of(alloc, digits)?)),
            Closes(conn) => Arrived::Closed(*conn),
        };
        script.push(arrived)?;
    }
    Ok(NetTape::new(alloc, script, 131_072, Vec::from_slice(alloc, failing)?)?)
}

fn bytes_of(alloc: Global, digits: &str) -> Result<Vec<u8>, Fail> {
    let bytes = hex::decode(alloc, digits.as_bytes()).ok();
    Ok(bytes.ok_or("hexadecimal digits")?)
}

/// Serves all that comes.
fn serve(alloc: Global, came: &[Came], failing: &[u32]) -> Result<NetTape, Fail> {
    let mut net = tape(alloc, came, failing)?;
    let arrivals = u32::try_from(came.len()).ok().ok_or("few arrivals")?;
    serve_meta(&mut net, alloc, PORT, arrivals)
        .ok()
        .ok_or("an end in time")?;
    Ok(net)
}

/// Whether these frames were sent on the connection, and no more.
fn sent(alloc: Global, net: &NetTape, conn: u32, frames: &[&str]) -> Result<bool, Fail> {
    let mut bytes = Vec::new(alloc);
    for frame in frames {
        bytes.append(&mut bytes_of(alloc, frame)?)?;
    }
    Ok(net.sent(conn) == bytes.as_slice())
}

/// How often the connection was closed.
fn closes(net: &NetTape, conn: u32) -> usize {
    net.calls()
        .iter()
        .filter(|call| **call == NetCall::Close { conn })
        .count()
}

#[test]
fn a_client_joins_and_reads(rt: HostRuntime) -> Result<(), Fail> {
    let net = serve(rt.alloc(), &[Opens(9), Says(9, JOIN), Says(9, READ_1)], &[])?;
    assert!(rt; sent(rt.alloc(), &net, 9, &[JOINED_1, NONE_1])?);
    assert_eq!(rt;
        net.calls(),
        [
            NetCall::Listen {
                port: PORT,
                done: true
            },
            NetCall::Send {
                conn: 9,
                size: 9,
                done: true
            },
            NetCall::Send {
                conn: 9,
                size: 16,
                done: true
            },
        ]
        .as_slice()
    );
    Ok(())
}

#[test]
fn frames_are_cut_anywhere(rt: HostRuntime) -> Result<(), Fail> {
    let at_once = [
        Opens(9),
        Says(9, "00000001010000000b0200000001000000010161"),
    ];
    let in_pieces = [
        Opens(9),
        Says(9, "000000"),
        Says(9, "01010000000b02000000"),
        Says(9, "01000000010161"),
    ];
    for came in [at_once.as_slice(), in_pieces.as_slice()] {
        let net = serve(rt.alloc(), came, &[])?;
        assert!(rt; sent(rt.alloc(), &net, 9, &[JOINED_1, NONE_1])?);
        assert_eq!(rt; closes(&net, 9), 0);
    }
    Ok(())
}

/// Each of these connections is closed at its last message, behind which nothing is read.
#[test]
fn what_has_no_place_ends_a_connection(rt: HostRuntime) -> Result<(), Fail> {
    for (said, answered) in [
        // A request before it joined.
        (READ_1, ""),
        // It joins twice, and asks in the same piece.
        (
            "000000010100000001010000000b0200000001000000010161",
            JOINED_1,
        ),
        // It asks for another client.
        ("00000001010000000b0200000002000000010161", JOINED_1),
        // It says what only the service says.
        ("0000000101000000058100000001", JOINED_1),
        // A kind that is none, a frame without bytes, and one that is too long.
        ("0000000101000000010f", JOINED_1),
        ("000000010100000000", JOINED_1),
        ("000000010100001001", JOINED_1),
    ] {
        let came = [Opens(9), Says(9, said), Says(9, READ_1), Closes(9)];
        let net = serve(rt.alloc(), &came, &[])?;
        assert!(rt; sent(rt.alloc(), &net, 9, &[answered])?);
        assert_eq!(rt; closes(&net, 9), 1);
    }
    Ok(())
}

#[test]
fn sessions_are_full(rt: HostRuntime) -> Result<(), Fail> {
    let alloc = rt.alloc();
    let mut came = Vec::new(alloc);
    for conn in 1..4098u32 {
        came.push(Opens(conn))?;
        came.push(Says(conn, JOIN))?;
    }
    let net = serve(alloc, &came, &[])?;
    assert!(rt; sent(alloc, &net, 4096, &["000000058100001000"])?);
    assert!(rt; sent(alloc, &net, 4097, &[FULL])?);
    assert_eq!(rt; closes(&net, 4097), 0);

    came.push(Says(4097, JOIN))?;
    came.push(Says(1, READ_1))?;
    let net = serve(alloc, &came, &[])?;
    assert!(rt; sent(alloc, &net, 4097, &[FULL])?);
    assert_eq!(rt; closes(&net, 4097), 1);
    assert!(rt; sent(alloc, &net, 1, &[JOINED_1, NONE_1])?);
    Ok(())
}

/// Client 2 watches the key `a` twice, and client 1 once; then client 2 makes a record of it, and
/// reads the key `b` in the same piece.
const WATCHED: [Came; 8] = [
    Opens(8),
    Says(8, JOIN),
    Opens(9),
    Says(9, JOIN),
    Says(9, "0000001304000000020000000101610000000000000000"),
    Says(9, "0000001304000000020000000201610000000000000000"),
    Says(8, "0000001304000000010000000101610000000000000000"),
    Says(
        9,
        "000000150300000002000000030161010000000001000000020000000b0200000002000000040162",
    ),
];

const FIRED_1: &str = "0000001385000000010000000101610000000000000000";

const APPLIED_2: &str = "0000001383000000020000000301610000000100000002";

const FIRST_FIRED_2: &str = "0000001385000000020000000101610000000000000000";

const SECOND_FIRED_2: &str = "0000001385000000020000000201610000000000000000";

const NONE_2: &str = "0000000c820000000200000004016200";

#[test]
fn news_go_to_their_client(rt: HostRuntime) -> Result<(), Fail> {
    let net = serve(rt.alloc(), &WATCHED, &[])?;
    let told = [JOINED_2, APPLIED_2, FIRST_FIRED_2, SECOND_FIRED_2, NONE_2];
    assert!(rt; sent(rt.alloc(), &net, 8, &[JOINED_1, FIRED_1])?);
    assert!(rt; sent(rt.alloc(), &net, 9, &told)?);
    Ok(())
}

#[test]
fn a_connection_that_fails_is_closed_alone(rt: HostRuntime) -> Result<(), Fail> {
    // The news of client 1.
    let net = serve(rt.alloc(), &WATCHED, &[15])?;
    let told = [JOINED_2, APPLIED_2, FIRST_FIRED_2, SECOND_FIRED_2, NONE_2];
    assert!(rt; sent(rt.alloc(), &net, 8, &[JOINED_1])?);
    assert!(rt; sent(rt.alloc(), &net, 9, &told)?);
    assert_eq!(rt; closes(&net, 8), 1);
    assert_eq!(rt; closes(&net, 9), 0);

    // The answer to client 2, to which nothing more is sent, and of which nothing more is read.
    let net = serve(rt.alloc(), &WATCHED, &[12])?;
    assert!(rt; sent(rt.alloc(), &net, 8, &[JOINED_1, FIRED_1])?);
    assert!(rt; sent(rt.alloc(), &net, 9, &[JOINED_2])?);
    assert_eq!(rt; closes(&net, 8), 0);
    assert_eq!(rt; closes(&net, 9), 1);
    Ok(())
}

#[test]
fn a_number_opens_once(rt: HostRuntime) -> Result<(), Fail> {
    let came = [
        Says(9, JOIN),
        Closes(9),
        Opens(9),
        Says(9, JOIN),
        Opens(9),
        Says(9, READ_1),
        Closes(9),
        Closes(9),
        Opens(9),
        Says(9, JOIN),
        Closes(7),
    ];
    let net = serve(rt.alloc(), &came, &[])?;
    assert!(rt; sent(rt.alloc(), &net, 9, &[JOINED_1, NONE_1])?);
    assert_eq!(rt; closes(&net, 9), 0);
    assert_eq!(rt; closes(&net, 7), 0);
    Ok(())
}

#[test]
fn a_net_that_fails_ends_the_server(rt: HostRuntime) -> Result<(), Fail> {
    for (failing, answer, closed) in [
        (1, Err(ServeFault::NetFault), 0),
        (2, Err(ServeFault::NetFault), 0),
        (3, Err(ServeFault::NetFault), 0),
        (4, Ok(()), 1),
        (5, Err(ServeFault::NetFault), 0),
        (6, Ok(()), 1),
    ] {
        let came = [Opens(9), Says(9, JOIN), Says(9, READ_1)];
        let mut net = tape(rt.alloc(), &came, &[failing])?;
        assert_eq!(rt; serve_meta(&mut net, rt.alloc(), PORT, 3), answer);
        assert_eq!(rt; closes(&net, 9), closed);
    }
    Ok(())
}
