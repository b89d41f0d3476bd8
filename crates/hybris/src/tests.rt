//! The net over sockets, with both ends of a connection at once.

use hy_base::{Arrival, Blob, BytesIn, BytesOut, Net, NoMemory};
use hy_tcp::TcpNet;
use hy_top::Status;
use std::alloc::Global;
use std::test::Fail;
use std::thread;

const PORT: u16 = 7_100;

const PUT: &[u8] =
    b"PUT /o/a/0000000100000001 HTTP/1.1\r\nHost: 127.0.0.1:7100\r\nContent-Length: 3\r\nConnection: close\r\n\r\nabc";

const CREATED: &[u8] = b"HTTP/1.1 201 Created\r\nContent-Length: 0\r\nConnection: close\r\n\r\n";

/// The status of the program that serves a cloud over this net, until 200 arrivals were taken.
fn serve<N: Net>(alloc: Global, net: &mut N) -> Result<Status, NoMemory> {
    let words = ["cloud", "7100", "--arrivals", "200"]
        .iter()
        .map(|word| word.to_string(alloc))
        .try_collect(alloc)?;
    let mut input = BytesIn::new(Blob::of(Vec::new(alloc)), 1, Vec::new(alloc));
    let mut output = BytesOut::new(alloc, 64, Vec::new(alloc))?;
    Ok(hy_top::run(alloc, &words, &mut input, &mut output, net))
}

/// A connection to the cloud, which may not listen yet.
fn dial<N: Net>(net: &mut N) -> Option<u32> {
    for _try in 0..1_000_000 {
        if let Ok(conn) = net.dial(PORT) {
            return Some(conn);
        }
    }
    None
}

/// What the cloud answers to a put, within 200 calls.
fn put<N: Net>(alloc: Global, net: &mut N) -> Result<Vec<u8>, NoMemory> {
    let mut answer = Vec::new(alloc);
    let Some(conn) = dial(net) else {
        return Ok(answer);
    };
    let _sent = net.send(conn, PUT);
    let mut buf = vec![in alloc; 0u8; 4096]?;
    for _call in 0..200 {
        match net.next(&mut buf) {
            Ok(Arrival::Bytes(_, count)) => answer.extend_from_slice(&buf[..count])?,
            Ok(Arrival::Closed(_)) | Err(_) => return Ok(answer),
            Ok(_) => {}
        }
    }
    Ok(answer)
}

#[test]
fn a_cloud_is_put_to_over_sockets(rt: HostRuntime) -> Result<(), Fail> {
    let alloc = rt.alloc();
    let mut cloud = TcpNet::new(&rt, alloc)?;
    let mut client = TcpNet::new(&rt, alloc)?;
    let (status, answer) = thread::join(
        &rt,
        || serve(alloc, &mut cloud),
        || put(alloc, &mut client),
    );
    assert_eq!(rt; status?, Status::Done);
    assert_eq!(rt; answer?.as_slice(), CREATED);
    Ok(())
}
