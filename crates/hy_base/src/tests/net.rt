use crate::*;
use std::test::Fail;

#[test]
fn a_script_is_given_in_parts_and_then_quiet(rt: HostRuntime) -> Result<(), Fail> {
    let mut script = Vec::new(rt.alloc());
    script.push(Arrived::Opened(7))?;
    script.push(Arrived::Bytes(7, Blob::copy_of(rt.alloc(), b"value")?))?;
    script.push(Arrived::Closed(7))?;
    let mut tape = NetTape::new(rt.alloc(), script, 0, vec![in rt.alloc(); 3]?)?;
    let mut buf = [0u8; 3];
    assert!(rt; matches!(tape.next(&mut buf), Ok(Arrival::Opened(7))));
    assert!(rt; matches!(tape.next(&mut buf), Ok(Arrival::Bytes(7, 3))));
    assert_eq!(rt; buf.as_slice(), b"val".as_slice());
    assert!(rt; tape.next(&mut buf).is_err());
    assert!(rt; matches!(tape.next(&mut buf), Ok(Arrival::Bytes(7, 2))));
    assert_eq!(rt; &buf[..2], b"ue".as_slice());
    assert!(rt; matches!(tape.next(&mut buf), Ok(Arrival::Closed(7))));
    assert!(rt; matches!(tape.next(&mut buf), Ok(Arrival::Quiet)));
    assert!(rt; matches!(tape.next(&mut buf), Ok(Arrival::Quiet)));
    Ok(())
}

#[test]
fn a_tape_keeps_calls_and_bytes(rt: HostRuntime) -> Result<(), Fail> {
    let script = Vec::new(rt.alloc());
    let mut tape = NetTape::new(rt.alloc(), script, 7, vec![in rt.alloc(); 2]?)?;
    assert_eq!(rt; tape.listen(7000), Ok(()));
    assert_eq!(rt; tape.dial(7000), Err(Failed));
    assert_eq!(rt; tape.dial(7000), Ok(1));
    assert_eq!(rt; tape.send(9, b"ab"), Ok(()));
    assert_eq!(rt; tape.send(1, b"xyz"), Ok(()));
    assert_eq!(rt; tape.send(9, b"c"), Ok(()));
    tape.close(9);
    assert_eq!(rt; tape.sent(9), b"abc".as_slice());
    assert_eq!(rt; tape.sent(1), b"xyz".as_slice());
    assert_eq!(rt; tape.sent(2), b"".as_slice());
    assert_eq!(rt; tape.calls().len(), 7);
    assert!(rt; tape.calls().last() == Some(&NetCall::Close { conn: 9 }));
    assert_eq!(rt; tape.send(1, b""), Err(Failed));
    assert_eq!(rt; tape.dial(7000), Err(Failed));
    assert_eq!(rt; tape.calls().len(), 7);
    Ok(())
}
