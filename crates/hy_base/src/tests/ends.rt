use crate::*;
use std::io;
use std::io::{Read, Write};
use std::test::Fail;

/// Gives two bytes, fails twice, gives two more and ends.
#[derive(Drop)]
struct Stutter {
    calls: u8,
}

impl Read for Stutter {
    fn read(&mut self, buf: &mut [u8]) -> io::Result<usize> {
        if buf.len() < 2 {
            return Ok(0);
        }
        self.calls = self.calls.saturating_add(1);
        match self.calls {
            1 => buf[..2].copy_from_slice(b"ab"),
            2 | 3 => return Err(io::Error::other("between")),
            4 => buf[..2].copy_from_slice(b"cd"),
            _ => return Ok(0),
        }
        Ok(2)
    }
}

/// Takes nothing, fails, and then takes a byte at a time.
#[derive(Drop)]
struct Reluctant {
    calls: u8,
}

impl Write for Reluctant {
    fn write(&mut self, buf: &[u8]) -> io::Result<usize> {
        self.calls = self.calls.saturating_add(1);
        match self.calls {
            1 => Ok(0),
            2 => Err(io::Error::other("not yet")),
            _ => Ok(buf.len().min(1)),
        }
    }

    fn flush(&mut self) -> io::Result<()> {
        Ok(())
    }
}

#[test]
fn a_reader_that_fails_goes_on(rt: HostRuntime) -> Result<(), Fail> {
    let text: &[u8] = b"from a reader";
    let all = read_all(rt.alloc(), &mut ReadSource::new(text), 100)?;
    assert_eq!(rt; all.bytes(), text);

    let mut source = ReadSource::new(Stutter { calls: 0 });
    assert!(rt; read_all(rt.alloc(), &mut source, 100) == Err(ReadAllFault::ReadFault));
    assert!(rt; read_all(rt.alloc(), &mut source, 100) == Err(ReadAllFault::ReadFault));
    let rest = read_all(rt.alloc(), &mut source, 100)?;
    assert_eq!(rt; rest.bytes(), b"cd".as_slice());
    Ok(())
}

#[test]
fn a_long_piece_is_read_at_once(rt: HostRuntime) -> Result<(), Fail> {
    let text = vec![in rt.alloc(); b'x'; 5_000]?;
    let mut source = ReadSource::new(text.as_slice());
    let mut read = vec![in rt.alloc(); 0u8; 6_000]?;
    assert_eq!(rt; source.read(&mut read), Ok(5_000));
    read.truncate(5_000);
    assert!(rt; read.as_slice() == text.as_slice());
    assert_eq!(rt; source.read(&mut [0]), Ok(0));
    Ok(())
}

#[test]
fn a_writer_that_takes_nothing_fails(rt: HostRuntime) -> Result<(), Fail> {
    let mut bytes = Vec::new(rt.alloc());
    write_all(&mut WriteSink::new(&mut bytes), b"to a writer")?;
    assert_eq!(rt; bytes.as_slice(), b"to a writer".as_slice());

    let mut sink = WriteSink::new(Reluctant { calls: 0 });
    assert_eq!(rt; write_all(&mut sink, b"value"), Err(WriteFault));
    assert_eq!(rt; write_all(&mut sink, b"value"), Err(WriteFault));
    assert_eq!(rt; sink.write(b"value"), Ok(1));
    assert_eq!(rt; write_all(&mut sink, b"value"), Ok(()));
    Ok(())
}

#[test]
fn chosen_calls_in_memory_fail(rt: HostRuntime) -> Result<(), Fail> {
    let bytes = Blob::copy_of(rt.alloc(), b"value")?;
    let mut source = BytesIn::new(bytes, 2, vec![in rt.alloc(); 2]?);
    let mut buf = [0u8; 4];
    for (answer, read) in [
        (Ok(2), b"va".as_slice()),
        (Err(Failed), b"".as_slice()),
        (Ok(2), b"lu".as_slice()),
        (Ok(1), b"e".as_slice()),
        (Ok(0), b"".as_slice()),
    ] {
        assert_eq!(rt; source.read(&mut buf), answer);
        assert!(rt; read.len() <= buf.len());
        assert_eq!(rt; &buf[..read.len()], read);
    }

    let mut sink = BytesOut::new(rt.alloc(), 5, vec![in rt.alloc(); 1]?)?;
    assert_eq!(rt; sink.write(b"abc"), Err(Failed));
    assert_eq!(rt; sink.write(b"abc"), Ok(3));
    assert_eq!(rt; sink.write(b"xyz"), Err(Failed));
    assert_eq!(rt; sink.write(b"xy"), Ok(2));
    assert_eq!(rt; sink.written(), b"abcxy".as_slice());
    Ok(())
}

#[test]
fn a_limit_bounds_what_is_read(rt: HostRuntime) -> Result<(), Fail> {
    for cut in [1, 3, 9] {
        for limit in 0..8 {
            let bytes = Blob::copy_of(rt.alloc(), b"value")?;
            let mut source = BytesIn::new(bytes, cut, Vec::new(rt.alloc()));
            match read_all(rt.alloc(), &mut source, limit) {
                Ok(blob) => {
                    assert!(rt; limit >= 5);
                    assert_eq!(rt; blob.bytes(), b"value".as_slice());
                }
                Err(fault) => {
                    assert!(rt; limit < 5);
                    assert_eq!(rt; fault, ReadAllFault::TooLong);
                }
            }
        }
    }
    Ok(())
}
