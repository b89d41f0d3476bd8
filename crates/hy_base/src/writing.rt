//! Bytes written whole to a sink.

ghost use Rattle.std.specs.Prelude.{OnOk, OnErr};
ghost use Rattle.std.specs.Io.KnownBytes.{Appends};
ghost use Rattle.hy_base.specs.Faults.{HasCause};
ghost use Rattle.hy_base.specs.Sink.{AppendsFront};

use crate::failure::Failed;
use crate::sink::Sink;

/// A write failed; the sink's count of faults rose.
#[derive(Clone, Copy, Debug, PartialEq, Eq)]
pub struct WriteFault;

impl From<Failed> for WriteFault {
    fn from(_e: Failed) -> WriteFault {
        WriteFault
    }
}

/// Writes all of the bytes, in as many pieces as the sink takes them in.
///
/// It ends at the first write that fails.
pub fn write_all<K: Sink>(sink: &mut K, bytes: &[u8]) -> Result<(), WriteFault>
    ensures cause { HasCause (K.faults sink.old) (K.faults sink.new) result }
    ensures ok { OnOk result (Appends (K.written sink.old) (K.written sink.new) bytes.now) }
    ensures err { OnErr result (AppendsFront (K.written sink.old) (K.written sink.new) bytes.now) }
{
    let mut written = 0;
    while written < bytes.len() {
        written += sink.write(&bytes[written..])?;
    }
    Ok(())
}
