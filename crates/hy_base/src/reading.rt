//! A source read to its end.

ghost use Rattle.std.specs.Prelude.{◌≡◌, ◌≤◌, IfOk, IfSome, IsErrOf, vec_len};
ghost use Rattle.hy_base.specs.Faults.{Rose};
ghost use Rattle.hy_base.specs.Source.{Reading, ReadsText};
ghost use Rattle.hy_base.specs.declared.reading.ReadAllFault.TheVariants as faults;

use crate::blob::Blob;
use crate::failure::{Failed, NoMemory};
use crate::source::Source;
use std::alloc::{AllocError, AllocFailed, Global};

/// Why a source was not read to its end.
#[derive(Clone, Copy, Debug, PartialEq, Eq)]
pub enum ReadAllFault {
    /// A read failed; the source's count of faults rose.
    ReadFault,
    /// A byte past the limit was read.
    TooLong,
    /// Memory ran out.
    NoMemory,
}

impl From<Failed> for ReadAllFault {
    ghost from_gives = { λ _ e. e ≡ faults.ReadFault };

    fn from(_e: Failed) -> ReadAllFault {
        ReadAllFault::ReadFault
    }
}

impl From<NoMemory> for ReadAllFault {
    ghost from_gives = { λ _ e. e ≡ faults.NoMemory };

    fn from(_e: NoMemory) -> ReadAllFault {
        ReadAllFault::NoMemory
    }
}

impl From<AllocError> for ReadAllFault {
    ghost from_gives = { λ _ e. e ≡ faults.NoMemory };

    fn from(_e: AllocError) -> ReadAllFault {
        ReadAllFault::NoMemory
    }
}

impl<T: Drop> From<AllocFailed<T>> for ReadAllFault {
    ghost from_gives = { λ _ e. e ≡ faults.NoMemory };

    fn from(_e: AllocFailed<T>) -> ReadAllFault {
        ReadAllFault::NoMemory
    }
}

/// The most bytes that one read asks for.
const CHUNK: usize = 65_536;

/// Reads a source to its end, as long as it has at most `limit` bytes.
///
/// After a fault the source has lost what was taken until then.
pub fn read_all<S: Source>(alloc: Global, source: &mut S, limit: u64) -> Result<Blob, ReadAllFault>
    ensures taken { Reading (S.left source.old) (S.left source.new) limit result }
    ensures told { IfSome (S.left source.old) (λ text. ReadsText text limit result) }
    ensures stays { S.faults source.old ≤ S.faults source.new }
    ensures rose { IsErrOf result ReadAllFault.ReadFault →
        Rose (S.faults source.old) (S.faults source.new) }
    ensures kept { ¬ IsErrOf result ReadAllFault.ReadFault →
        S.faults source.new ≡ S.faults source.old }
{
    let mut chunk = zeros(alloc, CHUNK)?;
    let mut bytes = Vec::new(alloc);
    loop {
        let count = source.read(&mut chunk)?;
        if count == 0 {
            return Ok(Blob::of(bytes));
        }
        if count as u64 > limit - bytes.len() as u64 {
            return Err(ReadAllFault::TooLong);
        }
        bytes.extend_from_slice(&chunk[..count])?;
    }
}

fn zeros(alloc: Global, count: usize) -> Result<Vec<u8>, AllocError>
    ensures { IfOk result (λ bytes. vec_len bytes ≡ count) }
{
    vec![in alloc; 0u8; count]
}
