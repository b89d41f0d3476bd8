//! Writing a record as bytes.

ghost use Rattle.std.specs.Prelude.{◌≡◌, ◌≤◌, ◌++◌, IfOk, OnOk, length};
ghost use Rattle.std.specs.List.{concat};
ghost use Rattle.byteorder.specs.Endian.{big_bytes};
ghost use Rattle.hy_base.specs.declared.limits.TheConstants.{MAX_RECORD};
ghost use Rattle.hy_record.specs.Record.{IsRecord};
ghost use Rattle.hy_record.specs.Spelling.{SpellsRecord, record_bytes, spelling_size};

use super::Record;
use crate::hash::Hash;
use crate::kind::Kind;
use byteorder::{BigEndian, ByteOrder};
use hy_base::{Blob, NoMemory};
use std::alloc::Global;

/// The version that is written, and the only one that is read.
pub(crate) const VERSION: u8 = 1;

impl Record {
    /// The one spelling of the record.
    pub fn encode(&self, alloc: Global) -> Result<Blob, NoMemory>
        ensures spelling { IfOk result (λ bytes. SpellsRecord bytes self.now) }
        ensures value { IfOk result (λ bytes. bytes ≡ record_bytes self.now) }
        ensures size { IfOk result (λ bytes. length bytes ≡ spelling_size self.now.kind self.now.f self.now.k) }
        ensures short { IfOk result (λ bytes. length bytes ≤ MAX_RECORD) }
    {
        let bytes = self.written(alloc)?;
        Ok(Blob::of(bytes))
    }

    /// The bytes of the spelling, and that the record meets the rules.
    fn written(&self, alloc: Global) -> Result<Vec<u8>, NoMemory>
        ensures value { IfOk result (λ bytes. bytes.items ≡ record_bytes self.now) }
        ensures ruled { OnOk result (IsRecord self.now) }
    {
        let mut out = Vec::new(alloc);
        out.push(VERSION)?;
        out.push(self.kind.byte())?;
        push_u32(&mut out, self.stamp.sn())?;
        push_u32(&mut out, self.stamp.cid())?;
        if self.kind != Kind::Tomb {
            push_u32(&mut out, self.size)?;
            out.push(self.f)?;
            out.push(self.k)?;
            push_u16(&mut out, self.clouds)?;
            push_hashes(&mut out, &self.hashes)?;
        }
        Ok(out)
    }
}

/// Writes the number at the end, highest byte first.
fn push_u32(out: &mut Vec<u8>, number: u32) -> Result<(), NoMemory>
    ensures { OnOk result (out.new.items ≡ out.old.items ++ big_bytes 4 number) }
{
    let mut bytes = [0; 4];
    BigEndian::write_u32(&mut bytes, number);
    out.extend_from_slice(&bytes)?;
    Ok(())
}

/// Writes the number at the end, highest byte first.
fn push_u16(out: &mut Vec<u8>, number: u16) -> Result<(), NoMemory>
    ensures { OnOk result (out.new.items ≡ out.old.items ++ big_bytes 2 number) }
{
    let mut bytes = [0; 2];
    BigEndian::write_u16(&mut bytes, number);
    out.extend_from_slice(&bytes)?;
    Ok(())
}

/// Writes the hashes at the end, one after another.
fn push_hashes(out: &mut Vec<u8>, hashes: &[Hash]) -> Result<(), NoMemory>
    ensures { OnOk result (out.new.items ≡ out.old.items ++ concat hashes.now) }
{
    for hash in hashes {
        out.extend_from_slice(hash.bytes())?;
    }
    Ok(())
}
