//! Records: what the metadata service keeps of a key.

ghost use Rattle.std.specs.Prelude.{◌≡◌, ◌≢◌, ◌<◌, ◌≤◌, ◌↔◌, IsTrue, IsSome, IfOk, All, length};
ghost use Rattle.hy_base.specs.Shape.{IsShape, cloud_count, quorum_size, fragment_size};
ghost use Rattle.hy_record.specs.Stamp.{IsWritten};
ghost use Rattle.hy_record.specs.Hash.{IsHash};
ghost use Rattle.hy_record.specs.Record.{RecordValue, IsRecord, tombstone, kind_of_parts, is_cloud_list, hash_count, hash_of, record_of_value, is_tombstone, is_valid_fragment, IsValidFragment};

use crate::hash::{Hash, sha};
use crate::kind::Kind;
use crate::stamp::Stamp;
use hy_base::{MAX_VALUE, NoMemory, cloud_count, fragment_size};
use std::alloc::Global;
use std::marker::Model;

mod fault;
mod reading;
mod spelling;

pub use fault::RecordFault;

/// When the value of a key was written, and how it lies in the clouds; or that it was deleted.
#[derive(Debug, Drop)]
pub struct Record {
    stamp: Stamp,
    kind: Kind,
    size: u32,
    f: u8,
    k: u8,
    clouds: u16,
    hashes: Vec<Hash>,
}

impl Model for Record {
    ghost use Rattle.hy_record.specs.Record.{RecordValue};

    ghost Value = { RecordValue };

    ghost use Rattle.hy_record.specs.HeldRecord.{value_of, IsHeldRecord};

    ghost view = { value_of };

    ghost invariant = { IsHeldRecord };
}

impl Record {
    /// The record of a deletion.
    pub fn tomb(alloc: Global, stamp: Stamp) -> Result<Record, NoMemory>
        requires { IsWritten stamp }
        ensures { IfOk result (λ r. r ≡ tombstone stamp) }
    {
        Ok(Record::deletion(alloc, stamp))
    }

    /// The record of a deletion, which takes no memory.
    pub fn deletion(alloc: Global, stamp: Stamp) -> Record
        requires { IsWritten stamp }
        ensures { result ≡ tombstone stamp }
    {
        Record {
            stamp: stamp.known(),
            kind: Kind::Tomb,
            size: 0,
            f: 0,
            k: 0,
            clouds: 0,
            hashes: Vec::new(alloc),
        }
    }

    /// The record of a value of so many bytes, which the listed clouds hold: bit i of `clouds` stands for cloud i.
    ///
    /// With one part there is one hash, that of the value; else one for each cloud, that of its fragment.
    pub fn value(
        alloc: Global,
        stamp: Stamp,
        size: u32,
        f: u8,
        k: u8,
        clouds: u16,
        hashes: &[Hash],
    ) -> Result<Record, NoMemory>
        requires written { IsWritten stamp }
        requires size { size ≤ MAX_VALUE }
        requires shape { IsShape f k }
        requires quorum { IsTrue (is_cloud_list f k clouds) }
        requires hashed { length hashes.now ≡ hash_count (kind_of_parts k) f k }
        ensures { IfOk result (λ r. r ≡ record_of_value stamp size f k clouds hashes.now) }
    {
        let hashes = copied(alloc, hashes)?;
        Ok(Record::of_hashes(stamp, size, f, k, clouds, hashes))
    }

    /// The record of a value, as `value` makes it, over hashes that lie in memory already.
    pub fn of_hashes(
        stamp: Stamp,
        size: u32,
        f: u8,
        k: u8,
        clouds: u16,
        hashes: Vec<Hash>,
    ) -> Record
        requires written { IsWritten stamp }
        requires size { size ≤ MAX_VALUE }
        requires shape { IsShape f k }
        requires quorum { IsTrue (is_cloud_list f k clouds) }
        requires hashed { length hashes.items ≡ hash_count (kind_of_parts k) f k }
        requires sizes { All IsHash hashes.items }
        ensures { result ≡ record_of_value stamp size f k clouds hashes.items }
    {
        Record {
            stamp: stamp.known(),
            kind: kind_of_parts(k),
            size,
            f,
            k,
            clouds,
            hashes,
        }
    }

    /// The same record in memory of its own.
    pub fn copy(&self, alloc: Global) -> Result<Record, NoMemory>
        ensures { IfOk result (λ r. r ≡ self.now) }
    {
        let hashes = Vec::from_slice(alloc, &self.hashes)?;
        Ok(Record {
            stamp: self.stamp,
            kind: self.kind,
            size: self.size,
            f: self.f,
            k: self.k,
            clouds: self.clouds,
            hashes,
        })
    }

    /// This record, of which the caller then knows that it meets the rules of a record.
    pub fn known(&self) -> &Record
        ensures same { result.now ≡ self.now }
        ensures ruled { IsRecord result.now }
    {
        let _stamp = self.stamp;
        self
    }

    /// The timestamp of the write.
    pub fn stamp(&self) -> Stamp
        ensures { result ≡ self.now.stamp }
    {
        self.stamp
    }

    /// Whether a value was written, and how it is cut.
    pub fn kind(&self) -> Kind
        ensures { result ≡ self.now.kind }
    {
        self.kind
    }

    /// The bytes of the value; 0 for a deletion.
    pub fn size(&self) -> u32
        ensures { result ≡ self.now.size }
    {
        self.size
    }

    /// The faulty clouds that the store bears; 0 for a deletion.
    pub fn f(&self) -> u8
        ensures { result ≡ self.now.f }
    {
        self.f
    }

    /// The parts of the value; 0 for a deletion.
    pub fn k(&self) -> u8
        ensures { result ≡ self.now.k }
    {
        self.k
    }

    /// The clouds that hold the value, cloud i as bit i; 0 for a deletion.
    pub fn clouds(&self) -> u16
        ensures { result ≡ self.now.clouds }
    {
        self.clouds
    }

    /// The bytes of a fragment; 0 for a deletion.
    pub fn fragment_len(&self) -> u32
        ensures { result ≡ fragment_size self.now.size self.now.k }
    {
        if self.k == 0 {
            return 0;
        }
        fragment_size(self.size, self.k)
    }

    /// The hash of what this cloud holds.
    pub fn hash(&self, i: u8) -> Option<Hash>
        ensures value { result ≡ hash_of self.now i }
        ensures found { IsSome result ↔ (self.now.kind ≢ Kind.Tomb) × (i < cloud_count self.now.f self.now.k) }
    {
        if i >= cloud_count(self.f, self.k) {
            return None;
        }
        match self.kind {
            Kind::Tomb => None,
            Kind::Whole => self.hashes.first().copied(),
            Kind::Coded => self.hashes.get(i as usize).copied(),
        }
    }

    /// Whether the bytes are those that this cloud was given to hold.
    pub fn is_valid(&self, i: u8, bytes: &[u8]) -> bool
        ensures value { result ≡ is_valid_fragment self.now i bytes.now }
        ensures valid { IsTrue result ↔ IsValidFragment self.now i bytes.now }
    {
        self.verifies(i, bytes)
    }

    /// Whether the record has a hash for this cloud, and the bytes have its length and that hash.
    fn verifies(&self, i: u8, bytes: &[u8]) -> bool
        ensures { IsTrue result ↔ IsValidFragment self.now i bytes.now }
    {
        match self.hash(i) {
            Some(hash) => bytes.len() == self.fragment_len() as usize && sha(bytes) == hash,
            None => false,
        }
    }

    /// Whether the record is that of a deletion.
    pub fn is_tomb(&self) -> bool
        ensures { result ≡ is_tombstone self.now.kind }
    {
        match self.kind {
            Kind::Tomb => true,
            Kind::Whole | Kind::Coded => false,
        }
    }
}

/// How a value is cut into so many parts.
fn kind_of_parts(k: u8) -> Kind
    ensures { result ≡ kind_of_parts k }
{
    if k == 1 { Kind::Whole } else { Kind::Coded }
}

impl PartialEq for Record {
    ghost use Rattle.std.specs.Prelude.{◌==◌};
    ghost use Rattle.std.specs.Ordering.{on, eq_of_both};
    ghost use Rattle.hy_record.specs.Spelling.{kind_byte};
    ghost use Rattle.std.specs.Cmp.Lexicographic.{pointwise};
    ghost use Rattle.std.specs.Cmp.Rules.{comparing};
    ghost use Rattle.std.proofs.Common.{rules};

    ghost eq = { eq_of_both (eq_of_both (on (λ r. r.stamp.sn) ◌==◌) (on (λ r. r.stamp.cid) ◌==◌))
        (eq_of_both (on (λ r. kind_byte r.kind) ◌==◌)
        (eq_of_both (on (λ r. r.size) ◌==◌)
        (eq_of_both (on (λ r. r.f) ◌==◌)
        (eq_of_both (on (λ r. r.k) ◌==◌)
        (eq_of_both (on (λ r. r.clouds) ◌==◌)
        (on (λ r. r.hashes) (pointwise (pointwise ◌==◌)))))))) };

    ghost laws = { Prim.search (comparing, rules) depth 14 };

    fn eq(&self, other: &Record) -> bool {
        self.stamp == other.stamp
            && self.kind == other.kind
            && self.size == other.size
            && self.f == other.f
            && self.k == other.k
            && self.clouds == other.clouds
            && self.hashes == other.hashes
    }
}

impl Eq for Record {
    ghost use Rattle.std.specs.Cmp.Rules.{comparing};
    ghost use Rattle.std.proofs.Common.{rules};

    ghost laws = { Prim.search (comparing, rules) depth 14 };
}

/// A copy of the hashes.
fn copied(alloc: Global, hashes: &[Hash]) -> Result<Vec<Hash>, NoMemory>
    ensures same { IfOk result (λ copy. copy.items ≡ hashes.now) }
    ensures sizes { IfOk result (λ copy. All IsHash copy.items) }
{
    let mut copy = Vec::new(alloc);
    for hash in hashes {
        copy.push(hash.known())?;
    }
    Ok(copy)
}
