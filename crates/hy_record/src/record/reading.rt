//! Reading a record from bytes.

ghost use Rattle.std.specs.Prelude.{◌≡◌, ◌≢◌, ◌≤◌, ◌*◌, Ok, IfOk, IfErr, All, length};
ghost use Rattle.hy_record.specs.Stamp.{IsWritten};
ghost use Rattle.std.specs.List.{concat};
ghost use Rattle.hy_record.specs.Hash.{IsHash, HASH_SIZE};
ghost use Rattle.hy_record.specs.Record.{RecordValue, is_cloud_list};
ghost use Rattle.hy_record.specs.Spelling.{SpellsRecord};
ghost use Rattle.hy_record.specs.Reading.{Gives, GivesExactly, IsValueLayout, IsLayout, number_at, version_at, kind_at, stamp_at, value_layout_at, layout_at, fields_at, ended_at, record_of};

use super::Record;
use super::fault::RecordFault;
use crate::hash::Hash;
use crate::kind::Kind;
use crate::stamp::Stamp;
use byteorder::{BigEndian, ByteOrder};
use hy_base::{MAX_F, MAX_K, MAX_VALUE, NoMemory, SN_END, cloud_count, quorum_size};
use std::alloc::Global;

impl Record {
    /// The record that the bytes spell, all of the bytes.
    pub fn decode(alloc: Global, bytes: &[u8]) -> Result<Record, RecordFault>
        // What is read is spelled so.
        ensures found { IfOk result (λ r. SpellsRecord bytes.now r) }
        // What is spelled so is read, unless memory runs out.
        ensures only { (r : RecordValue) → SpellsRecord bytes.now r → Gives (λ v. v) result (Ok r) }
        // A fault is the first in order of place.
        ensures exact { Gives (λ r. r) result (record_of bytes.now) }
        // Memory is taken for a record alone, once nothing is at fault.
        ensures refused { IfErr (record_of bytes.now) (λ fault. result ≡ Err fault) }
    {
        whole_of(alloc, bytes)
    }
}

/// How a value lies in the clouds.
#[derive(Clone, Copy)]
pub(crate) struct Layout {
    size: u32,
    f: u8,
    k: u8,
    clouds: u16,
}

/// What all fields but the hashes say.
#[derive(Clone, Copy)]
pub(crate) struct Fields {
    kind: Kind,
    stamp: Stamp,
    layout: Layout,
}

/// The number in the first four bytes, and the bytes after it.
fn u32_at(whole: usize, bytes: &[u8]) -> Result<(u32, &[u8]), RecordFault>
    ensures { GivesExactly (λ x. (x.0, x.1.now)) result (number_at 4 whole bytes.now) }
{
    if bytes.len() < 4 {
        return Err(RecordFault::Short(whole));
    }
    let (front, rest) = bytes.split_at(4);
    Ok((BigEndian::read_u32(front), rest))
}

/// The number in the first two bytes, and the bytes after it.
fn u16_at(whole: usize, bytes: &[u8]) -> Result<(u16, &[u8]), RecordFault>
    ensures { GivesExactly (λ x. (x.0, x.1.now)) result (number_at 2 whole bytes.now) }
{
    if bytes.len() < 2 {
        return Err(RecordFault::Short(whole));
    }
    let (front, rest) = bytes.split_at(2);
    Ok((BigEndian::read_u16(front), rest))
}

/// The first byte, and the bytes after it.
fn u8_at(whole: usize, bytes: &[u8]) -> Result<(u8, &[u8]), RecordFault>
    ensures { GivesExactly (λ x. (x.0, x.1.now)) result (number_at 1 whole bytes.now) }
{
    match bytes {
        [] => Err(RecordFault::Short(whole)),
        [byte, rest @ ..] => Ok((*byte, rest)),
    }
}

/// The bytes after the version.
#[tactic(auto, unfolding(crate::specs::Reading::version_at))]
fn version_of(whole: usize, bytes: &[u8]) -> Result<&[u8], RecordFault>
    ensures { GivesExactly (λ rest. rest.now) result (version_at whole bytes.now) }
{
    match bytes {
        [] => Err(RecordFault::Short(whole)),
        [1, rest @ ..] => Ok(rest),
        [version, ..] => Err(RecordFault::BadVersion(*version)),
    }
}

/// The kind, and the bytes after it.
#[tactic(auto, unfolding(crate::specs::Reading::kind_at))]
fn kind_of(whole: usize, bytes: &[u8]) -> Result<(Kind, &[u8]), RecordFault>
    ensures { GivesExactly (λ x. (x.0, x.1.now)) result (kind_at whole bytes.now) }
{
    match bytes {
        [] => Err(RecordFault::Short(whole)),
        [0, rest @ ..] => Ok((Kind::Tomb, rest)),
        [1, rest @ ..] => Ok((Kind::Whole, rest)),
        [2, rest @ ..] => Ok((Kind::Coded, rest)),
        [kind, ..] => Err(RecordFault::BadKind(*kind)),
    }
}

/// A write's timestamp, and the bytes after it.
#[tactic(auto, unfolding(crate::specs::Reading::stamp_at))]
fn stamp_of(whole: usize, bytes: &[u8]) -> Result<(Stamp, &[u8]), RecordFault>
    ensures value { GivesExactly (λ x. (x.0, x.1.now)) result (stamp_at whole bytes.now) }
    ensures written { IfOk result (λ x. IsWritten x.0) }
{
    let (sn, rest) = u32_at(whole, bytes)?;
    if sn == 0 || sn >= SN_END {
        return Err(RecordFault::BadShape(2));
    }
    let (cid, rest) = u32_at(whole, rest)?;
    if cid == 0 {
        return Err(RecordFault::BadShape(6));
    }
    match Stamp::new(sn, cid) {
        Some(stamp) => Ok((stamp, rest)),
        None => Err(RecordFault::BadShape(2)),
    }
}

/// The layout of a value of this kind, and the bytes after it.
#[tactic(auto, unfolding(crate::specs::Reading::value_layout_at))]
fn value_layout_of(kind: Kind, whole: usize, bytes: &[u8]) -> Result<(Layout, &[u8]), RecordFault>
    ensures value { GivesExactly (λ x. (x.0, x.1.now)) result (value_layout_at kind whole bytes.now) }
    ensures ruled { IfOk result (λ x. IsValueLayout kind x.0) }
{
    let (size, rest) = u32_at(whole, bytes)?;
    if size > MAX_VALUE {
        return Err(RecordFault::BadShape(10));
    }
    let (f, rest) = u8_at(whole, rest)?;
    if f > MAX_F {
        return Err(RecordFault::BadShape(14));
    }
    let (k, rest) = u8_at(whole, rest)?;
    if !kind.allows_parts(k) {
        return Err(RecordFault::BadShape(15));
    }
    let (clouds, rest) = u16_at(whole, rest)?;
    if !lists_quorum(f, k, clouds) {
        return Err(RecordFault::BadShape(16));
    }
    let layout = Layout { size, f, k, clouds };
    Ok((layout, rest))
}

/// Whether the bits name a quorum of the store's clouds.
fn lists_quorum(f: u8, k: u8, clouds: u16) -> bool
    requires faults { f ≤ MAX_F }
    requires parts { k ≤ MAX_K }
    ensures { result ≡ is_cloud_list f k clouds }
{
    u32::from(clouds) < 1 << cloud_count(f, k)
        && clouds.count_ones() == u32::from(quorum_size(f, k))
}

/// The layout of what this kind stands for, and the bytes after it.
#[tactic(auto, unfolding(crate::specs::Reading::layout_at))]
fn layout_of(kind: Kind, whole: usize, bytes: &[u8]) -> Result<(Layout, &[u8]), RecordFault>
    ensures value { GivesExactly (λ x. (x.0, x.1.now)) result (layout_at kind whole bytes.now) }
    ensures ruled { IfOk result (λ x. IsLayout kind x.0) }
{
    match kind {
        Kind::Tomb => {
            let none = Layout {
                size: 0,
                f: 0,
                k: 0,
                clouds: 0,
            };
            Ok((none, bytes))
        }
        Kind::Whole => value_layout_of(Kind::Whole, whole, bytes),
        Kind::Coded => value_layout_of(Kind::Coded, whole, bytes),
    }
}

/// What all fields but the hashes say, and the bytes after them.
#[tactic(auto, unfolding(crate::specs::Reading::fields_at))]
fn fields_of(whole: usize, bytes: &[u8]) -> Result<(Fields, &[u8]), RecordFault>
    ensures value { GivesExactly (λ x. (x.0, x.1.now)) result (fields_at whole bytes.now) }
    ensures written { IfOk result (λ x. IsWritten x.0.stamp) }
    ensures ruled { IfOk result (λ x. IsLayout x.0.kind x.0.layout) }
{
    let rest = version_of(whole, bytes)?;
    let (kind, rest) = kind_of(whole, rest)?;
    match stamp_of(whole, rest) {
        Ok((stamp, rest)) => {
            let (layout, rest) = layout_of(kind, whole, rest)?;
            let fields = Fields {
                kind,
                stamp,
                layout,
            };
            Ok((fields, rest))
        }
        Err(fault) => Err(fault),
    }
}

/// So many hashes, which are the bytes.
fn hashes_of(alloc: Global, count: u8, bytes: &[u8]) -> Result<Vec<Hash>, NoMemory>
    requires { length bytes.now ≡ HASH_SIZE * count }
    ensures value { IfOk result (λ hashes. concat hashes.items ≡ bytes.now) }
    ensures count { IfOk result (λ hashes. length hashes.items ≡ count) }
    ensures sizes { IfOk result (λ hashes. All IsHash hashes.items) }
{
    let mut hashes = Vec::new(alloc);
    for i in 0..count as usize {
        let mut hash = [0; 32];
        hash.copy_from_slice(&bytes[32 * i..32 * i + 32]);
        hashes.push(Hash::of(hash).known())?;
    }
    Ok(hashes)
}

/// The record of these fields, where the rest of all the bytes is its hashes.
fn record_of_fields(
    alloc: Global,
    fields: Fields,
    whole: usize,
    rest: &[u8],
) -> Result<Record, RecordFault>
    requires written { IsWritten fields.stamp }
    requires ruled { IsLayout fields.kind fields.layout }
    requires inside { length rest.now ≤ whole }
    ensures value { Gives (λ r. r) result (ended_at fields whole rest.now) }
    ensures refused { IfErr (ended_at fields whole rest.now) (λ fault. result ≡ Err fault) }
{
    let Fields {
        kind,
        stamp,
        layout,
    } = fields;
    let count = kind.hash_count(layout.f, layout.k);
    let size = 32 * count as usize;
    if rest.len() < size {
        return Err(RecordFault::Short(whole));
    }
    if rest.len() > size {
        return Err(RecordFault::Extra(whole - (rest.len() - size)));
    }
    let hashes = hashes_of(alloc, count, rest)?;
    Ok(Record {
        stamp: stamp.known(),
        kind,
        size: layout.size,
        f: layout.f,
        k: layout.k,
        clouds: layout.clouds,
        hashes,
    })
}

/// The record that all of the bytes spell.
#[tactic(auto, unfolding(crate::specs::Reading::record_of))]
fn whole_of(alloc: Global, bytes: &[u8]) -> Result<Record, RecordFault>
    ensures value { Gives (λ r. r) result (record_of bytes.now) }
    ensures refused { IfErr (record_of bytes.now) (λ fault. result ≡ Err fault) }
{
    match fields_of(bytes.len(), bytes) {
        Ok((fields, rest)) => record_of_fields(alloc, fields, bytes.len(), rest),
        Err(fault) => Err(fault),
    }
}
