//! Records as the words of a row.

ghost use Rattle.std.specs.Prelude.{◌≡◌, ◌<◌, ◌≤◌, ◌+◌, ◌*◌, ◌/◌, ◌%◌, length, Some, slice_index, slice_get, [], ◌∷◌};
ghost use Rattle.hy_record.specs.Hash.{IsHash};
ghost use Rattle.hy_record.specs.Record.{IsRecord};
ghost use Rattle.hy_shared.specs.Rows.{row_head, record_words, hash_words};

use byteorder::{BigEndian, ByteOrder};
use hy_base::cloud_count;
use hy_record::{Hash, Kind, Record};

/// The first word: the size, the kind and the clouds.
pub(crate) fn row_head(rec: &Record) -> u64
    ensures { result ≡ row_head rec.now }
{
    let kind: u64 = match rec.kind() {
        Kind::Tomb => 0,
        Kind::Whole => 1,
        Kind::Coded => 2,
    };
    u64::from(rec.size()) * 4294967296 + kind * 65536 + u64::from(rec.clouds())
}

/// How many words the record has.
pub(crate) fn row_len(rec: &Record) -> usize
    ensures { result ≡ length (record_words rec.now) }
{
    1 + 4 * hashes_of(rec.known())
}

/// The word at this place.
pub(crate) fn row_word(rec: &Record, i: usize) -> u64
    requires { i < length (record_words rec.now) }
    ensures { result ≡ slice_index (record_words rec.now) i }
{
    if i == 0 {
        return row_head(rec);
    }
    let hash = hash_at(rec, (i - 1) / 4);
    let (_, part) = hash.bytes().split_at(8 * ((i - 1) % 4));
    BigEndian::read_u64(part)
}

/// The hash at this place.
fn hash_at(rec: &Record, i: usize) -> Hash
    requires { i < length rec.now.hashes }
    ensures { slice_get rec.now.hashes i ≡ Some result }
{
    let rec = rec.known();
    match rec.hash(i as u8) {
        Some(hash) => hash,
        None => unreachable!(),
    }
}

/// How many hashes the record has.
fn hashes_of(rec: &Record) -> usize
    requires { IsRecord rec.now }
    ensures { result ≡ length rec.now.hashes }
{
    match rec.kind() {
        Kind::Tomb => 0,
        Kind::Whole => 1,
        Kind::Coded => usize::from(cloud_count(rec.f(), rec.k())),
    }
}

/// The hash with these words.
pub(crate) fn hash_of_words(a: u64, b: u64, c: u64, d: u64) -> Hash
    ensures words { hash_words result ≡ a ∷ b ∷ c ∷ d ∷ [] }
    ensures size { IsHash result }
{
    let a = a.to_be_bytes();
    let b = b.to_be_bytes();
    let c = c.to_be_bytes();
    let d = d.to_be_bytes();
    Hash::of([
        a[0], a[1], a[2], a[3], a[4], a[5], a[6], a[7], b[0], b[1], b[2], b[3], b[4], b[5], b[6],
        b[7], c[0], c[1], c[2], c[3], c[4], c[5], c[6], c[7], d[0], d[1], d[2], d[3], d[4], d[5],
        d[6], d[7],
    ])
}

/// The most hashes of a record.
pub(crate) const MOST_HASHES: usize = 10;

/// The record, of which the caller then knows that it meets the rules of a record.
pub(crate) fn ruled(rec: Record) -> Record
    ensures same { result ≡ rec }
    ensures ruled { IsRecord result }
{
    let _rules = rec.known();
    rec
}
