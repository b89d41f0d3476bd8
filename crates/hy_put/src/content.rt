//! What a put stores: the fragments of its value, and their hashes.

ghost use Rattle.std.specs.Prelude.{◌≡◌, ◌∷◌, [], ◌≤◌, IfOk, IfErr, OnOk, IsTrue, None, length, map, slice_index_or};
ghost use Rattle.std.specs.List.{range_with_len};
ghost use Rattle.hy_base.specs.declared.limits.TheConstants.{MAX_VALUE};
ghost use Rattle.sha2.specs.Sha256.{sha256};
ghost use Rattle.hy_record.specs.Stamp.{IsWritten};
ghost use Rattle.hy_base.specs.Shape.{IsShape, cloud_count, quorum_size};
ghost use Rattle.hy_record.specs.Record.{kind_of_parts, hash_count, is_cloud_list, record_of_value};
ghost use Rattle.hy_operation.specs.Marks.{unmarked_below};

use crate::fault::StartFault;
use hy_base::{Blob, MAX_VALUE, NoMemory, cloud_count, quorum_size};
use hy_code::{Fragments, split};
use hy_operation::{Issuer, Marks};
use hy_protocol::PutPlan;
use hy_record::{CloudAct, Hash, Out, Record, Stamp, sha};
use std::alloc::Global;

/// The fragments of a value and their hashes.
#[derive(Debug, Drop)]
pub(crate) struct Content {
    pub(crate) size: u32,
    pub(crate) f: u8,
    pub(crate) k: u8,
    fragments: Fragments,
    hashes: Vec<Hash>,
    ghost shape: { IsShape f k },
    ghost small: { size ≤ MAX_VALUE },
    ghost count: { length fragments ≡ cloud_count f k },
    ghost hashed: { length hashes.items ≡ hash_count (kind_of_parts k) f k },
}

impl Content {
    ghost use Rattle.hy_put.specs.Contents.{Holds, CarriesValue, puts_of};
    ghost use Rattle.hy_put.specs.Sizes.{oversize, size_told};

    /// The content of the plan's value, if that is not too large; none for a delete.
    pub(crate) fn of(alloc: Global, plan: &PutPlan) -> Result<Option<Content>, StartFault>
        requires { IsShape plan.now.f plan.now.k }
        ensures carries { let plan = plan.now in
            IfOk result (λ content. CarriesValue plan.f plan.k plan.value content) }
        ensures fits { OnOk result (oversize plan.now ≡ None) }
        ensures fault { IfErr result (λ fault. size_told fault ≡ oversize plan.now) }
    {
        let value = match &plan.value {
            Some(value) => value.bytes(),
            None => return Ok(None),
        };
        if value.len() > MAX_VALUE as usize {
            return Err(StartFault::TooLarge(value.len()));
        }
        let content = Content::new(alloc, value, plan.f, plan.k)?;
        Ok(Some(content))
    }

    /// The content of a value.
    fn new(alloc: Global, value: &[u8], f: u8, k: u8) -> Result<Content, NoMemory>
        requires shape { IsShape f k }
        requires small { length value.now ≤ MAX_VALUE }
        ensures { IfOk result (λ content. Holds content f k value.now) }
    {
        let n = cloud_count(f, k);
        let fragments = split(alloc, value, k, n)?;
        let hashes = if k == 1 {
            whole_hash(alloc, value)?
        } else {
            fragment_hashes(alloc, &fragments, n)?
        };
        Ok(Content {
            size: value.len() as u32,
            f,
            k,
            fragments,
            hashes,
        })
    }

    /// How many clouds the store has.
    pub(crate) fn clouds(&self) -> u8
        ensures value { result ≡ cloud_count self.now.f self.now.k }
        ensures few { result ≤ 10 }
    {
        cloud_count(self.f, self.k)
    }

    /// How many clouds have to store the value.
    pub(crate) fn quorum(&self) -> u8
        ensures value { result ≡ quorum_size self.now.f self.now.k }
        ensures few { result ≤ cloud_count self.now.f self.now.k }
    {
        quorum_size(self.f, self.k)
    }

    /// The fragments of the clouds below this number that have not acknowledged, each to its cloud.
    pub(crate) fn puts(
        &self,
        alloc: Global,
        issuer: &Issuer,
        stamp: Stamp,
        n: u8,
        acked: &Marks,
    ) -> Result<Vec<Out>, NoMemory>
        requires { n ≤ cloud_count self.now.f self.now.k }
        ensures { IfOk result (λ sends.
            sends.items ≡ puts_of issuer.now self.now.fragments stamp (unmarked_below acked.now n)) }
    {
        let mut sends = Vec::new(alloc);
        for cloud in 0..n {
            if !acked.has(cloud) {
                let bytes = Blob::copy_of(alloc, self.fragments.get(cloud))?;
                sends.push(issuer.wish(cloud, stamp, CloudAct::Put(bytes)))?;
            }
        }
        Ok(sends)
    }

    /// The record of the value, where these clouds hold it.
    pub(crate) fn record(
        &self,
        alloc: Global,
        stamp: Stamp,
        clouds: u16,
    ) -> Result<Record, NoMemory>
        requires written { IsWritten stamp }
        requires quorum { IsTrue (is_cloud_list self.now.f self.now.k clouds) }
        ensures { let c = self.now in
            IfOk result (λ r. r ≡ record_of_value stamp c.size c.f c.k clouds c.hashes.items) }
    {
        Record::value(
            alloc,
            stamp,
            self.size,
            self.f,
            self.k,
            clouds,
            &self.hashes,
        )
    }
}

/// The hash of a value that is stored whole.
fn whole_hash(alloc: Global, value: &[u8]) -> Result<Vec<Hash>, NoMemory>
    ensures { IfOk result (λ hashes. hashes.items ≡ sha256 value.now ∷ []) }
{
    let mut hashes = Vec::new(alloc);
    hashes.push(sha(value))?;
    Ok(hashes)
}

/// The hash of each fragment.
fn fragment_hashes(alloc: Global, fragments: &Fragments, n: u8) -> Result<Vec<Hash>, NoMemory>
    requires { length fragments.now ≡ n }
    ensures { IfOk result (λ hashes. hashes.items ≡
        map (λ cloud. sha256 (slice_index_or fragments.now cloud [])) (range_with_len 0 n)) }
{
    let mut hashes = Vec::new(alloc);
    for cloud in 0..n {
        hashes.push(sha(fragments.get(cloud)))?;
    }
    Ok(hashes)
}
