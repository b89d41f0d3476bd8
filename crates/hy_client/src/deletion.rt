//! What a collection deletes.

ghost use Rattle.std.specs.Prelude.{◌≡◌, ◌-◌, ◌≤◌, ◌<◌, IsTrue, false, length, map, IfOk, MatchResult, OnSome, IfSome, IfNone};
ghost use Rattle.std.specs.List.{All, HoldsAt, flat_map};
ghost use Rattle.hy_record.specs.Stamp.{stamp_eq};
ghost use Rattle.hy_record.specs.Stamps.{is_rising};
ghost use Rattle.hy_record.specs.declared.stamps.TheConstants.{MAX_STAMPS};
ghost use Rattle.hy_client.specs.Targets.{stamps_of, deletes_of};

use crate::target::Target;
use hy_base::NoMemory;
use hy_operation::{Issuer, Marks};
use hy_record::{CloudReply, Out, Stamp, Stamps};
use std::alloc::Global;

/// The superseded timestamps of a key, and how far the deletion of each is.
#[derive(Debug, Drop)]
pub(crate) struct Deletion {
    /// In increasing order.
    pub(crate) targets: Vec<Target>,
    /// How many of them are not deleted in enough clouds.
    pub(crate) left: usize,
    ghost few: { length targets.items ≤ MAX_STAMPS },
    ghost rising: { IsTrue (is_rising (stamps_of targets.items)) },
}

impl Deletion {
    ghost use Rattle.hy_client.specs.Collecting.{Begins, Hears};

    /// No cloud has acknowledged yet, and each timestamp lacks so many clouds.
    pub(crate) fn of(alloc: Global, stamps: &Stamps, enough: u8) -> Result<Deletion, NoMemory>
        ensures { IfOk result (Begins enough stamps.now) }
    {
        let gone = Marks::none();
        let mut targets = Vec::new(alloc);
        for stamp in stamps.items() {
            targets.push(Target {
                stamp: *stamp,
                gone,
                lacking: enough,
            })?;
        }
        let left = targets.len();
        Ok(Deletion { targets, left })
    }

    /// The timestamps.
    pub(crate) fn stamps(&self, alloc: Global) -> Result<Stamps, NoMemory>
        ensures { IfOk result (λ stamps. stamps ≡ stamps_of self.now.targets.items) }
    {
        let mut stamps = Vec::new(alloc);
        for target in &self.targets {
            stamps.push(target.stamp)?;
        }
        Ok(Stamps::of(stamps))
    }

    /// Deletions in the clouds below this number, in each that has not acknowledged.
    pub(crate) fn deletes(
        &self,
        alloc: Global,
        issuer: &Issuer,
        clouds: u8,
    ) -> Result<Vec<Out>, NoMemory>
        ensures { IfOk result (λ sends. sends.items ≡ flat_map (deletes_of issuer.now clouds) self.now.targets.items) }
    {
        let mut sends = Vec::new(alloc);
        for target in &self.targets {
            target.add_deletes(&mut sends, issuer, clouds)?;
        }
        Ok(sends)
    }

    /// A cloud of the store acknowledged the deletion of an object: the timestamps, where each is deleted in enough clouds now.
    pub(crate) fn gone(
        &mut self,
        alloc: Global,
        reply: &CloudReply,
    ) -> Result<Option<Stamps>, NoMemory>
        ensures hears { Hears self.old self.new reply.now result }
        ensures same { MatchResult result (λ told. OnSome told (self.new ≡ self.old)) (λ _. self.new ≡ self.old) }
    {
        let place = match place_of(&self.targets, &reply.stamp) {
            Some(place) => place,
            None => return Ok(None),
        };
        if self.targets[place].gone.has(reply.cloud) {
            return Ok(None);
        }
        let last = self.targets[place].lacking == 1;
        if last && self.left <= 1 {
            return Ok(Some(self.stamps(alloc)?));
        }
        self.left = self.left.saturating_sub(usize::from(last));
        self.targets[place].acknowledge(reply.cloud);
        Ok(None)
    }

    /// How many timestamps there are.
    pub(crate) fn need(&self) -> u32
        ensures { result ≡ length self.now.targets.items }
    {
        self.targets.len() as u32
    }

    /// How many of them are deleted in enough clouds.
    pub(crate) fn have(&self) -> u32
        ensures { result ≡ length self.now.targets.items - self.now.left }
    {
        self.targets.len().saturating_sub(self.left) as u32
    }
}

/// The place of the timestamp among these.
fn place_of(targets: &[Target], stamp: &Stamp) -> Option<usize>
    requires { IsTrue (is_rising (stamps_of targets.now)) }
    ensures inside { IfSome result (λ place. place < length targets.now) }
    ensures found { IfSome result (HoldsAt (λ target. stamp.now ≡ target.stamp) targets.now) }
    ensures none { IfNone result (All (λ target. stamp_eq stamp.now target.stamp ≡ false) targets.now) }
{
    let place = targets.partition_point(|target| target.stamp.is_below(stamp));
    match targets.get(place) {
        Some(target) => {
            if target.stamp.is_same(stamp) {
                Some(place)
            } else {
                None
            }
        }
        None => None,
    }
}
