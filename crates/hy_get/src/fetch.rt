//! What a get knows of the value of the record that it follows.

ghost use Rattle.std.specs.Prelude.{◌≡◌, ◌≢◌, ◌==◌, ◌+◌, ◌<◌, ◌≤◌, ℕ, List, [], IfOk, OnOk, true, false, length, Some, nat_lt, nat_le, not, ◌&&◌, MatchOption, if◌then◌else◌};
ghost use Rattle.std.specs.List.{list_any, prefix_len};
ghost use Rattle.hy_record.specs.declared.turn.Cue.TheVariants as cues;
ghost use Rattle.hy_record.specs.Record.{IsRecord, is_tombstone};
ghost use Rattle.hy_record.specs.Stamp.{stamp_eq};
ghost use Rattle.hy_protocol.specs.Read.{is_valid_body, first_gets};
ghost use Rattle.hy_protocol.specs.Progress.{read_phase, version_progress};
ghost use Rattle.hy_operation.specs.Progress.{Tells};
ghost use Rattle.hy_get.specs.Requests.{plan_of};

use crate::requests;
use hy_base::{Blob, NoMemory};
use hy_code::{Pick, rebuild};
use hy_operation::{Issuer, Marks, Progress, clouds_of};
use hy_record::{CloudReply, CloudSay, Out, Phase, Record, Stamp};
use std::alloc::Global;

/// A record whose value is fetched, and what came since it was read.
#[derive(Debug, Drop)]
pub(crate) struct Fetch {
    pub(crate) rec: Record,
    /// The clouds of the record's list.
    holders: Vec<u8>,
    /// The first valid fragment of each cloud, by its number.
    picks: Vec<Pick>,
    /// The clouds that gave another answer.
    failed: Marks,
    /// The timeouts before the record was superseded; at 65,535 the count stands still.
    timeouts: u16,
    /// Whether the record was superseded, as far as the get knows.
    pub(crate) fired: bool,
    ghost ruled: { IsRecord rec },
    ghost value: { is_tombstone rec.kind ≡ false },
}

/// What an answer of a cloud leads to.
#[derive(Debug, Drop)]
pub(crate) enum Heard {
    /// The value is not there; these requests are sent.
    Requests(Vec<Out>),
    /// The value.
    Value(Blob),
}

impl Fetch {
    ghost use Rattle.hy_get.specs.Fetching.{sends_at, sends_after, attempts_of, IsValidBody, Follows, Awaits, Moves, Keeps, Hears};

    /// Nothing is known of the record's value yet.
    pub(crate) fn new(alloc: Global, rec: &Record) -> Result<Fetch, NoMemory>
        requires { is_tombstone rec.now.kind ≡ false }
        ensures rec { IfOk result (λ fetch. fetch.rec ≡ rec.now) }
        ensures awaits { IfOk result (λ fetch. Awaits fetch []) }
    {
        let rec = rec.known().copy(alloc)?;
        let holders = clouds_of(alloc, rec.clouds())?;
        Ok(Fetch {
            rec,
            holders,
            picks: Vec::new(alloc),
            failed: Marks::none(),
            timeouts: 0,
            fired: false,
        })
    }

    /// The requests to the first holders.
    pub(crate) fn first_gets(&self, alloc: Global, issuer: &Issuer) -> Result<Vec<Out>, NoMemory>
        ensures { IfOk result (λ sends. (since : List _) → Follows self.now since → sends.items ≡ first_gets (plan_of issuer.now) (Some self.now.rec)) }
    {
        let most = usize::from(self.rec.k()).min(self.holders.len());
        let sends = requests::gets(alloc, issuer, self.rec.stamp(), &self.holders[..most])?;
        Ok(sends)
    }

    /// Whether the timestamp is the record's, and the first news that it was superseded.
    pub(crate) fn is_news(&self, stamp: &Stamp) -> bool
        ensures { result ≡ (not self.now.fired && stamp_eq stamp.now self.now.rec.stamp) }
    {
        !self.fired && stamp.is_same(&self.rec.stamp())
    }

    /// How many attempts failed, where these clouds gave another answer.
    fn attempts(&self, failed: &Marks) -> usize
        ensures value { result ≡ attempts_of self.now.holders.items failed.now self.now.timeouts }
        ensures small { result < 18446744073709551615 }
    {
        failed.count_among(&self.holders) + usize::from(self.timeouts)
    }

    /// The phase of a get that follows the record.
    fn phase(&self) -> Phase
        ensures { (since : List _) → Follows self.now since → result ≡ read_phase self.now.rec since }
    {
        if self.fired {
            Phase::Reread
        } else if self.attempts(&self.failed) > usize::from(self.rec.f()) {
            Phase::Watch
        } else {
            Phase::Fetch
        }
    }

    /// How many fragments are held; at the number that is needed the count stands still.
    fn have(&self) -> u32
        ensures { length self.now.picks.items ≤ self.now.rec.k → result ≡ length self.now.picks.items }
    {
        self.picks.len().min(usize::from(self.rec.k())) as u32
    }

    /// How far a get is that follows the record.
    pub(crate) fn progress(&self) -> Progress
        ensures { (since : List _) → Follows self.now since → length self.now.picks.items ≤ self.now.rec.k → Tells result (version_progress (Some self.now.rec) since) }
    {
        Progress {
            phase: self.phase(),
            have: self.have(),
            need: u32::from(self.rec.k()),
        }
    }

    /// What is sent where so many attempts have failed: a request to the next holder, or a watch and requests to all.
    fn sends_at(
        &self,
        alloc: Global,
        issuer: &Issuer,
        attempts: usize,
    ) -> Result<Vec<Out>, NoMemory>
        requires { 0 < attempts }
        ensures { IfOk result (λ sends. sends.items ≡ sends_at (plan_of issuer.now) self.now.rec self.now.holders.items attempts) }
    {
        if attempts <= usize::from(self.rec.f()) {
            let place = usize::from(self.rec.k()) + attempts - 1;
            match self.holders.get(place) {
                Some(holder) => requests::gets(alloc, issuer, self.rec.stamp(), &[*holder]),
                None => Ok(Vec::new(alloc)),
            }
        } else {
            requests::watch_and_gets(alloc, issuer, self.rec.stamp(), &self.holders)
        }
    }

    /// What an answer sends that brought the failed attempts from one number to another.
    fn sends_after(
        &self,
        alloc: Global,
        issuer: &Issuer,
        before: usize,
        attempts: usize,
    ) -> Result<Vec<Out>, NoMemory>
        ensures { IfOk result (λ sends. sends.items ≡ sends_after (plan_of issuer.now) self.now.rec self.now.holders.items before attempts) }
    {
        if before < attempts && attempts <= usize::from(self.rec.f()) + 1 {
            self.sends_at(alloc, issuer, attempts)
        } else {
            Ok(Vec::new(alloc))
        }
    }

    /// A timeout.
    pub(crate) fn tick(&mut self, alloc: Global, issuer: &Issuer) -> Result<Vec<Out>, NoMemory>
        ensures moves { Moves (plan_of issuer.now) self.old self.new cues.Tick result }
        ensures rec { self.new.rec ≡ self.old.rec }
    {
        if self.fired {
            return requests::read(alloc, issuer);
        }
        let attempts = self.attempts(&self.failed);
        let sends = self.sends_at(alloc, issuer, attempts + 1)?;
        self.timeouts = self.timeouts.saturating_add(1);
        Ok(sends)
    }

    /// The bytes of the answer, if they are what the cloud was given to hold.
    fn valid_bytes<'a>(&self, reply: &'a CloudReply) -> Option<&'a Blob>
        ensures { MatchOption result (is_valid_body self.now.rec reply.now.cloud reply.now.say ≡ false) (λ bytes. IsValidBody self.now.rec reply.now bytes.now) }
    {
        match &reply.say {
            CloudSay::Body(bytes) => {
                if self.rec.is_valid(reply.cloud, bytes.bytes()) {
                    Some(bytes)
                } else {
                    None
                }
            }
            CloudSay::Stored { fresh: _ } => None,
            CloudSay::Conflict => None,
            CloudSay::Missing => None,
            CloudSay::Gone => None,
            CloudSay::Bad(_code) => None,
        }
    }

    /// An answer of a cloud about the object of the record's timestamp.
    pub(crate) fn hear(
        &mut self,
        alloc: Global,
        issuer: &Issuer,
        reply: &CloudReply,
    ) -> Result<Heard, NoMemory>
        requires { stamp_eq reply.now.stamp self.old.rec.stamp ≡ true }
        ensures hears { Hears (plan_of issuer.now) self.old self.new (cues.Cloud reply.now) result }
        ensures rec { self.new.rec ≡ self.old.rec }
    {
        match self.valid_bytes(reply) {
            Some(bytes) => self.keep(alloc, reply, bytes),
            None => {
                let sends = self.fail(alloc, issuer, reply)?;
                Ok(Heard::Requests(sends))
            }
        }
    }

    /// An answer that is not valid.
    fn fail(
        &mut self,
        alloc: Global,
        issuer: &Issuer,
        reply: &CloudReply,
    ) -> Result<Vec<Out>, NoMemory>
        requires stamp { stamp_eq reply.now.stamp self.old.rec.stamp ≡ true }
        requires invalid { is_valid_body self.old.rec reply.now.cloud reply.now.say ≡ false }
        ensures moves { Moves (plan_of issuer.now) self.old self.new (cues.Cloud reply.now) result }
        ensures rec { self.new.rec ≡ self.old.rec }
    {
        let mut failed = self.failed;
        failed.mark(reply.cloud);
        let before = self.attempts(&self.failed);
        let attempts = self.attempts(&failed);
        let sends = self.sends_after(alloc, issuer, before, attempts)?;
        self.failed = failed;
        Ok(sends)
    }

    /// A valid fragment of a cloud: the value, where there are fragments enough.
    fn keep(&mut self, alloc: Global, reply: &CloudReply, bytes: &Blob) -> Result<Heard, NoMemory>
        requires stamp { stamp_eq reply.now.stamp self.old.rec.stamp ≡ true }
        requires valid { IsValidBody self.old.rec reply.now bytes.now }
        ensures keeps { Keeps self.old self.new (cues.Cloud reply.now) result }
        ensures rec { self.new.rec ≡ self.old.rec }
    {
        let cloud = reply.cloud;
        if has_pick(&self.picks, cloud) {
            return Ok(Heard::Requests(Vec::new(alloc)));
        }
        let bytes = Blob::copy_of(alloc, bytes.bytes())?;
        let place = place_of(&self.picks, cloud);
        self.picks.insert(place, Pick { cloud, bytes })?;
        if self.picks.len() < usize::from(self.rec.k()) {
            return Ok(Heard::Requests(Vec::new(alloc)));
        }
        match rebuild(alloc, self.rec.size(), self.rec.k(), &self.picks) {
            Ok(value) => Ok(Heard::Value(value)),
            Err(_fault) => {
                self.picks.remove(place);
                Err(NoMemory)
            }
        }
    }
}

/// Whether there is a fragment of the cloud.
fn has_pick(picks: &[Pick], cloud: u8) -> bool
    ensures { result ≡ list_any (λ pick. pick.cloud == cloud) picks.now }
{
    picks.iter().any(|pick| pick.cloud == cloud)
}

/// How many of the first fragments are of clouds below this one.
#[tactic(auto, using(crate::proofs::Picks::place_inside))]
fn place_of(picks: &[Pick], cloud: u8) -> usize
    ensures value { result ≡ prefix_len (λ pick. nat_lt pick.cloud cloud) picks.now }
    ensures inside { result ≤ length picks.now }
{
    picks.iter().take_while(|pick| pick.cloud < cloud).count()
}
