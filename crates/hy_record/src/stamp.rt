//! Timestamps, by which the writes of a key are ordered.

ghost use Rattle.std.specs.Prelude.{◌≡◌};
ghost use Rattle.hy_record.specs.Stamp.{stamp_of, next_stamp, stamp_lt, stamp_eq, IsStamp};

use hy_base::SN_END;
use std::marker::Model;

/// A timestamp: a sequence number, and the client that wrote, which breaks ties.
///
/// (0, 0) is below every other, and stands for no record.
#[derive(Clone, Copy, Debug, PartialEq, Eq, PartialOrd, Ord)]
pub struct Stamp {
    sn: u32,
    cid: u32,
}

impl Model for Stamp {
    ghost use Rattle.std.specs.Prelude.{◌<◌};
    ghost use Rattle.hy_base.specs.declared.limits.TheConstants.{SN_END};
    ghost use Rattle.hy_record.specs.Stamp.{Timestamp};

    ghost Value = { Timestamp };

    ghost view = { λ stamp. record { sn = stamp.sn; cid = stamp.cid } };

    ghost invariant = { λ stamp. stamp.sn < SN_END };

    ghost inverse = { λ value. record { sn = value.sn; cid = value.cid } };
}

impl Stamp {
    /// The timestamp of this sequence number and client; none at sequence number 4,294,967,295.
    pub fn new(sn: u32, cid: u32) -> Option<Stamp>
        ensures { result ≡ stamp_of sn cid }
    {
        if sn >= SN_END {
            return None;
        }
        Some(Stamp { sn, cid })
    }

    /// The timestamp that stands for no record.
    pub fn zero() -> Stamp
        ensures { result ≡ record { sn = 0; cid = 0 } }
    {
        Stamp { sn: 0, cid: 0 }
    }

    /// The sequence number, at most 4,294,967,294.
    pub fn sn(self) -> u32
        ensures value { result ≡ self.sn }
        ensures range { IsStamp self }
    {
        let _client = self.cid;
        self.sn
    }

    /// The client that wrote.
    pub fn cid(self) -> u32
        ensures value { result ≡ self.cid }
        ensures range { IsStamp self }
    {
        let _number = self.sn;
        self.cid
    }

    /// Whether the other one is above this one.
    #[tactic(auto, unfolding(crate::specs::Stamp::stamp_lt))]
    pub fn is_below(&self, other: &Stamp) -> bool
        ensures { result ≡ stamp_lt self.now other.now }
    {
        *self < *other
    }

    /// Whether the two are one.
    #[tactic(auto, unfolding(crate::specs::Stamp::stamp_eq))]
    pub fn is_same(&self, other: &Stamp) -> bool
        ensures { result ≡ stamp_eq self.now other.now }
    {
        *self == *other
    }

    /// This timestamp, and that its numbers are in range.
    pub(crate) fn known(self) -> Stamp
        ensures same { result ≡ self }
        ensures range { IsStamp result }
    {
        let _number = self.sn;
        let _client = self.cid;
        self
    }

    /// The timestamp of this client's write upon this one; none where the sequence number is at its limit.
    pub fn after(self, cid: u32) -> Option<Stamp>
        ensures { result ≡ next_stamp self cid }
    {
        Stamp::new(self.sn + 1, cid)
    }
}
