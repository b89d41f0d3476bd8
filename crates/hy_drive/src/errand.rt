//! Whom the answer to a request is for.

ghost use Rattle.std.specs.Prelude.{◌≡◌};
ghost use Rattle.hy_record.specs.declared.turn.Cue.TheVariants as cues;
ghost use Rattle.hy_drive.specs.Judging.{kind_of};
ghost use Rattle.hy_drive.specs.Held.{errand_of, errand_answer};

use hy_cwire::WishKind;
use hy_record::{CloudAct, CloudAsk, CloudReply, CloudSay, Cue, Key, Stamp};

/// A request to a cloud, without what is to be done there.
#[derive(Debug, Drop)]
pub(crate) struct Errand {
    pub(crate) client: u32,
    pub(crate) op: u32,
    pub(crate) cloud: u8,
    pub(crate) key: Key,
    pub(crate) stamp: Stamp,
}

impl Errand {
    /// The errand of the request.
    pub(crate) fn of(ask: &CloudAsk) -> Errand
        ensures { result ≡ errand_of ask.now }
    {
        Errand {
            client: ask.client,
            op: ask.op,
            cloud: ask.cloud,
            key: ask.wish.key,
            stamp: ask.wish.stamp,
        }
    }

    /// The answer, as an input of the client.
    pub(crate) fn answer(self, say: CloudSay) -> Cue
        ensures { result ≡ errand_answer self say }
    {
        Cue::Cloud(CloudReply {
            client: self.client,
            op: self.op,
            cloud: self.cloud,
            key: self.key,
            stamp: self.stamp,
            say,
        })
    }
}

/// The method of the request.
pub(crate) fn kind_of(act: &CloudAct) -> WishKind
    ensures { result ≡ kind_of act.now }
{
    match act {
        CloudAct::Put(_bytes) => WishKind::Put,
        CloudAct::Get => WishKind::Get,
        CloudAct::Delete => WishKind::Delete,
    }
}
