//! Who asks, and the requests of an operation.

ghost use Rattle.std.specs.Prelude.{◌≡◌};
ghost use Rattle.hy_record.specs.declared.message.MetaAsk.TheVariants as asks;
ghost use Rattle.hy_record.specs.declared.turn.Out.TheVariants as outs;

use hy_record::{CloudAct, CloudAsk, Key, MetaAsk, Out, Record, Stamp, Stamps, Wish};

/// The client's operation of this number, on this key.
#[derive(Clone, Copy, Debug)]
pub struct Issuer {
    pub client: u32,
    pub op: u32,
    pub key: Key,
}

impl Issuer {
    /// A request for the record.
    pub fn read(&self) -> Out
        ensures { result ≡ outs.Meta (asks.Read self.now.client self.now.op self.now.key) }
    {
        Out::Meta(MetaAsk::Read {
            client: self.client,
            op: self.op,
            key: self.key,
        })
    }

    /// A request to make this the record.
    pub fn update(&self, rec: Record) -> Out
        ensures { result ≡ outs.Meta (asks.Update self.now.client self.now.op self.now.key rec) }
    {
        Out::Meta(MetaAsk::Update {
            client: self.client,
            op: self.op,
            key: self.key,
            rec,
        })
    }

    /// A request to make this the record, where the record has the expected timestamp.
    pub fn swap(&self, expected: Stamp, rec: Record) -> Out
        ensures { result ≡ outs.Meta (asks.Swap self.now.client self.now.op self.now.key expected rec) }
    {
        Out::Meta(MetaAsk::Swap {
            client: self.client,
            op: self.op,
            key: self.key,
            expected,
            rec,
        })
    }

    /// A request to be told once that the record has a timestamp above this one.
    pub fn watch(&self, stamp: Stamp) -> Out
        ensures { result ≡ outs.Meta (asks.Watch self.now.client self.now.op self.now.key stamp) }
    {
        Out::Meta(MetaAsk::Watch {
            client: self.client,
            op: self.op,
            key: self.key,
            stamp,
        })
    }

    /// A request for the superseded timestamps.
    pub fn olds(&self) -> Out
        ensures { result ≡ outs.Meta (asks.Olds self.now.client self.now.op self.now.key) }
    {
        Out::Meta(MetaAsk::Olds {
            client: self.client,
            op: self.op,
            key: self.key,
        })
    }

    /// A request to keep these superseded timestamps no longer.
    pub fn forget(&self, stamps: Stamps) -> Out
        ensures { result ≡ outs.Meta (asks.Forget self.now.client self.now.op self.now.key stamps) }
    {
        Out::Meta(MetaAsk::Forget {
            client: self.client,
            op: self.op,
            key: self.key,
            stamps,
        })
    }

    /// A request to the cloud about the object of this timestamp.
    pub fn wish(&self, cloud: u8, stamp: Stamp, act: CloudAct) -> Out
        ensures { let i = self.now in
            result ≡ outs.Cloud (record {
              client = i.client;
              op = i.op;
              cloud = cloud;
              wish = record { key = i.key; stamp = stamp; act = act };
            }) }
    {
        Out::Cloud(CloudAsk {
            client: self.client,
            op: self.op,
            cloud,
            wish: Wish {
                key: self.key,
                stamp,
                act,
            },
        })
    }
}
