//! The objects of a cloud, by key and timestamp.

ghost use Rattle.std.specs.Prelude.{◌≡◌, ◌∷◌, [], List, IfOk, OnOk, OnErr};
ghost use Rattle.std.specs.Option.{option_copied, option_map};
ghost use Rattle.hy_record.specs.declared.cloud.CloudAct.TheVariants as acts;
ghost use Rattle.hy_record.specs.declared.cloud.Wish.{Wish};
ghost use Rattle.hy_protocol.specs.Cloud.{answer_by, bytes_held, cloud_answer};
ghost use Rattle.hy_cloud.specs.Objects.{held_in, Becomes, StandsForWishes};

use hy_base::{Blob, NoMemory};
use hy_record::{CloudAct, CloudSay, Key, Stamp, Wish};
use std::alloc::Global;
use std::collections::BTreeMap;

/// A cloud that answers as it should. It stands for the requests that it served.
#[derive(Drop)]
pub struct Cloud {
    objects: BTreeMap<(Key, Stamp), Blob>,
}

impl Cloud {
    /// A cloud that holds nothing.
    pub fn new(alloc: Global) -> Result<Cloud, NoMemory>
        ensures { IfOk result (λ cloud. StandsForWishes cloud []) }
    {
        Ok(Cloud {
            objects: BTreeMap::new(alloc),
        })
    }

    /// Serves a request, and answers it. After want of memory the cloud is as before.
    pub fn serve(&mut self, alloc: Global, wish: &Wish) -> Result<CloudSay, NoMemory>
        ensures says { IfOk result (λ say. (wishes : List Wish) → StandsForWishes self.old wishes → say ≡ cloud_answer wishes wish.now) }
        ensures ok { OnOk result ((wishes : List Wish) → StandsForWishes self.old wishes → StandsForWishes self.new (wish.now ∷ wishes)) }
        ensures err { OnErr result ((wishes : List Wish) → StandsForWishes self.old wishes → StandsForWishes self.new wishes) }
    {
        match &wish.act {
            CloudAct::Put(bytes) => self.put(alloc, wish, bytes),
            CloudAct::Get => self.get(alloc, wish),
            CloudAct::Delete => Ok(self.delete(wish)),
        }
    }

    /// Holds the bytes, where nothing is held under the name.
    fn put(&mut self, alloc: Global, wish: &Wish, bytes: &Blob) -> Result<CloudSay, NoMemory>
        requires { wish.now.act ≡ acts.Put bytes.now }
        ensures says { IfOk result (λ say. say ≡ answer_by wish.now.act (held_in self.old.objects.entries wish.now.key wish.now.stamp)) }
        ensures ok { OnOk result (Becomes self.old.objects.entries self.new.objects.entries wish.now) }
        ensures err { OnErr result (self.new.objects.entries ≡ self.old.objects.entries) }
    {
        match self.object(&wish.key, wish.stamp) {
            Some(held) => {
                if held.bytes() == bytes.bytes() {
                    Ok(CloudSay::Stored { fresh: false })
                } else {
                    Ok(CloudSay::Conflict)
                }
            }
            None => {
                let copy = Blob::copy_of(alloc, bytes.bytes())?;
                self.objects.insert((wish.key, wish.stamp), copy)?;
                Ok(CloudSay::Stored { fresh: true })
            }
        }
    }

    /// Answers the bytes that are held under the name.
    fn get(&self, alloc: Global, wish: &Wish) -> Result<CloudSay, NoMemory>
        requires { wish.now.act ≡ acts.Get }
        ensures says { IfOk result (λ say. say ≡ answer_by wish.now.act (held_in self.now.objects.entries wish.now.key wish.now.stamp)) }
        ensures ok { OnOk result (Becomes self.now.objects.entries self.now.objects.entries wish.now) }
    {
        match self.object(&wish.key, wish.stamp) {
            Some(held) => Ok(CloudSay::Body(Blob::copy_of(alloc, held.bytes())?)),
            None => Ok(CloudSay::Missing),
        }
    }

    /// Holds nothing under the name any more.
    fn delete(&mut self, wish: &Wish) -> CloudSay
        requires { wish.now.act ≡ acts.Delete }
        ensures says { result ≡ answer_by wish.now.act (held_in self.old.objects.entries wish.now.key wish.now.stamp) }
        ensures becomes { Becomes self.old.objects.entries self.new.objects.entries wish.now }
    {
        self.objects.remove(&(wish.key, wish.stamp));
        CloudSay::Gone
    }

    /// The object of this key and timestamp.
    #[tactic(auto, unfolding(crate::specs::Objects::held_in))]
    fn object(&self, key: &Key, stamp: Stamp) -> Option<&Blob>
        ensures { option_copied result ≡ held_in self.now.objects.entries key.now stamp }
    {
        self.objects.get(&(*key, stamp))
    }

    /// The bytes that are held under the name of this key and timestamp.
    pub fn holds(&self, key: &Key, stamp: Stamp) -> Option<&[u8]>
        ensures { (wishes : List Wish) → StandsForWishes self.now wishes → option_map (λ bytes. bytes.now) result ≡ bytes_held wishes key.now stamp }
    {
        match self.object(key, stamp) {
            Some(held) => Some(held.bytes()),
            None => None,
        }
    }
}
