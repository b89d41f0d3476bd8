//! Messages as they are kept: small, since a run can have tens of millions of them.

ghost use Rattle.std.specs.Prelude.{◌≡◌, IfOk};
ghost use Rattle.hy_log.specs.Kept.{act_in, request_in, post_in};

use crate::last_key::LastKey;
use crate::post::Post;
use hy_base::{Blob, NoMemory};
use hy_record::{CloudAct, CloudAsk, Cue, Key, MetaAsk, Stamp, Wish};
use std::alloc::Global;
use std::marker::Model;
use std::rc::Rc;

/// What a cloud is asked for.
#[derive(Drop)]
pub enum KeptAct {
    Put(Box<Blob>),
    Get,
    Delete,
}

/// A request to a cloud, which shares its key with others.
#[derive(Drop)]
pub struct KeptRequest {
    client: u32,
    op: u32,
    key: Rc<Key>,
    stamp: Stamp,
    act: KeptAct,
    cloud: u8,
}

/// A message in the network.
#[derive(Drop)]
pub enum KeptPost {
    /// A request to the metadata service.
    Ask(Box<MetaAsk>),
    /// A request to a cloud.
    Request(KeptRequest),
    /// An answer to a client.
    Answer(Box<Cue>),
}

/// A message, and the step at which it was sent.
#[derive(Drop)]
pub struct Kept {
    step: u64,
    post: KeptPost,
}

impl Model for Kept {
    ghost use Rattle.hy_log.specs.Kept.{Posted, post_in};

    ghost Value = { Posted };

    ghost view = { λ kept. record { step = kept.step; post = post_in kept.post } };
}

impl Kept {
    ghost use Rattle.hy_log.specs.Log.{posted};

    /// A message of this step; its key is shared where it is that of the request before.
    pub(crate) fn of(
        alloc: Global,
        step: u64,
        post: Post,
        last: &mut LastKey,
    ) -> Result<Kept, NoMemory>
        ensures { IfOk result (λ kept. kept ≡ posted step post) }
    {
        let post = kept_post(alloc, post, last)?;
        Ok(Kept { step, post })
    }

    /// The step at which it was sent.
    pub fn step(&self) -> u64
        ensures { result ≡ self.now.step }
    {
        self.step
    }

    /// The message.
    pub fn post(&self) -> &KeptPost
        ensures { post_in result.now ≡ self.now.post }
    {
        &self.post
    }
}

/// A message as it is kept; its key is shared where it is that of the message before.
fn kept_post(alloc: Global, post: Post, last: &mut LastKey) -> Result<KeptPost, NoMemory>
    ensures { IfOk result (λ kept. post_in kept ≡ post) }
{
    match post {
        Post::Ask(ask) => Ok(KeptPost::Ask(Box::new(alloc, ask)?)),
        Post::Request(ask) => Ok(KeptPost::Request(KeptRequest::of(alloc, ask, last)?)),
        Post::Answer(cue) => Ok(KeptPost::Answer(Box::new(alloc, cue)?)),
    }
}

impl KeptRequest {
    /// The request as it is kept.
    fn of(alloc: Global, ask: CloudAsk, last: &mut LastKey) -> Result<KeptRequest, NoMemory>
        ensures { IfOk result (λ kept. request_in kept ≡ ask) }
    {
        let key = last.share(alloc, &ask.wish.key)?;
        Ok(KeptRequest {
            client: ask.client,
            op: ask.op,
            key,
            stamp: ask.wish.stamp,
            act: kept_act(alloc, ask.wish.act)?,
            cloud: ask.cloud,
        })
    }

    /// The request, in memory of its own.
    pub fn ask(&self, alloc: Global) -> Result<CloudAsk, NoMemory>
        ensures { IfOk result (λ ask. ask ≡ request_in self.now) }
    {
        let act = whole_act(alloc, &self.act)?;
        let wish = Wish {
            key: *self.key.as_ref(),
            stamp: self.stamp,
            act,
        };
        Ok(CloudAsk {
            client: self.client,
            op: self.op,
            cloud: self.cloud,
            wish,
        })
    }
}

/// What a cloud is asked for, as it is kept.
fn kept_act(alloc: Global, act: CloudAct) -> Result<KeptAct, NoMemory>
    ensures { IfOk result (λ kept. act_in kept ≡ act) }
{
    match act {
        CloudAct::Put(bytes) => Ok(KeptAct::Put(Box::new(alloc, bytes)?)),
        CloudAct::Get => Ok(KeptAct::Get),
        CloudAct::Delete => Ok(KeptAct::Delete),
    }
}

/// What a cloud is asked for, in memory of its own.
fn whole_act(alloc: Global, act: &KeptAct) -> Result<CloudAct, NoMemory>
    ensures { IfOk result (λ whole. whole ≡ act_in act.now) }
{
    match act {
        KeptAct::Put(bytes) => Ok(CloudAct::Put(Blob::copy_of(alloc, bytes.bytes())?)),
        KeptAct::Get => Ok(CloudAct::Get),
        KeptAct::Delete => Ok(CloudAct::Delete),
    }
}
