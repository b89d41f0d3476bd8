//! A reader of what a cloud answers, which is fed a connection's bytes piece by piece.

ghost use Rattle.std.specs.Prelude.{◌≡◌, ◌≢◌, ◌++◌, ℕ, List, [], Err, IfOk};
ghost use Rattle.hy_cwire.specs.declared.fault.HttpFault.TheVariants as faults;
ghost use Rattle.hy_cwire.specs.declared.progress.Progress.TheVariants as stages;
ghost use Rattle.hy_cwire.specs.Stages.{IsLive, IsOpen, answer_of, after_end, after_next};
ghost use Rattle.hy_cwire.specs.Readers.{IsSayAt, say_body_size, next_say};

use crate::bytes::Bytes;
use crate::fault::HttpFault;
use crate::kind::WishKind;
use crate::progress::{Progress, answer, ended, fed, whole};
use crate::say_head::SayHead;
use hy_base::NoMemory;
use hy_record::CloudSay;
use std::alloc::Global;
use std::marker::Model;
use std::mem;

/// One answer, of which so many bytes came, to a request of one kind. Bytes behind it are ignored.
#[derive(Debug, Drop)]
pub struct SayReader {
    asked: WishKind,
    progress: Progress<SayHead>,
}

impl Model for SayReader {
    ghost use Rattle.hy_cwire.specs.Readers.{Answering};

    ghost Value = { Answering };

    ghost use Rattle.hy_cwire.specs.Stages.{IsSound};

    ghost view = { λ reader. record { asked = reader.asked; progress = reader.progress } };

    ghost invariant = { λ reader. IsSound reader.progress };
}

impl SayReader {
    /// A reader of an answer that has not begun, to a request of this kind.
    pub fn new(alloc: Global, act: WishKind) -> Result<SayReader, NoMemory>
        ensures fresh { IfOk result
            (λ reader. reader ≡ record { asked = act; progress = stages.Head [] }) }
        ensures stands { IfOk result (λ reader. IsSayAt [] reader.progress) }
    {
        Ok(SayReader {
            asked: act,
            progress: Progress::Head(Bytes::new(alloc)),
        })
    }

    /// Takes a piece, unless a fault was answered before. A fault that the bytes show is answered,
    /// and from then on.
    pub fn feed(&mut self, alloc: Global, piece: &[u8]) -> Result<(), HttpFault>
        ensures answer { result ≢ Err faults.NoMemory → result ≡ answer_of self.new.progress }
        ensures stands { result ≢ Err faults.NoMemory → IsLive self.old.progress
            → (bytes : List ℕ) → IsSayAt bytes self.old.progress
            → IsSayAt (bytes ++ piece.now) self.new.progress }
        ensures open { result ≢ Err faults.NoMemory → IsOpen self.old.progress → IsOpen self.new.progress }
        ensures broken { ¬ (IsLive self.old.progress) → self.new ≡ self.old }
        ensures memory { result ≡ Err faults.NoMemory → self.new ≡ self.old }
        ensures asked { self.new.asked ≡ self.old.asked }
    {
        let progress = mem::replace(&mut self.progress, Progress::Given);
        match fed(alloc, progress, piece) {
            Ok(after) => {
                self.progress = after;
                answer(&self.progress)
            }
            Err(before) => {
                self.progress = before;
                Err(HttpFault::NoMemory)
            }
        }
    }

    /// The peer closed: an answer that is not whole is cut, and this is answered from then on.
    pub fn end(&mut self) -> Result<(), HttpFault>
        ensures answer { result ≡ answer_of self.new.progress }
        ensures memory { result ≢ Err faults.NoMemory }
        ensures after { self.new
            ≡ record self.old { progress = after_end say_body_size self.old.progress } }
        ensures stands { (bytes : List ℕ) → IsSayAt bytes self.old.progress
            → IsSayAt bytes self.new.progress }
    {
        let progress = mem::replace(&mut self.progress, Progress::Given);
        self.progress = ended(progress);
        answer(&self.progress)
    }

    /// The answer, once, when it is whole. It takes no memory.
    pub fn next(&mut self) -> Result<Option<CloudSay>, HttpFault>
        ensures answer { result ≡ next_say self.old }
        ensures memory { result ≢ Err faults.NoMemory }
        ensures after { self.new
            ≡ record self.old { progress = after_next say_body_size self.old.progress } }
        ensures stands { (bytes : List ℕ) → IsSayAt bytes self.old.progress
            → IsSayAt bytes self.new.progress }
    {
        let progress = mem::replace(&mut self.progress, Progress::Given);
        match whole(progress) {
            Ok((head, body)) => Ok(Some(head.say(self.asked, body))),
            Err(before) => {
                self.progress = before;
                answer(&self.progress)?;
                Ok(None)
            }
        }
    }
}
