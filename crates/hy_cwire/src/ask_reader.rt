//! A reader of what is asked, which is fed a connection's bytes piece by piece.

ghost use Rattle.std.specs.Prelude.{◌≡◌, ◌≢◌, ◌++◌, ℕ, List, [], Err, IfOk};
ghost use Rattle.hy_cwire.specs.declared.fault.HttpFault.TheVariants as faults;
ghost use Rattle.hy_cwire.specs.declared.progress.Progress.TheVariants as stages;
ghost use Rattle.hy_cwire.specs.Stages.{IsLive, IsOpen, answer_of, after_end, after_next, next_answer};
ghost use Rattle.hy_cwire.specs.Readers.{IsAskAt, ask_body_size};
ghost use Rattle.hy_cwire.specs.Asks.{wish_in};

use crate::ask_head::AskHead;
use crate::bytes::Bytes;
use crate::fault::HttpFault;
use crate::progress::{Progress, answer, ended, fed, whole};
use hy_base::NoMemory;
use hy_record::Wish;
use std::alloc::Global;
use std::marker::Model;
use std::mem;

/// One request, of which so many bytes came. Bytes behind it are ignored.
#[derive(Debug, Drop)]
pub struct AskReader {
    progress: Progress<AskHead>,
}

impl Model for AskReader {
    ghost use Rattle.hy_cwire.specs.declared.ask_head.AskHead.{AskHead};
    ghost use Rattle.hy_cwire.specs.declared.progress.Progress.{Progress};

    ghost Value = { Progress AskHead };

    ghost use Rattle.hy_cwire.specs.Stages.{IsSound};

    ghost view = { λ reader. reader.progress };

    ghost invariant = { λ reader. IsSound reader.progress };
}

impl AskReader {
    /// A reader of a request that has not begun.
    pub fn new(alloc: Global) -> Result<AskReader, NoMemory>
        ensures fresh { IfOk result (λ reader. reader ≡ stages.Head []) }
        ensures stands { IfOk result (IsAskAt []) }
    {
        Ok(AskReader {
            progress: Progress::Head(Bytes::new(alloc)),
        })
    }

    /// Takes a piece, unless a fault was answered before. A fault that the bytes show is answered,
    /// and from then on.
    pub fn feed(&mut self, alloc: Global, piece: &[u8]) -> Result<(), HttpFault>
        ensures answer { result ≢ Err faults.NoMemory → result ≡ answer_of self.new }
        ensures stands { result ≢ Err faults.NoMemory → IsLive self.old → (bytes : List ℕ)
            → IsAskAt bytes self.old → IsAskAt (bytes ++ piece.now) self.new }
        ensures open { result ≢ Err faults.NoMemory → IsOpen self.old → IsOpen self.new }
        ensures broken { ¬ (IsLive self.old) → self.new ≡ self.old }
        ensures memory { result ≡ Err faults.NoMemory → self.new ≡ self.old }
    {
        let progress = mem::replace(&mut self.progress, Progress::Given);
        match fed(alloc, progress, piece) {
            Ok(after) => {
                self.progress = after;
                answer(&self.progress)
            }
            Err(before) => {
                self.progress = before;
                Err(HttpFault::NoMemory)
            }
        }
    }

    /// The peer closed: a request that is not whole is cut, and this is answered from then on.
    pub fn end(&mut self) -> Result<(), HttpFault>
        ensures answer { result ≡ answer_of self.new }
        ensures memory { result ≢ Err faults.NoMemory }
        ensures after { self.new ≡ after_end ask_body_size self.old }
        ensures stands { (bytes : List ℕ) → IsAskAt bytes self.old → IsAskAt bytes self.new }
    {
        let progress = mem::replace(&mut self.progress, Progress::Given);
        self.progress = ended(progress);
        answer(&self.progress)
    }

    /// The request, once, when it is whole. It takes no memory.
    pub fn next(&mut self) -> Result<Option<Wish>, HttpFault>
        ensures answer { result ≡ next_answer wish_in self.old }
        ensures memory { result ≢ Err faults.NoMemory }
        ensures after { self.new ≡ after_next ask_body_size self.old }
        ensures stands { (bytes : List ℕ) → IsAskAt bytes self.old → IsAskAt bytes self.new }
    {
        let progress = mem::replace(&mut self.progress, Progress::Given);
        match whole(progress) {
            Ok((head, body)) => Ok(Some(head.wish(body))),
            Err(before) => {
                self.progress = before;
                answer(&self.progress)?;
                Ok(None)
            }
        }
    }
}
