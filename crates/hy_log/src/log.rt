//! What the simulator keeps of its steps.

ghost use Rattle.std.specs.Prelude.{◌≡◌, ◌+◌, ◌<◌, ◌^◌, ◌++◌, ◌∷◌, [], List, map, OnOk};
ghost use Rattle.std.specs.Option.{option_copied};
ghost use Rattle.hy_trace.specs.Deeds.{Params as TraceParams, Deed};
ghost use Rattle.hy_log.specs.Effects.{AreEffects};
ghost use Rattle.hy_log.specs.Log.{Keeps, posted, started, posted_at};

use crate::courses::Courses;
use crate::effects::{Beginning, Effects};
use crate::kept::Kept;
use crate::last_key::LastKey;
use crate::notes::{note_of_heard, note_of_return, note_of_update};
use crate::post::Post;
use hy_base::NoMemory;
use std::alloc::Global;

/// An operation that began, and the step at which it did.
#[derive(Debug, Drop)]
pub struct Started {
    pub step: u64,
    pub beginning: Beginning,
}

/// The messages and the operations of a run, each with its step.
#[derive(Drop)]
pub struct Log {
    pub posts: Vec<Kept>,
    pub starts: Vec<Started>,
    pub courses: Courses,
    pub steps: u64,
    /// The key of the request to a cloud that was kept last.
    pub(crate) last_key: LastKey,
}

impl Log {
    /// Nothing was done.
    pub fn new(alloc: Global) -> Log
        ensures { (p : TraceParams) → Keeps result p [] }
    {
        Log {
            posts: Vec::new(alloc),
            starts: Vec::new(alloc),
            courses: Courses::new(alloc),
            steps: 0,
            last_key: LastKey::new(),
        }
    }

    /// Adds a step with its effects.
    pub fn append(&mut self, effects: Effects) -> Result<(), NoMemory>
        requires { self.old.steps + 1 < 2 ^ 64 }
        ensures steps { OnOk result (self.new.steps ≡ self.old.steps + 1) }
        ensures keeps { OnOk result ((p : TraceParams) (d : Deed) (t : List Deed) →
            AreEffects p d t effects → Keeps self.old p t → Keeps self.new p (d ∷ t)) }
    {
        let step = self.steps + 1;
        add_posts(&mut self.posts, &mut self.last_key, step, effects.posts)?;
        add_start(&mut self.starts, step, effects.began)?;
        self.courses.note(note_of_heard(effects.heard))?;
        self.courses.note(note_of_return(step, effects.returned))?;
        self.courses.note(note_of_update(step, effects.updated))?;
        self.steps = step;
        Ok(())
    }

    /// The message of this number, with its step.
    pub fn posted(&self, number: u64) -> Option<&Kept>
        ensures { option_copied result ≡ posted_at number self.now.posts.items }
    {
        if number == 0 {
            return None;
        }
        self.posts.get(number as usize - 1)
    }
}

/// Adds messages of this step.
fn add_posts(
    posts: &mut Vec<Kept>,
    last_key: &mut LastKey,
    step: u64,
    new: Vec<Post>,
) -> Result<(), NoMemory>
    ensures { OnOk result (posts.new.items ≡ posts.old.items ++ map (posted step) new.items) }
{
    let alloc = *posts.allocator();
    for post in new {
        let kept = Kept::of(alloc, step, post, last_key)?;
        posts.push(kept)?;
    }
    Ok(())
}

/// Adds an operation that began at this step.
fn add_start(starts: &mut Vec<Started>, step: u64, began: Option<Beginning>) -> Result<(), NoMemory>
    ensures { OnOk result (starts.new.items ≡ starts.old.items ++ started step began) }
{
    if let Some(beginning) = began {
        starts.push(Started { step, beginning })?;
    }
    Ok(())
}
