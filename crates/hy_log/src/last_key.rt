//! The key that was kept last.

ghost use Rattle.std.specs.Prelude.{◌≡◌, IfOk};

use hy_base::NoMemory;
use hy_record::Key;
use std::alloc::Global;
use std::rc::Rc;

/// The key that was kept last, if one was: messages that name it share it.
#[derive(Drop)]
pub struct LastKey {
    key: Option<Rc<Key>>,
}

impl LastKey {
    /// No key was kept.
    pub(crate) fn new() -> LastKey {
        LastKey { key: None }
    }

    /// The key, which is kept anew where it is not the last one.
    pub(crate) fn share(&mut self, alloc: Global, key: &Key) -> Result<Rc<Key>, NoMemory>
        ensures { IfOk result (λ shared. shared.value ≡ key.now) }
    {
        if let Some(last) = &self.key {
            if **last == *key {
                return Ok(last.clone()?);
            }
        }
        let shared = Rc::new(alloc, *key)?;
        self.key = Some(shared.clone()?);
        Ok(shared)
    }
}
