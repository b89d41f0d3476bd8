//! A superseded timestamp that is to be deleted.

ghost use Rattle.std.specs.Prelude.{◌≡◌, ◌==◌, ◌||◌, ◌-◌, ◌++◌, ◌<◌, ℕ, OnOk};
ghost use Rattle.hy_operation.specs.Marks.{is_marked};
ghost use Rattle.hy_client.specs.Targets.{deletes_of};

use hy_base::NoMemory;
use hy_operation::{Issuer, Marks};
use hy_record::{CloudAct, Out, Stamp};

/// A superseded timestamp, and the clouds that have acknowledged the deletion of its object.
#[derive(Clone, Copy, Debug)]
pub(crate) struct Target {
    pub(crate) stamp: Stamp,
    pub(crate) gone: Marks,
    /// How many more clouds have to acknowledge.
    pub(crate) lacking: u8,
}

impl Target {
    /// The cloud, which had not, acknowledged.
    pub(crate) fn acknowledge(&mut self, cloud: u8)
        ensures stamp { self.new.stamp ≡ self.old.stamp }
        ensures gone { (i : ℕ) → i < 16 → is_marked self.new.gone i ≡ (is_marked self.old.gone i || cloud == i) }
        ensures lacking { self.new.lacking ≡ self.old.lacking - 1 }
    {
        self.gone.mark(cloud);
        self.lacking = self.lacking.saturating_sub(1);
    }

    /// Adds a request to each cloud below this number that has not acknowledged.
    pub(crate) fn add_deletes(
        &self,
        sends: &mut Vec<Out>,
        issuer: &Issuer,
        clouds: u8,
    ) -> Result<(), NoMemory>
        ensures { OnOk result (sends.new.items ≡ sends.old.items ++ deletes_of issuer.now clouds self.now) }
    {
        for cloud in 0..clouds {
            if !self.gone.has(cloud) {
                sends.push(issuer.wish(cloud, self.stamp, CloudAct::Delete))?;
            }
        }
        Ok(())
    }
}
