//! Which clouds hold the current version of a key.

ghost use Rattle.std.specs.Prelude.{◌≡◌, ◌<◌, ◌||◌, ◌&&◌, ◌==◌, ℕ, List};
ghost use Rattle.hy_operation.specs.Marks.{is_marked};
ghost use Rattle.hy_record.specs.Clouds.{set_of};
ghost use Rattle.hy_trace.specs.Deeds.{Params as TraceParams, Deed};
ghost use Rattle.hy_trace.specs.Held.{holds_valid, holders_of};
ghost use Rattle.hy_world.specs.Nodes.{NodesStand};
ghost use Rattle.hy_world.specs.Holders.{is_holder};

use crate::cloud_set::has_cloud;
use crate::nodes::Nodes;
use hy_operation::Marks;
use hy_record::{Key, Record};

impl Nodes {
    /// The honest clouds of the record's list that hold valid bytes under its name, as a set.
    pub(crate) fn holders(&self, key: &Key, rec: &Record) -> u16
        ensures { (p : TraceParams) (t : List Deed) → NodesStand p t self.now →
            result ≡ set_of (holders_of p t key.now rec.now) }
    {
        let mut marks = Marks::none();
        for cloud in 0..16u8 {
            let holds = self.is_holder(cloud, key, rec);
            mark_if(&mut marks, cloud, holds);
        }
        marks.set_below(16)
    }

    /// Whether the cloud is of the record's list, honest, and holds valid bytes under its name.
    fn is_holder(&self, cloud: u8, key: &Key, rec: &Record) -> bool
        requires { cloud < 16 }
        ensures { (p : TraceParams) (t : List Deed) → NodesStand p t self.now →
            result ≡ is_holder p t key.now rec.now cloud }
    {
        if !has_cloud(rec.clouds(), cloud) {
            return false;
        }
        self.holds_valid(cloud, key, rec)
    }

    /// Whether the cloud is honest, and holds bytes that are valid for the record under its name.
    fn holds_valid(&self, cloud: u8, key: &Key, rec: &Record) -> bool
        ensures { (p : TraceParams) (t : List Deed) → NodesStand p t self.now →
            result ≡ holds_valid p t key.now rec.now cloud }
    {
        if self.is_liar(cloud) {
            return false;
        }
        match self.clouds[cloud as usize].holds(key, rec.stamp()) {
            Some(bytes) => rec.is_valid(cloud, bytes),
            None => false,
        }
    }
}

/// Marks the cloud, where this is so.
fn mark_if(marks: &mut Marks, cloud: u8, is_so: bool)
    ensures { (i : ℕ) → i < 16 →
        is_marked marks.new i ≡ (is_marked marks.old i || (is_so && cloud == i)) }
{
    if is_so {
        marks.mark(cloud);
    }
}
