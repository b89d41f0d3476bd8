//! The applied writings of a key that raised its record, in order.

ghost use Rattle.std.specs.Prelude.{◌≡◌, OnOk};
ghost use Rattle.hy_points.specs.Index.{AreRising, first_above, raised, is_above_all};

use hy_base::NoMemory;
use hy_record::Stamp;

/// An applied writing whose timestamp is above that of each before it.
#[derive(Clone, Copy)]
pub(crate) struct Peak {
    pub(crate) place: usize,
    pub(crate) stamp: Stamp,
}

/// Adds the applied writing at the place, where it is above those before it.
pub(crate) fn raise(peaks: &mut Vec<Peak>, place: usize, stamp: Stamp) -> Result<(), NoMemory>
    ensures { OnOk result (peaks.new.items ≡ raised peaks.old.items place stamp) }
{
    if is_above_all(peaks, &stamp) {
        peaks.push(Peak { place, stamp })?;
    }
    Ok(())
}

/// Whether the timestamp is above that of the last of these.
fn is_above_all(peaks: &[Peak], stamp: &Stamp) -> bool
    ensures { result ≡ is_above_all peaks.now stamp.now }
{
    match peaks.last() {
        Some(last) => last.stamp.is_below(stamp),
        None => true,
    }
}

/// The place of the first with a greater timestamp.
pub(crate) fn first_above(peaks: &[Peak], stamp: &Stamp) -> Option<usize>
    requires { AreRising peaks.now }
    ensures { result ≡ first_above stamp.now peaks.now }
{
    let below = peaks.partition_point(|peak| !stamp.is_below(&peak.stamp));
    let peak = peaks.get(below)?;
    Some(peak.place)
}
