//! The requests of a get.

ghost use Rattle.std.specs.Prelude.{◌≡◌, ◌++◌, ◌∷◌, [], IfOk, OnOk};
ghost use Rattle.hy_protocol.specs.Read.{asks_record, gets_from};
ghost use Rattle.hy_get.specs.Requests.{plan_of, watch_and_gets};

use hy_base::NoMemory;
use hy_operation::Issuer;
use hy_record::{CloudAct, Out, Stamp};
use std::alloc::Global;

/// A request for the record.
pub(crate) fn read(alloc: Global, issuer: &Issuer) -> Result<Vec<Out>, NoMemory>
    ensures { IfOk result (λ sends. sends.items ≡ asks_record (plan_of issuer.now)) }
{
    let mut sends = Vec::new(alloc);
    sends.push(issuer.read())?;
    Ok(sends)
}

/// A request to each of the clouds for what it holds.
pub(crate) fn gets(
    alloc: Global,
    issuer: &Issuer,
    stamp: Stamp,
    clouds: &[u8],
) -> Result<Vec<Out>, NoMemory>
    ensures { IfOk result (λ sends. sends.items ≡ gets_from (plan_of issuer.now) stamp clouds.now) }
{
    let mut sends = Vec::new(alloc);
    add_gets(&mut sends, issuer, stamp, clouds)?;
    Ok(sends)
}

/// A watch of the record, and then a request to each of the clouds.
pub(crate) fn watch_and_gets(
    alloc: Global,
    issuer: &Issuer,
    stamp: Stamp,
    clouds: &[u8],
) -> Result<Vec<Out>, NoMemory>
    ensures { IfOk result (λ sends. sends.items ≡ watch_and_gets (plan_of issuer.now) stamp clouds.now) }
{
    let mut requests = Vec::new(alloc);
    requests.push(issuer.watch(stamp))?;
    add_gets(&mut requests, issuer, stamp, clouds)?;
    Ok(requests)
}

/// Adds a request to each of the clouds for what it holds.
fn add_gets(
    sends: &mut Vec<Out>,
    issuer: &Issuer,
    stamp: Stamp,
    clouds: &[u8],
) -> Result<(), NoMemory>
    ensures { OnOk result (sends.new.items ≡ sends.old.items ++ gets_from (plan_of issuer.now) stamp clouds.now) }
{
    for cloud in clouds {
        sends.push(issuer.wish(*cloud, stamp, CloudAct::Get))?;
    }
    Ok(())
}
