//! Which operation an input is for.

ghost use Rattle.std.specs.Prelude.{◌≡◌};
ghost use Rattle.hy_protocol.specs.Inputs.{says_to, addresses};

use hy_record::{Cue, Key, MetaSay};

/// Whether the service's answer is for this operation.
fn says_to(client: u32, op: u32, key: &Key, say: &MetaSay) -> bool
    ensures { result ≡ says_to client op key.now say.now }
{
    let (c, o, k) = match say {
        MetaSay::Has {
            client,
            op,
            key,
            ..
        } => (*client, *op, key),
        MetaSay::Applied {
            client,
            op,
            key,
            ..
        } => (*client, *op, key),
        MetaSay::Kept {
            client,
            op,
            key,
            ..
        } => (*client, *op, key),
        MetaSay::Fired {
            client,
            op,
            key,
            ..
        } => (*client, *op, key),
        MetaSay::OldList {
            client,
            op,
            key,
            ..
        } => (*client, *op, key),
        MetaSay::Forgot { client, op, key } => (*client, *op, key),
        MetaSay::Swapped {
            client,
            op,
            key,
            ..
        } => (*client, *op, key),
        MetaSay::Changed {
            client,
            op,
            key,
            ..
        } => (*client, *op, key),
    };
    c == client && o == op && k.is_same(key)
}

/// Whether the input is for the client's operation of this number on this key; a timeout is for every operation.
#[tactic(auto, unfolding(crate::specs::Inputs::addresses))]
pub fn is_for(cue: &Cue, client: u32, op: u32, key: &Key) -> bool
    ensures { result ≡ addresses client op key.now cue.now }
{
    match cue {
        Cue::Meta(say) => says_to(client, op, key, say),
        Cue::Cloud(reply) => reply.client == client && reply.op == op && reply.key.is_same(key),
        Cue::Tick => true,
    }
}
