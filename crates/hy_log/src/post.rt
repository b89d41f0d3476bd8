//! Messages as clients and the service send them.

ghost use Rattle.std.specs.Prelude.{◌≡◌, map, IfOk};
ghost use Rattle.hy_trace.specs.Messages.{message_of, Say};
ghost use Rattle.hy_log.specs.Effects.{post_of};

use hy_base::NoMemory;
use hy_record::{CloudAsk, Cue, MetaAsk, MetaSay, Out};
use std::alloc::Global;

/// A message in the network.
#[derive(Debug, Drop)]
pub enum Post {
    /// A request to the metadata service.
    Ask(MetaAsk),
    /// A request to a cloud.
    Request(CloudAsk),
    /// An answer to a client.
    Answer(Cue),
}

/// What a client sends, as messages.
pub fn posts_of(alloc: Global, outs: Vec<Out>) -> Result<Vec<Post>, NoMemory>
    ensures { IfOk result (λ posts. posts.items ≡ map post_of (map message_of outs.items)) }
{
    let mut posts = Vec::new(alloc);
    for out in outs {
        let post = match out {
            Out::Meta(ask) => Post::Ask(ask),
            Out::Cloud(ask) => Post::Request(ask),
        };
        posts.push(post)?;
    }
    Ok(posts)
}

/// What the service answers, as messages.
pub fn posts_of_says(alloc: Global, says: Vec<MetaSay>) -> Result<Vec<Post>, NoMemory>
    ensures { IfOk result (λ posts. posts.items ≡ map post_of (map Say says.items)) }
{
    let mut posts = Vec::new(alloc);
    for say in says {
        posts.push(Post::Answer(Cue::Meta(say)))?;
    }
    Ok(posts)
}
