//! The frames that a keeper is handed, one after another.

ghost use Rattle.std.specs.Prelude.{◌≡◌, IfOk, IfErr, MatchOption, length};
ghost use Rattle.hy_journal.specs.Requests.{is_request, HasRequest, LacksRequest, AreRequests, RequestsCause, IsReadTo};

use crate::fault::RequestsFault;
use hy_base::NoMemory;
use hy_mwire::{Front, Message, frames_are_read_back, front_of};
use std::alloc::Global;

/// The messages whose frames the bytes are, each a join or what a client asks.
pub fn read_requests(alloc: Global, bytes: &[u8]) -> Result<Vec<Message>, RequestsFault>
    ensures messages { IfOk result (λ messages. AreRequests bytes.now messages.items) }
    ensures cause { IfErr result (RequestsCause bytes.now) }
{
    let mut messages = Vec::new(alloc);
    let mut place = 0usize;
    while place < bytes.len() {
        match request_at(alloc, &bytes[place..])? {
            Some((message, size)) => {
                messages.push(message)?;
                place += size;
            }
            None => return Err(RequestsFault::BadFrame(place as u64)),
        }
    }
    Ok(messages)
}

/// The request in front of the bytes, and how many bytes its frame has; none where no whole frame
/// of one stands there.
fn request_at(alloc: Global, bytes: &[u8]) -> Result<Option<(Message, usize)>, NoMemory>
    ensures { IfOk result (λ found. MatchOption found (LacksRequest bytes.now)
        (λ x. HasRequest bytes.now x.0 x.1)) }
{
    frames_are_read_back();
    match front_of(alloc, 0, bytes)? {
        Front::Message(message, size) => {
            if is_request(&message) {
                Ok(Some((message, size)))
            } else {
                Ok(None)
            }
        }
        Front::Partial => Ok(None),
        Front::Fault(_fault) => Ok(None),
    }
}

/// Whether a keeper serves the message.
fn is_request(message: &Message) -> bool
    ensures { result ≡ is_request message.now }
{
    match message {
        Message::Join | Message::Ask(_) => true,
        Message::Joined { .. } | Message::Full | Message::Say(_) => false,
    }
}
