//! The head of an answer.

ghost use Rattle.std.specs.Prelude.{◌≡◌, ◌≢◌, ◌≤◌, ◌<◌, Err, [], length};
ghost use Rattle.httparse.specs.Grammar.{ResponseHead, ReadsResponse};
ghost use Rattle.httparse.specs.Spans.{IsResponseAt, IsResponseWithin};
ghost use Rattle.hy_cwire.specs.declared.say_head.ResponseSearch.TheVariants as searches;
ghost use Rattle.hy_cwire.specs.declared.fault.HttpFault.TheVariants as faults;
ghost use Rattle.hy_cwire.specs.Says.{is_bare, JudgesSay, SayComesTo, FindsResponse, say_of};

use crate::ask_head::{FEW_FIELDS, most_spans};
use crate::block::MAX_HEAD;
use crate::fault::HttpFault;
use crate::fields::{size_of_body, size_of_none};
use crate::kind::WishKind;
use crate::progress::Head;
use http::StatusCode;
use httparse::spans::{EMPTY_HEADER_SPAN, HeaderSpan, ResponseSpans, parse_response};
use httparse::{Error, Status};
use hy_base::{Blob, MAX_VALUE};
use hy_record::CloudSay;
use std::alloc::Global;

/// What the head of an answer says.
#[derive(Clone, Copy, Debug)]
pub struct SayHead {
    status: u16,
    size: u64,
}

/// What a search for a head found.
#[derive(Clone, Copy, Debug)]
pub(crate) enum ResponseSearch {
    /// The block is this head.
    Found(ResponseSpans),
    /// The block is no head.
    NoHead,
    /// There is no room for all fields of the head, if there is one.
    NoRoom,
}

/// What the block comes to.
pub(crate) fn read_say(alloc: Global, block: &[u8]) -> Result<SayHead, HttpFault>
    requires { length block.now ≤ MAX_HEAD }
    ensures { result ≢ Err faults.NoMemory → SayComesTo block.now result }
{
    let mut few = [EMPTY_HEADER_SPAN; FEW_FIELDS];
    match response_in(block, &mut few) {
        ResponseSearch::Found(spans) => judge(block, &few, &spans),
        ResponseSearch::NoHead => Err(HttpFault::NotHead(block.len())),
        ResponseSearch::NoRoom => read_long_say(alloc, block),
    }
}

/// The same, with room for as many fields as a block can have.
fn read_long_say(alloc: Global, block: &[u8]) -> Result<SayHead, HttpFault>
    requires { length block.now ≤ MAX_HEAD }
    ensures { result ≢ Err faults.NoMemory → SayComesTo block.now result }
{
    let mut all = most_spans(alloc)?;
    match response_in(block, &mut all) {
        ResponseSearch::Found(spans) => judge(block, &all, &spans),
        ResponseSearch::NoHead => Err(HttpFault::NotHead(block.len())),
        ResponseSearch::NoRoom => Err(HttpFault::NotHead(block.len())),
    }
}

/// Searches a head that is the whole block.
fn response_in(block: &[u8], headers: &mut [HeaderSpan]) -> ResponseSearch
    ensures found { FindsResponse block.now headers.new result }
    ensures no_head { result ≡ searches.NoHead → (h : ResponseHead)
        → ¬ (ReadsResponse block.now h []) }
    ensures no_room { result ≡ searches.NoRoom → (h : ResponseHead) → ReadsResponse block.now h []
        → length headers.old < length h.fields }
{
    match parse_response(block, headers) {
        Ok(Status::Complete(spans)) => {
            if spans.len == block.len() {
                ResponseSearch::Found(spans)
            } else {
                ResponseSearch::NoHead
            }
        }
        Ok(Status::Partial) => ResponseSearch::NoHead,
        Err(Error::TooManyHeaders) => ResponseSearch::NoRoom,
        Err(_) => ResponseSearch::NoHead,
    }
}

/// What the head comes to that stands in the spans.
fn judge(block: &[u8], headers: &[HeaderSpan], spans: &ResponseSpans) -> Result<SayHead, HttpFault>
    requires { IsResponseWithin block.now headers.now spans.now }
    ensures { (h : ResponseHead) → IsResponseAt block.now headers.now spans.now h
        → JudgesSay h result }
{
    let status = spans.code;
    let fields = &headers[..spans.headers];
    let size = if is_bare_status(status) {
        size_of_none(block, fields)?
    } else {
        size_of_body(block, fields, true, u64::from(MAX_VALUE))?
    };
    Ok(SayHead { status, size })
}

/// Whether answers of this status have no body.
fn is_bare_status(status: u16) -> bool
    ensures { result ≡ is_bare status }
{
    match StatusCode::from_u16(status) {
        Ok(code) => {
            code.is_informational()
                || code == StatusCode::NO_CONTENT
                || code == StatusCode::NOT_MODIFIED
        }
        Err(_) => false,
    }
}

impl Head for SayHead {
    ghost comes_to = { SayComesTo };

    ghost size = { λ head. head.size };

    fn read(alloc: Global, block: &[u8]) -> Result<SayHead, HttpFault> {
        read_say(alloc, block)
    }

    fn body_size(&self) -> usize {
        self.size as usize
    }
}

impl SayHead {
    /// What the answer with this body means, where the request was of this kind.
    pub(crate) fn say(self, asked: WishKind, body: Vec<u8>) -> CloudSay
        ensures { result ≡ say_of asked self.status body.items }
    {
        match (asked, self.status) {
            (WishKind::Put, 201) => CloudSay::Stored { fresh: true },
            (WishKind::Put, 200 | 204) => CloudSay::Stored { fresh: false },
            (WishKind::Put, 409) => CloudSay::Conflict,
            (WishKind::Get, 200) => CloudSay::Body(Blob::of(body)),
            (WishKind::Get, 404) => CloudSay::Missing,
            (WishKind::Delete, 200 | 204 | 404) => CloudSay::Gone,
            (_, status) => CloudSay::Bad(status),
        }
    }
}
