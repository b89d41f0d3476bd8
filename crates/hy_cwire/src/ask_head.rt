//! The head of what is asked.

ghost use Rattle.std.specs.Prelude.{◌≡◌, ◌≢◌, ◌≤◌, ◌<◌, Err, [], length, map, IfOk, All};
ghost use Rattle.httparse.specs.Grammar.{RequestHead, ReadsRequest};
ghost use Rattle.httparse.specs.Spans.{IsRequestAt, IsRequestWithin};
ghost use Rattle.hy_cwire.specs.declared.ask_head.RequestSearch.TheVariants as searches;
ghost use Rattle.hy_cwire.specs.declared.fault.HttpFault.TheVariants as faults;
ghost use Rattle.httparse.specs.Spans.{IsHeaderWithin, header_bytes};
ghost use Rattle.hy_cwire.specs.Lengths.{body_size};
ghost use Rattle.hy_cwire.specs.Asks.{has_body, most_bytes, kind_named, kind_or_fault, JudgesAsk, AskComesTo, FindsRequest, wish_of};

use crate::block::MAX_HEAD;
use crate::fault::HttpFault;
use crate::fields::size_of_body;
use crate::kind::WishKind;
use crate::progress::Head;
use http::Method;
use http::method::MethodError;
use httparse::spans::{EMPTY_HEADER_SPAN, HeaderSpan, RequestSpans, parse_request};
use httparse::{Error, Status};
use hy_base::{Blob, MAX_VALUE, NoMemory};
use hy_record::{CloudAct, Key, Stamp, Wish, read_name};
use std::alloc::Global;

/// The fields for which there is room at first.
pub(crate) const FEW_FIELDS: usize = 64;

/// What the head of a request says.
#[derive(Debug, Drop)]
pub struct AskHead {
    kind: WishKind,
    key: Key,
    stamp: Stamp,
    size: u64,
}

/// What a search for a head found.
#[derive(Clone, Copy, Debug)]
pub(crate) enum RequestSearch {
    /// The block is this head.
    Found(RequestSpans),
    /// The block is no head.
    NoHead,
    /// There is no room for all fields of the head, if there is one.
    NoRoom,
}

/// What the block comes to.
pub(crate) fn read_ask(alloc: Global, block: &[u8]) -> Result<AskHead, HttpFault>
    requires { length block.now ≤ MAX_HEAD }
    ensures { result ≢ Err faults.NoMemory → AskComesTo block.now result }
{
    let mut few = [EMPTY_HEADER_SPAN; FEW_FIELDS];
    match request_in(block, &mut few) {
        RequestSearch::Found(spans) => judge(alloc, block, &few, &spans),
        RequestSearch::NoHead => Err(HttpFault::NotHead(block.len())),
        RequestSearch::NoRoom => read_long_ask(alloc, block),
    }
}

/// The same, with room for as many fields as a block can have.
fn read_long_ask(alloc: Global, block: &[u8]) -> Result<AskHead, HttpFault>
    requires { length block.now ≤ MAX_HEAD }
    ensures { result ≢ Err faults.NoMemory → AskComesTo block.now result }
{
    let mut all = most_spans(alloc)?;
    match request_in(block, &mut all) {
        RequestSearch::Found(spans) => judge(alloc, block, &all, &spans),
        RequestSearch::NoHead => Err(HttpFault::NotHead(block.len())),
        RequestSearch::NoRoom => Err(HttpFault::NotHead(block.len())),
    }
}

/// Room for as many fields as a head can have.
pub(crate) fn most_spans(alloc: Global) -> Result<Vec<HeaderSpan>, NoMemory>
    ensures { IfOk result (λ spans. length spans.items ≡ MAX_HEAD) }
{
    Ok(vec![in alloc; EMPTY_HEADER_SPAN; MAX_HEAD]?)
}

/// Searches a head that is the whole block.
fn request_in(block: &[u8], headers: &mut [HeaderSpan]) -> RequestSearch
    ensures found { FindsRequest block.now headers.new result }
    ensures no_head { result ≡ searches.NoHead → (h : RequestHead)
        → ¬ (ReadsRequest block.now h []) }
    ensures no_room { result ≡ searches.NoRoom → (h : RequestHead) → ReadsRequest block.now h []
        → length headers.old < length h.fields }
{
    match parse_request(block, headers) {
        Ok(Status::Complete(spans)) => {
            if spans.len == block.len() {
                RequestSearch::Found(spans)
            } else {
                RequestSearch::NoHead
            }
        }
        Ok(Status::Partial) => RequestSearch::NoHead,
        Err(Error::TooManyHeaders) => RequestSearch::NoRoom,
        Err(_) => RequestSearch::NoHead,
    }
}

/// What the head comes to that stands in the spans.
fn judge(
    alloc: Global,
    block: &[u8],
    headers: &[HeaderSpan],
    spans: &RequestSpans,
) -> Result<AskHead, HttpFault>
    requires { IsRequestWithin block.now headers.now spans.now }
    ensures { result ≢ Err faults.NoMemory → (h : RequestHead)
        → IsRequestAt block.now headers.now spans.now h → JudgesAsk h result }
{
    let kind = kind_of(alloc, spans.method.of(block))?;
    let fields = &headers[..spans.headers];
    match read_name(spans.path.of(block)) {
        None => Err(HttpFault::BadTarget),
        Some((key, stamp)) => {
            let size = size_of_ask(block, fields, kind)?;
            Ok(AskHead {
                kind,
                key,
                stamp,
                size,
            })
        }
    }
}

/// The size of the body of a request of this kind.
fn size_of_ask(block: &[u8], headers: &[HeaderSpan], kind: WishKind) -> Result<u64, HttpFault>
    requires { All (IsHeaderWithin (length block.now)) headers.now }
    ensures { result ≡ body_size (has_body kind) (most_bytes kind)
        (map (header_bytes block.now) headers.now) }
{
    match kind {
        WishKind::Put => size_of_body(block, headers, true, u64::from(MAX_VALUE)),
        WishKind::Get | WishKind::Delete => size_of_body(block, headers, false, 0),
    }
}

/// What the method asks for.
fn kind_of(alloc: Global, method: &[u8]) -> Result<WishKind, HttpFault>
    ensures { result ≢ Err faults.NoMemory → result ≡ kind_or_fault (kind_named method.now) }
{
    match Method::from_bytes(alloc, method) {
        Ok(method) => match method.as_str() {
            "PUT" => Ok(WishKind::Put),
            "GET" => Ok(WishKind::Get),
            "DELETE" => Ok(WishKind::Delete),
            _ => Err(HttpFault::BadMethod),
        },
        Err(MethodError::Invalid) => Err(HttpFault::BadMethod),
        Err(MethodError::OutOfMemory) => Err(HttpFault::NoMemory),
    }
}

impl Head for AskHead {
    ghost comes_to = { AskComesTo };

    ghost size = { λ head. head.size };

    fn read(alloc: Global, block: &[u8]) -> Result<AskHead, HttpFault> {
        read_ask(alloc, block)
    }

    fn body_size(&self) -> usize {
        self.size as usize
    }
}

impl AskHead {
    /// The request, with this body.
    pub(crate) fn wish(self, body: Vec<u8>) -> Wish
        ensures { result ≡ wish_of self body.items }
    {
        let act = match self.kind {
            WishKind::Put => CloudAct::Put(Blob::of(body)),
            WishKind::Get => CloudAct::Get,
            WishKind::Delete => CloudAct::Delete,
        };
        Wish {
            key: self.key,
            stamp: self.stamp,
            act,
        }
    }
}
