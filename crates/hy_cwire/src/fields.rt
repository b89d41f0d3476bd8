//! The fields of a head that say something of the body.

ghost use Rattle.std.specs.Prelude.{◌≡◌, All, length, map, IsTrue};
ghost use Rattle.httparse.specs.Spans.{IsHeaderWithin, header_bytes};
ghost use Rattle.hy_cwire.specs.Lengths.{has_name, values_named, body_size, no_body};
ghost use Rattle.hy_cwire.specs.Named.{IsNamed};

use crate::fault::HttpFault;
use crate::length::length_of;
use httparse::spans::HeaderSpan;

/// The values of the fields of one name.
#[derive(Clone, Copy, Debug)]
pub(crate) enum Named<'a> {
    None,
    One(&'a [u8]),
    Several,
}

/// The size of the body, as the fields give it: where one is needed, it must stand there, and it
/// may have at most so many bytes.
pub(crate) fn size_of_body(
    block: &[u8],
    headers: &[HeaderSpan],
    needed: bool,
    limit: u64,
) -> Result<u64, HttpFault>
    requires { All (IsHeaderWithin (length block.now)) headers.now }
    ensures { result ≡ body_size needed limit (map (header_bytes block.now) headers.now) }
{
    let Named::None = values_of(block, headers, b"transfer-encoding") else {
        return Err(HttpFault::Coding);
    };
    match values_of(block, headers, b"content-length") {
        Named::None if needed => Err(HttpFault::NoLength),
        Named::None => Ok(0),
        Named::One(value) => match length_of(value) {
            None => Err(HttpFault::NoLength),
            Some(size) if size > limit => Err(HttpFault::BodyTooLong(size)),
            Some(size) => Ok(size),
        },
        Named::Several => Err(HttpFault::LengthTwice),
    }
}

/// That the message has no body, whatever length its fields give.
pub(crate) fn size_of_none(block: &[u8], headers: &[HeaderSpan]) -> Result<u64, HttpFault>
    requires { All (IsHeaderWithin (length block.now)) headers.now }
    ensures { result ≡ no_body (map (header_bytes block.now) headers.now) }
{
    match values_of(block, headers, b"transfer-encoding") {
        Named::None => Ok(0),
        _ => Err(HttpFault::Coding),
    }
}

/// The values of the fields of this name.
fn values_of<'a>(block: &'a [u8], headers: &[HeaderSpan], name: &[u8]) -> Named<'a>
    requires { All (IsHeaderWithin (length block.now)) headers.now }
    ensures { IsNamed (values_named name.now (map (header_bytes block.now) headers.now)) result }
{
    let mut found = Named::None;
    for header in headers {
        if has_this_name(block, header, name) {
            let Named::None = found else {
                return Named::Several;
            };
            found = Named::One(header.value.of(block));
        }
    }
    found
}

/// Whether the field has this name.
fn has_this_name(block: &[u8], header: &HeaderSpan, name: &[u8]) -> bool
    requires { IsHeaderWithin (length block.now) header.now }
    ensures { result ≡ has_name name.now (header_bytes block.now header.now) }
{
    header.name.of(block).eq_ignore_ascii_case(name)
}
