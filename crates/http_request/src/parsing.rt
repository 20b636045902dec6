// How much of a request there is, and what it says.
ghost use Rattle.std.specs.Prelude.{◌≡◌, ◌<◌, ◌≤◌, ℕ, length, slice_index, MatchBool};
ghost use Rattle.httparse.specs.Spans.{IsRequestOf, IsRequestWithin};
ghost use Rattle.http_request.specs.Heads.{Needs, HasEnd, IsLineEnd, front_of};
ghost use Rattle.http_request.specs.Requests.{IsReading, IsHeadReading};
ghost use Rattle.http_request.specs.declared.kinds.Need as needs;

use crate::fields::{framing_of, values_of};
use crate::kinds::{EditorRequest, Framing, Need, RequestReading};
use crate::statuses::Status;
use httparse::Status as Parsed;
use httparse::spans::{EMPTY_HEADER_SPAN, HeaderSpan, RequestSpans, parse_request};
use memchr::memmem;
use std::str;

/// The most octets of a head.
const MAX_HEAD: usize = 8192;

/// The most headers of a head.
const MAX_HEADERS: usize = 32;

// The place of the first octet that is no CR and no LF, or the length.
fn first_other(octets: &[u8]) -> usize
    ensures within { result ≤ length octets.now }
    ensures before { (k : ℕ) → k < result → IsLineEnd (slice_index octets.now k) }
    ensures other { result < length octets.now → ¬ IsLineEnd (slice_index octets.now result) }
{
    for (i, octet) in octets.iter().enumerate() {
        if *octet != b'\r' && *octet != b'\n' {
            return i;
        }
    }
    octets.len()
}

// Whether CR LF CR LF stands after some octet that is no CR and no LF.
fn has_end(octets: &[u8]) -> bool
    ensures { MatchBool result (HasEnd octets.now) (HasEnd octets.now → ⊥) }
{
    memmem::find(&octets[first_other(octets)..], b"\r\n\r\n").is_some()
}

// The octets in which a head must stand.
fn front_of(octets: &[u8]) -> &[u8]
    ensures value { result.now ≡ front_of octets.now }
    ensures within { length result.now ≤ length octets.now }
{
    if octets.len() < MAX_HEAD {
        octets
    } else {
        &octets[..MAX_HEAD]
    }
}

// While no head is there.
fn without_head<'r>(front: &[u8]) -> RequestReading<'r>
    ensures { IsHeadReading front.now result }
{
    if front.len() == MAX_HEAD || has_end(front) {
        RequestReading::Refused(Status::BadRequest)
    } else {
        RequestReading::More(0)
    }
}

// With a head, which stands in the front of the octets.
fn with_head<'r>(
    octets: &'r [u8],
    front: &'r [u8],
    headers: &[HeaderSpan],
    head: &RequestSpans,
) -> RequestReading<'r>
    requires front { front.now ≡ front_of octets.now }
    requires inside { head.now.len ≤ length octets.now }
    requires room { length headers.now ≡ 32 }
    requires within { IsRequestWithin front.now headers.now head.now }
    requires of { IsRequestOf front.now headers.now head.now }
    ensures { IsReading octets.now result }
{
    let headers = &headers[..head.headers];
    let size = match framing_of(front, headers) {
        Framing::Refused(status) => return RequestReading::Refused(status),
        Framing::Body(size) => size,
    };
    let rest = &octets[head.len..];
    if rest.len() < size {
        return RequestReading::More(head.len + size);
    }
    let Ok(target) = str::from_utf8(head.path.of(front)) else {
        unreachable!()
    };
    RequestReading::Whole(EditorRequest {
        method: head.method.of(front),
        target,
        ids: values_of(front, headers, b"request-id"),
        body: &rest[..size],
        len: head.len + size,
    })
}

/// Reads the request that stands at the front of the octets. It takes no memory.
pub fn read_request(octets: &[u8]) -> RequestReading<'_>
    ensures { IsReading octets.now result }
{
    let front = front_of(octets);
    let mut headers = [EMPTY_HEADER_SPAN; MAX_HEADERS];
    match parse_request(front, &mut headers) {
        Ok(Parsed::Complete(head)) => with_head(octets, front, &headers, &head),
        Ok(Parsed::Partial) => without_head(front),
        Err(_) => without_head(front),
    }
}

/// What to do with the octets of a request that have come. It takes no memory.
pub fn need(octets: &[u8]) -> Need
    ensures is { Needs octets.now result }
    ensures only { (other : needs.Need) → Needs octets.now other → other ≡ result }
{
    match read_request(octets) {
        RequestReading::More(_) => Need::More,
        RequestReading::Whole(request) => Need::Whole(request.len),
        RequestReading::Refused(status) => Need::Refused(status),
    }
}
