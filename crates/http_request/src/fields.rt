// What the headers say.
ghost use Rattle.std.specs.Prelude.{◌≡◌, length, map, All};
ghost use Rattle.httparse.specs.Spans.{IsHeaderWithin, header_bytes};
ghost use Rattle.http_request.specs.Fields.{AreValues, IsFraming, length_of, values_of};

use crate::kinds::{Framing, Values};
use crate::statuses::Status;
use httparse::spans::HeaderSpan;

/// The most octets of a body.
const MAX_BODY: usize = 83_886_080;

/// The most digits of a length.
const MAX_DIGITS: usize = 10;

// The values of the headers of this name.
pub fn values_of<'b>(buf: &'b [u8], headers: &[HeaderSpan], name: &[u8]) -> Values<'b>
    requires { All (IsHeaderWithin (length buf.now)) headers.now }
    ensures { AreValues result (values_of name.now (map (header_bytes buf.now) headers.now)) }
{
    let mut found = Values::Absent;
    for header in headers {
        if header.name.of(buf).eq_ignore_ascii_case(name) {
            found = match found {
                Values::Absent => Values::One(header.value.of(buf)),
                Values::One(_) => Values::Several,
                Values::Several => Values::Several,
            };
        }
    }
    found
}

// The number that 1 to 10 decimal digits write.
pub fn read_length(digits: &[u8]) -> Option<usize>
    ensures { result ≡ length_of digits.now }
{
    if digits.is_empty() || digits.len() > MAX_DIGITS {
        return None;
    }
    let mut number: usize = 0;
    for digit in digits {
        if !digit.is_ascii_digit() {
            return None;
        }
        number = number * 10 + (*digit - b'0') as usize;
    }
    Some(number)
}

// The body that the headers tell of.
pub fn framing_of(buf: &[u8], headers: &[HeaderSpan]) -> Framing
    requires { All (IsHeaderWithin (length buf.now)) headers.now }
    ensures { IsFraming (map (header_bytes buf.now) headers.now) result }
{
    match values_of(buf, headers, b"transfer-encoding") {
        Values::Absent => {}
        Values::One(_) => return Framing::Refused(Status::BadRequest),
        Values::Several => return Framing::Refused(Status::BadRequest),
    }
    match values_of(buf, headers, b"content-length") {
        Values::Absent => Framing::Body(0),
        Values::One(value) => match read_length(value) {
            None => Framing::Refused(Status::BadRequest),
            Some(size) => {
                if size > MAX_BODY {
                    Framing::Refused(Status::ContentTooLarge)
                } else {
                    Framing::Body(size)
                }
            }
        },
        Values::Several => Framing::Refused(Status::BadRequest),
    }
}
