// Catalogues in memory with one long text.
use crate::parts::PartsDesk;
use dict_proto::LimitedSink;
use net_hub::{Event, Hub, HubFault, Kind};
use std::alloc::{AllocError, Global};

// Does what a request asks.
fn ask(
    hub: &mut Hub,
    desk: &mut PartsDesk,
    sink: &mut LimitedSink,
    request: &[u8],
) -> Result<(), HubFault> {
    hub.event(desk, Event::Opened(1, Kind::Http), sink)?;
    hub.event(desk, Event::Bytes(1, request), sink)?;
    Ok(())
}

// The same in a new hub.
fn ask_anew(
    alloc: Global,
    desk: &mut PartsDesk,
    sink: &mut LimitedSink,
    request: &[u8],
) -> Result<(), HubFault> {
    match Hub::new(alloc, "localhost") {
        Ok(mut hub) => ask(&mut hub, desk, sink, request),
        Err(_) => Err(HubFault::Memory),
    }
}

const LONG_HEAD: &[u8] =
    b"PUT /databases/gem HTTP/1.1\r\nRequest-Id: r1\r\nContent-Length: 2621502\r\n\r\n34\n00-database-short\tA\tZ\nopal\tZ\tKAAA\n00-database-short\n  Gems\n";

const SHORT_HEAD: &[u8] =
    b"PUT /databases/gem HTTP/1.1\r\nRequest-Id: r1\r\nContent-Length: 32829\r\n\r\n33\n00-database-short\tA\tZ\nopal\tZ\tIAA\n00-database-short\n  Gems\n";

// One of the lines of a text, of 64 octets.
const LONG_LINE: &[u8] = b"..........................................a line of a long text\n";

/// Installs `gem`, whose one entry has a text of 2,621,440 octets.
pub fn install_long(alloc: Global, desk: &mut PartsDesk) -> Result<(), HubFault> {
    install(alloc, desk, LONG_HEAD, 40_960)
}

/// The same of a text of 32,768 octets. The answer to `DEFINE gem opal` has 33,855.
pub fn install_short(alloc: Global, desk: &mut PartsDesk) -> Result<(), HubFault> {
    install(alloc, desk, SHORT_HEAD, 512)
}

// Does what a request asks that begins so, and goes on with so many lines.
fn install(alloc: Global, desk: &mut PartsDesk, head: &[u8], lines: u32) -> Result<(), HubFault> {
    let Ok(request) = request_of(alloc, head, lines) else {
        return Err(HubFault::Memory);
    };
    match LimitedSink::new(alloc, 1000) {
        Ok(mut sink) => ask_anew(alloc, desk, &mut sink, request.as_slice()),
        Err(_) => Err(HubFault::Memory),
    }
}

// A request that begins so, and goes on with so many lines.
fn request_of(alloc: Global, head: &[u8], lines: u32) -> Result<Vec<u8>, AllocError> {
    let mut request = Vec::new(alloc);
    request.extend_from_slice(head)?;
    for _ in 0..lines {
        request.extend_from_slice(LONG_LINE)?;
    }
    Ok(request)
}
