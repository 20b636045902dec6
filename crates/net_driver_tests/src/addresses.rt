//! Addresses to which no socket can be bound.
use crate::checks::holds;
use crate::serving::{FREE, Part, Step, bind, start};
use net_driver::{AddressFault, BindFault};
use std::alloc::Global;
use std::net::SocketAddr;
use std::process::Abort;

fn told_of(fault: &Option<BindFault>) -> &'static str {
    match fault {
        None => "bound",
        Some(BindFault::Dict(AddressFault::Unread)) => "dict unread",
        Some(BindFault::Dict(AddressFault::Unbound(_))) => "dict unbound",
        Some(BindFault::Http(AddressFault::Unread)) => "http unread",
        Some(BindFault::Http(AddressFault::Unbound(_))) => "http unbound",
        Some(BindFault::Wait(_) | BindFault::Memory) => "another fault",
    }
}

// Why no driver is bound to two addresses.
fn told(net: &HostRuntime, alloc: Global, dict: &str, http: &str) -> &'static str {
    let fault = bind(net, alloc, dict, http).err();
    let told = told_of(&fault);
    drop(fault);
    told
}

static UNREAD: [&str; 7] = [
    "",
    "localhost:0",
    "127.0.0.1",
    "127.0.0.1:",
    ":0",
    "127.0.0.1:65536",
    " 127.0.0.1:0",
];

// Whether it is none, in either place.
fn is_unread(net: &HostRuntime, alloc: Global, text: &str) -> bool {
    told(net, alloc, text, "also none") == "dict unread"
        && told(net, alloc, FREE, text) == "http unread"
}

// Texts that are no address.
#[test]
fn an_address_that_is_not_read(rt: HostRuntime) {
    for text in &UNREAD {
        holds(&rt, is_unread(&rt, rt.alloc(), text), "another fault");
    }
}

// Two addresses that were bound have the ports that the system chose.
fn are_chosen(dict: SocketAddr, http: SocketAddr) -> bool {
    let is_loopback = dict.ip().is_loopback() && http.ip().is_loopback();
    is_loopback && dict.port() > 0 && http.port() > 0 && dict != http
}

/// Two addresses that were bound have the ports that the system chose, and are in use; and the order of two faults.
pub(crate) fn are_in_use(
    rt: &impl Abort,
    net: &HostRuntime,
    alloc: Global,
    addresses: (SocketAddr, SocketAddr),
) {
    let (dict, http) = addresses;
    let text = format!(in alloc; "{dict}").expect(rt, "memory");
    let first = told(net, alloc, &text, "none");
    let text = format!(in alloc; "{http}").expect(rt, "memory");
    let second = told(net, alloc, FREE, &text);
    holds(rt, first == "dict unbound", "another fault of the first");
    holds(rt, second == "http unbound", "another fault of the second");
    holds(rt, are_chosen(dict, http), "other addresses");
}

static PORTS: [(u32, &[Part]); 1] = [(0, &[Part::Bare(1, &[Step::InUse])])];

#[test]
fn free_ports(rt: HostRuntime) {
    start(&rt, &rt, &PORTS);
}
