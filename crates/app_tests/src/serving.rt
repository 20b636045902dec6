//! Servers that end after some rounds, and those whose addresses are used.
use super::fixtures::{Outcome, ROOM, remove, run, same_outcome};
use crate::checks::holds;
use std::net::TcpListener;
use std::process::Abort;

const FREE: &str = "127.0.0.1:0";

const FILE: &str = "dictcat_served.db";

// What comes of three rounds at these two addresses.
fn served(test: &impl Abort, rt: &HostRuntime, dict: &str, http: &str) -> Outcome {
    let words = [
        "serve", "FILE", "--dict", dict, "--http", http, "--rounds", "3",
    ];
    run(test, rt, FILE, &words, "", ROOM)
}

// Whether a server that did its rounds printed its two addresses, and nothing else.
fn is_served(found: &Outcome) -> bool {
    let mut lines = found.1.as_str().lines();
    let dict = lines.next().unwrap_or("");
    let http = lines.next().unwrap_or("");
    let are_told = dict.starts_with("dict 127.0.0.1:") && http.starts_with("http 127.0.0.1:");
    are_told && lines.next().is_none() && found.0 == 0 && found.2.is_empty()
}

// Whether this address is told to be in use where these two are asked for.
fn is_in_use(test: &impl Abort, rt: &HostRuntime, dict: &str, http: &str, used: &str) -> bool {
    let found = served(test, rt, dict, http);
    let told = found.2.as_str().strip_prefix("cannot bind ").unwrap_or("");
    found.0 == 3 && found.1.is_empty() && told.strip_suffix("\n") == Some(used)
}

// Whether an address that is held is told to be in use, for readers and for editors.
fn a_held_is_in_use(test: &impl Abort, rt: &HostRuntime) -> bool {
    let holder = TcpListener::bind(rt, FREE).expect(test, "an address");
    let address = holder.local_addr().expect(test, "an address");
    let used = format!(in rt.alloc(); "{address}").expect(test, "memory");
    let used = used.as_str();
    is_in_use(test, rt, used, "none", used) && is_in_use(test, rt, FREE, used, used)
}

pub(crate) fn a_server_ends_after_its_rounds(test: &impl Abort, rt: &HostRuntime) {
    let words = ["create", "FILE"];
    let made = run(test, rt, FILE, &words, "", ROOM);
    same_outcome(test, &words, &made, 0, "", "");
    holds(test, is_served(&served(test, rt, FREE, FREE)), "served");
    holds(test, a_held_is_in_use(test, rt), "in use");
    remove(test, rt, FILE);
}
