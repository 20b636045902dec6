// Which methods and which paths are served.
use crate::answers::{response, told};
use crate::checks::same_text_of;
use dict_desk::PlainDesk;
use std::alloc::Global;
use std::process::Abort;

/// A path, its methods as `Allow` tells them, and whether it has GET, PUT, POST and DELETE.
#[derive(Clone, Copy)]
struct Served(&'static str, &'static str, [bool; 4]);

static SERVED: [Served; 5] = [
    Served("/databases", "GET", [true, false, false, false]),
    Served("/databases/gem", "PUT, DELETE", [false, true, false, true]),
    Served(
        "/databases/gem/rollback",
        "POST",
        [false, false, true, false],
    ),
    Served("/databases/gem/place", "POST", [false, false, true, false]),
    Served("/virtual/all", "PUT", [false, true, false, false]),
];

static METHODS: [&str; 4] = ["GET", "PUT", "POST", "DELETE"];

/// What a request without an id is answered, where its path has its method and where it hasn't.
fn wanted(rt: &impl Abort, alloc: Global, path: &str, allow: &str, is_served: bool) -> String {
    if !is_served {
        return format!(in alloc;
            "HTTP/1.1 405 Method Not Allowed\r\nContent-Type: application/json\r\nContent-Length: 30\r\nAllow: {allow}\r\nConnection: close\r\n\r\n{{\"error\":\"method not allowed\"}}"
        ).expect(rt, "memory");
    }
    if path == "/databases" {
        response(rt, alloc, "200 OK", "[]")
    } else {
        response(rt, alloc, "400 Bad Request", "{\"error\":\"bad request\"}")
    }
}

/// What a request is answered over an empty catalogue.
fn told_anew(rt: &impl Abort, alloc: Global, request: &str) -> String {
    let mut desk = PlainDesk::new(alloc);
    told(rt, alloc, &mut desk, request.as_bytes())
}

fn look(rt: &impl Abort, alloc: Global, request: &str, wanted: &str) {
    same_text_of(rt, told_anew(rt, alloc, request).as_str(), wanted, request);
}

// Asks for a path by these methods, which it has or hasn't.
fn ask(rt: &impl Abort, alloc: Global, path: &str, methods: &[&str], wanted: &str) {
    for method in methods {
        let request = format!(in alloc; "{method} {path} HTTP/1.1\r\n\r\n").expect(rt, "memory");
        look(rt, alloc, &request, wanted);
    }
}

// The same, by what is wanted of methods that the path has or hasn't.
fn ask_as(
    rt: &impl Abort,
    alloc: Global,
    (path, allow): (&str, &str),
    methods: &[&str],
    is_served: bool,
) {
    let text = wanted(rt, alloc, path, allow, is_served);
    ask(rt, alloc, path, methods, &text);
}

static UNKNOWN_METHODS: [&str; 4] = ["PATCH", "HEAD", "get", "put"];

#[test]
fn methods(rt: HostRuntime) {
    let alloc = rt.alloc();
    for Served(path, allow, serves) in &SERVED {
        let at = (*path, *allow);
        for (method, is_served) in METHODS.iter().zip(serves.iter()) {
            ask_as(&rt, alloc, at, &[*method], *is_served);
        }
        ask_as(&rt, alloc, at, &UNKNOWN_METHODS, false);
    }
}

static NO_PATHS: [&str; 14] = [
    "/",
    "*",
    "/database",
    "/Databases",
    "/databases/",
    "//databases",
    "/databases?",
    "/databases//place",
    "/databases/gem/",
    "/databases/gem/places",
    "/virtual",
    "/virtual/",
    "/virtual/all/x",
    "/%64atabases",
];

#[test]
fn no_paths(rt: HostRuntime) {
    let text = response(
        &rt,
        rt.alloc(),
        "404 Not Found",
        "{\"error\":\"not found\"}",
    );
    for path in &NO_PATHS {
        ask(&rt, rt.alloc(), path, &METHODS, &text);
    }
}

static NO_NAMES: [&str; 6] = ["%67em", "gem?", "gem#a", "été", "Gem", "{name}"];

#[test]
fn names_are_not_decoded(rt: HostRuntime) {
    let alloc = rt.alloc();
    let text = response(
        &rt,
        alloc,
        "409 Conflict",
        "{\"reason\":\"BadName\",\"refusal\":20}",
    );
    for name in &NO_NAMES {
        let request = format!(in alloc;
            "DELETE /databases/{name} HTTP/1.1\r\nREQUEST-id: \t r1 \r\n\r\n"
        ).expect(&rt, "memory");
        look(&rt, alloc, &request, &text);
    }
}
