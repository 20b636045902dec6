// Requests one after another, each with its answer.
use crate::answers::{response, told};
use crate::checks::same_text_of;
use dict_desk::{PlainDesk, Preparer};
use std::alloc::Global;
use std::process::Abort;

/// A method and a path; the header lines that say the id; a body; and the status and the body of the answer.
#[derive(Clone, Copy)]
pub(crate) struct Row(
    pub &'static str,
    pub &'static str,
    pub &'static str,
    pub &'static str,
    pub &'static str,
);

const OK: &str = "200 OK";

const BAD: &str = "400 Bad Request";

const CONFLICT: &str = "409 Conflict";

const REFUSED: &str = "422 Unprocessable Content";

const BAD_TEXT: &str = "{\"error\":\"bad request\"}";

const GEM_BODY: &str =
    "53\n00-database-short\tA\tZ\nopal\tZ\tP\nFire Opal\tZ\tP\ndot\to\tF\n00-database-short\n  Gems\nopal\n  a stone\n.dot\n";

// The same, but for an entry that goes past the text's end, and for lengths of the index that aren't its own.
const PAST_BODY: &str =
    "53\n00-database-short\tA\tZ\nopal\tZ\tP\nFire Opal\tZ\tP\ndot\to\tG\n00-database-short\n  Gems\nopal\n  a stone\n.dot\n";

const LONG_BODY: &str =
    "54\n00-database-short\tA\tZ\nopal\tZ\tP\nFire Opal\tZ\tP\ndot\to\tF\n00-database-short\n  Gems\nopal\n  a stone\n.dot\n";

const LONGER_BODY: &str =
    "99\n00-database-short\tA\tZ\nopal\tZ\tP\nFire Opal\tZ\tP\ndot\to\tF\n00-database-short\n  Gems\nopal\n  a stone\n.dot\n";

const LED_BODY: &str =
    "053\n00-database-short\tA\tZ\nopal\tZ\tP\nFire Opal\tZ\tP\ndot\to\tF\n00-database-short\n  Gems\nopal\n  a stone\n.dot\n";

const FIRST_ID: &str = "Request-Id: r1\r\n";

const SECOND_ID: &str = "Request-Id: r2\r\n";

const THIRD_ID: &str = "Request-Id: r3\r\n";

const INSTALLED: &str = "{\"edition\":1,\"name\":\"gem\",\"number\":1,\"verb\":\"install\"}";

/// An install of `gem`, and its answer.
pub(crate) const INSTALL: Row = Row("PUT /databases/gem", FIRST_ID, GEM_BODY, OK, INSTALLED);

const ONE: &str =
    "[{\"current\":1,\"former\":null,\"kind\":\"regular\",\"name\":\"gem\",\"title\":\"Gems\"}]";

const NO_FORMER: &str = "{\"reason\":\"NoFormer\",\"refusal\":23}";

const BAD_NAME: &str = "{\"reason\":\"BadName\",\"refusal\":20}";

static TABLE: [Row; 24] = [
    INSTALL,
    Row("GET /databases", "", "", OK, ONE),
    Row(
        "PUT /databases/gem",
        SECOND_ID,
        PAST_BODY,
        REFUSED,
        "{\"fault\":4,\"line\":4,\"reason\":\"Interval\"}",
    ),
    Row(
        "PUT /databases/gem",
        SECOND_ID,
        LONG_BODY,
        REFUSED,
        "{\"fault\":14,\"line\":null,\"reason\":\"LastLine\"}",
    ),
    Row("PUT /databases/gem", SECOND_ID, LONGER_BODY, BAD, BAD_TEXT),
    Row("PUT /databases/gem", SECOND_ID, LED_BODY, BAD, BAD_TEXT),
    Row(
        "PUT /databases/Gem",
        SECOND_ID,
        GEM_BODY,
        CONFLICT,
        BAD_NAME,
    ),
    Row("PUT /databases/Gem", SECOND_ID, LED_BODY, BAD, BAD_TEXT),
    Row(
        "PUT /databases/Gem",
        SECOND_ID,
        PAST_BODY,
        REFUSED,
        "{\"fault\":4,\"line\":4,\"reason\":\"Interval\"}",
    ),
    Row("GET /databases", SECOND_ID, "?", OK, ONE),
    Row("PUT /databases/gem", FIRST_ID, "?", OK, INSTALLED),
    Row("DELETE /databases/gem", FIRST_ID, "", OK, INSTALLED),
    Row(
        "POST /databases/gem/rollback",
        SECOND_ID,
        "",
        CONFLICT,
        NO_FORMER,
    ),
    Row("POST /databases/gem/rollback", "", "", BAD, BAD_TEXT),
    Row(
        "POST /databases/gem/rollback",
        "Request-Id: r1\r\nRequest-Id: r1\r\n",
        "",
        BAD,
        BAD_TEXT,
    ),
    Row(
        "POST /databases/gem/rollback",
        "Request-Id: r 1\r\n",
        "",
        CONFLICT,
        "{\"reason\":\"BadRequestId\",\"refusal\":31}",
    ),
    Row(
        "POST /databases/gem/place",
        SECOND_ID,
        "{\"place\":0}",
        OK,
        "{\"edition\":null,\"name\":\"gem\",\"number\":2,\"verb\":\"place\"}",
    ),
    Row(
        "POST /databases/gem/place",
        THIRD_ID,
        "{\"place\":-1}",
        BAD,
        BAD_TEXT,
    ),
    Row(
        "POST /databases/gem/place",
        THIRD_ID,
        "{\"place\":0,\"x\":1}",
        BAD,
        BAD_TEXT,
    ),
    Row(
        "POST /databases/gem/place",
        THIRD_ID,
        "{\"place\":4294967295}",
        CONFLICT,
        "{\"reason\":\"BadPlace\",\"refusal\":30}",
    ),
    Row(
        "PUT /virtual/all",
        THIRD_ID,
        "{\"members\":[\"gem\"]}",
        BAD,
        BAD_TEXT,
    ),
    Row(
        "PUT /databases/gem",
        THIRD_ID,
        GEM_BODY,
        OK,
        "{\"edition\":2,\"name\":\"gem\",\"number\":3,\"verb\":\"install\"}",
    ),
    Row(
        "POST /databases/gem/rollback",
        "Request-Id: r4\r\n",
        "",
        OK,
        "{\"edition\":1,\"name\":\"gem\",\"number\":4,\"verb\":\"rollback\"}",
    ),
    Row(
        "GET /databases",
        "",
        "",
        OK,
        "[{\"current\":1,\"former\":2,\"kind\":\"regular\",\"name\":\"gem\",\"title\":\"Gems\"}]",
    ),
];

static VIRTUAL: [Row; 4] = [
    INSTALL,
    Row(
        "PUT /virtual/all",
        SECOND_ID,
        "{\"members\":[\"gem\"],\"title\":\"All\"}",
        OK,
        "{\"edition\":null,\"name\":\"all\",\"number\":2,\"verb\":\"virtual\"}",
    ),
    Row(
        "DELETE /databases/gem",
        THIRD_ID,
        "",
        CONFLICT,
        "{\"reason\":\"Listed\",\"refusal\":24}",
    ),
    Row(
        "GET /databases",
        "",
        "",
        OK,
        "[{\"current\":1,\"former\":null,\"kind\":\"regular\",\"name\":\"gem\",\"title\":\"Gems\"},{\"kind\":\"virtual\",\"members\":[\"gem\"],\"name\":\"all\",\"title\":\"All\"}]",
    ),
];

static RETIRED: [Row; 5] = [
    INSTALL,
    Row(
        "DELETE /databases/gem",
        SECOND_ID,
        "",
        OK,
        "{\"edition\":null,\"name\":\"gem\",\"number\":2,\"verb\":\"retire\"}",
    ),
    Row("GET /databases", "", "", OK, "[]"),
    Row(
        "PUT /databases/gem",
        SECOND_ID,
        GEM_BODY,
        OK,
        "{\"edition\":null,\"name\":\"gem\",\"number\":2,\"verb\":\"retire\"}",
    ),
    Row(
        "DELETE /databases/gem",
        THIRD_ID,
        "",
        CONFLICT,
        "{\"reason\":\"Unknown\",\"refusal\":21}",
    ),
];

/// The octets of a row's request.
pub(crate) fn request_of(rt: &impl Abort, alloc: Global, row: Row) -> String {
    let Row(asked, ids, body, _, _) = row;
    let len = body.len();
    let text = format!(in alloc; "{asked} HTTP/1.1\r\n{ids}Content-Length: {len}\r\n\r\n{body}");
    text.expect(rt, "memory")
}

/// A request is answered by this status and this body.
pub(crate) fn ask<K: Preparer>(
    rt: &impl Abort,
    alloc: Global,
    desk: &mut K,
    request: &str,
    (status, body): (&str, &str),
) {
    let wanted = response(rt, alloc, status, body);
    let answer = told(rt, alloc, desk, request.as_bytes());
    same_text_of(rt, answer.as_str(), wanted.as_str(), request);
}

/// The requests of a table one after another, each answered as its row says.
pub(crate) fn run<K: Preparer>(rt: &impl Abort, alloc: Global, desk: &mut K, rows: &[Row]) {
    for row in rows {
        let request = request_of(rt, alloc, *row);
        ask(rt, alloc, desk, &request, (row.3, row.4));
    }
}

// The same over an empty catalogue.
fn run_anew(rt: &impl Abort, alloc: Global, rows: &[Row]) {
    let mut desk = PlainDesk::new(alloc);
    run(rt, alloc, &mut desk, rows);
}

#[test]
fn requests_in_turn(rt: HostRuntime) {
    run_anew(&rt, rt.alloc(), &TABLE);
    run_anew(&rt, rt.alloc(), &VIRTUAL);
    run_anew(&rt, rt.alloc(), &RETIRED);
}
