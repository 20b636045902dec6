// Requests of which a desk is told before they are answered.
use super::files::{HOST, PUT, told};
use crate::checks::{same, same_text};
use dict_fixtures::PartsDesk;
use net_hub::{Event, Hub, Kind};
use std::alloc::Global;
use std::process::Abort;

// The index and the text of `PUT`, before 70,000 octets of text that no entry has.
const FRONT: &[u8] =
    b"53\n00-database-short\tA\tZ\nopal\tZ\tP\nFire Opal\tZ\tP\ndot\to\tF\n00-database-short\n  Gems\nopal\n  a stone\n.dot\n";

const INSTALL: &str =
    "PUT /databases/gem HTTP/1.1\r\nRequest-Id: r1\r\nContent-Length: 70101\r\n\r\n";

// A small request that changes, and the same under an id that is kept.
const RETIRE: &[u8] = b"DELETE /databases/gem HTTP/1.1\r\nRequest-Id: r9\r\n\r\n";

const KEPT: &[u8] = b"DELETE /databases/gem HTTP/1.1\r\nRequest-Id: r1\r\n\r\n";

const PLACE: &[u8] =
    b"POST /databases/gem/place HTTP/1.1\r\nRequest-Id: r9\r\nContent-Length: 11\r\n\r\n{\"place\":0}";

const VIRTUAL: &[u8] =
    b"PUT /virtual/all HTTP/1.1\r\nRequest-Id: r9\r\nContent-Length: 31\r\n\r\n{\"title\":\"t\",\"members\":[\"gem\"]}";

// What stands before `FRONT`, whether it is foreseen with its first piece and with its second, and what the desk notes. In the
// last two the body has no form, or an edition that is refused, which isn't known before it is read.
static CASES: [(&str, &str, &str); 12] = [
    (INSTALL, "false true ", "gem 53 70045"),
    (
        "PUT /databases/ore HTTP/1.1\r\nContent-Length: 70101\r\nRequest-Id: a-1\r\n\r\n",
        "false true ",
        "ore 53 70045",
    ),
    (
        "PUT /databases/gem HTTP/1.1\r\nContent-Length: 70101\r\n\r\n",
        "false false ",
        "",
    ),
    (
        "PUT /databases/gem HTTP/1.1\r\nRequest-Id: r_1\r\nContent-Length: 70101\r\n\r\n",
        "false false ",
        "",
    ),
    (
        "PUT /databases/gem HTTP/1.1\r\nRequest-Id: r1\r\nRequest-Id: r1\r\nContent-Length: 70101\r\n\r\n",
        "false false ",
        "",
    ),
    (
        "DELETE /databases/gem HTTP/1.1\r\nRequest-Id: r1\r\nContent-Length: 70101\r\n\r\n",
        "false true ",
        "",
    ),
    (
        "POST /databases/gem/rollback HTTP/1.1\r\nRequest-Id: r1\r\nContent-Length: 70101\r\n\r\n",
        "false true ",
        "",
    ),
    (
        "POST /databases/gem/place HTTP/1.1\r\nRequest-Id: r1\r\nContent-Length: 70101\r\n\r\n",
        "false false ",
        "",
    ),
    (
        "GET /databases HTTP/1.1\r\nRequest-Id: r1\r\nContent-Length: 70101\r\n\r\n",
        "false false ",
        "",
    ),
    (
        "PUT /databases/gem HTTP/1.1\r\nRequest-Id: r1\r\nContent-Length: 90000\r\n\r\n",
        "false false ",
        "",
    ),
    (
        "PUT /databases/gem HTTP/1.1\r\nRequest-Id: r1\r\nContent-Length: 70101\r\n\r\nx",
        "false false ",
        "",
    ),
    (
        "PUT /databases/gem HTTP/1.1\r\nRequest-Id: r1\r\nContent-Length: 70101\r\n\r\n1",
        "false true ",
        "gem 153 69944",
    ),
];

// A request with this head.
fn request(rt: &impl Abort, alloc: Global, head: &str) -> Vec<u8> {
    let mut octets = Vec::new(alloc);
    octets
        .extend_from_slice(head.as_bytes())
        .expect(rt, "memory");
    octets.extend_from_slice(FRONT).expect(rt, "memory");
    for _ in 0..700u64 {
        octets.extend_from_slice(&[b'x'; 100]).expect(rt, "memory");
    }
    octets
}

// A hub over a desk that notes what it is told of, what was foreseen, and what was answered.
#[derive(Drop)]
struct Run {
    hub: Hub<'static>,
    desk: PartsDesk,
    foreseen: String,
    answers: String,
}

impl Run {
    fn new(rt: &impl Abort, alloc: Global) -> Run {
        Run {
            hub: Hub::new(alloc, HOST).expect(rt, "memory"),
            desk: PartsDesk::new(alloc, 0),
            foreseen: String::new(alloc),
            answers: String::new(alloc),
        }
    }

    // Notes what an event is answered.
    fn take(&mut self, rt: &impl Abort, alloc: Global, event: Event) {
        let answer = told(rt, alloc, &mut self.hub, &mut self.desk, event);
        self.answers.push_str(answer.as_str()).expect(rt, "memory");
    }

    fn foresee(&mut self, id: u64, piece: &[u8]) -> bool {
        self.hub.foresee(&mut self.desk, id, piece)
    }

    fn note(&mut self, rt: &impl Abort, id: u64, piece: &[u8]) {
        let word = if self.foresee(id, piece) {
            "true "
        } else {
            "false "
        };
        self.foreseen.push_str(word).expect(rt, "memory");
    }

    // A request in two pieces, each of which is foreseen first where that is asked for.
    fn send(&mut self, rt: &impl Abort, alloc: Global, octets: &[u8], is_foreseen: bool) {
        self.take(rt, alloc, Event::Opened(1, Kind::Http));
        for piece in octets.chunks(66_000) {
            if is_foreseen {
                self.note(rt, 1, piece);
            }
            self.take(rt, alloc, Event::Bytes(1, piece));
        }
    }

    // A kept id, a reader's octets, those of no connection, and small requests.
    fn foresee_others(&mut self, rt: &impl Abort, alloc: Global, octets: &[u8]) {
        self.take(rt, alloc, Event::Opened(2, Kind::Http));
        self.take(rt, alloc, Event::Opened(3, Kind::Dict));
        same(rt, &self.foresee(2, octets), &false);
        same(rt, &self.foresee(2, PUT), &false);
        same(rt, &self.foresee(2, KEPT), &false);
        same(rt, &self.foresee(2, RETIRE), &true);
        same(rt, &self.foresee(2, PLACE), &true);
        same(rt, &self.foresee(2, VIRTUAL), &true);
        same(rt, &self.foresee(3, octets), &false);
        same(rt, &self.foresee(4, octets), &false);
    }

    // A request in two pieces, where this one was foreseen in place of the second.
    fn send_behind(&mut self, rt: &impl Abort, alloc: Global, octets: &[u8], foreseen: &[u8]) {
        self.take(rt, alloc, Event::Opened(1, Kind::Http));
        let (first, second) = octets.split_at_checked(66_000).unwrap_or((octets, &[]));
        self.take(rt, alloc, Event::Bytes(1, first));
        self.note(rt, 1, foreseen);
        self.take(rt, alloc, Event::Bytes(1, second));
    }

    // What is answered then, where as many commands as are wanted were answered by what was prepared, and applied.
    fn look_behind(
        &mut self,
        rt: &impl Abort,
        alloc: Global,
        octets: &[u8],
        foreseen: &[u8],
        wanted: (u32, u32),
    ) -> String {
        self.send_behind(rt, alloc, octets, foreseen);
        same_text(rt, self.foreseen.as_str(), "true ");
        same(rt, &(self.desk.answered, self.desk.applied), &wanted);
        self.answers.clone().expect(rt, "memory")
    }

    // What is answered, where all else is what is wanted.
    fn look(
        &mut self,
        rt: &impl Abort,
        alloc: Global,
        octets: &[u8],
        wanted: Wanted<'_>,
    ) -> String {
        self.send(rt, alloc, octets, wanted.is_foreseen);
        if wanted.has_others {
            self.foresee_others(rt, alloc, octets);
        }
        same_text(rt, self.foreseen.as_str(), wanted.foreseen);
        same_text(rt, self.desk.noted(), wanted.noted);
        self.answers.clone().expect(rt, "memory")
    }
}

// Whether a request is foreseen, whether other octets are behind it, and what is foreseen then, and noted.
#[derive(Clone, Copy)]
struct Wanted<'a> {
    is_foreseen: bool,
    has_others: bool,
    foreseen: &'a str,
    noted: &'a str,
}

// The answers to a request in a run of its own.
fn answers_to(rt: &impl Abort, alloc: Global, octets: &[u8], wanted: Wanted<'_>) -> String {
    let mut run = Run::new(rt, alloc);
    run.look(rt, alloc, octets, wanted)
}

const NOTHING: Wanted<'static> = Wanted {
    is_foreseen: false,
    has_others: false,
    foreseen: "",
    noted: "",
};

const OTHERS: Wanted<'static> = Wanted {
    is_foreseen: false,
    has_others: true,
    foreseen: "",
    noted: "",
};

// What is foreseen is what is wanted, and the answers are those of the same request where nothing was foreseen.
fn check(rt: &impl Abort, alloc: Global, octets: &[u8], wanted: Wanted<'_>) {
    let answers = answers_to(rt, alloc, octets, wanted);
    let alone = answers_to(rt, alloc, octets, NOTHING);
    same_text(rt, answers.as_str(), alone.as_str());
}

#[test]
fn changes_are_foreseen(rt: HostRuntime) {
    for (head, foreseen, noted) in &CASES {
        let octets = request(&rt, rt.alloc(), *head);
        let wanted = Wanted {
            is_foreseen: true,
            has_others: false,
            foreseen: *foreseen,
            noted: *noted,
        };
        check(&rt, rt.alloc(), &octets, wanted);
    }
}

#[test]
fn other_octets_are_not_foreseen(rt: HostRuntime) {
    let octets = request(&rt, rt.alloc(), INSTALL);
    answers_to(&rt, rt.alloc(), &octets, OTHERS);
}

// The answers to a request of which this was foreseen in place of the second piece, in a run of its own.
fn answers_behind(
    rt: &impl Abort,
    alloc: Global,
    octets: &[u8],
    foreseen: &[u8],
    wanted: (u32, u32),
) -> String {
    let mut run = Run::new(rt, alloc);
    run.look_behind(rt, alloc, octets, foreseen, wanted)
}

// The second piece of a request, and the same with another last octet.
fn pieces_of(rt: &impl Abort, alloc: Global, octets: &[u8]) -> (Vec<u8>, Vec<u8>) {
    let piece = octets.get(66_000..).unwrap_or(&[]);
    let mut other = Vec::from_slice(alloc, piece).expect(rt, "memory");
    if let Some(last) = other.last_mut() {
        *last = b'y';
    }
    (Vec::from_slice(alloc, piece).expect(rt, "memory"), other)
}

// What was prepared answers the request that was foreseen. One whose text is another in one octet is answered without.
#[test]
fn what_was_prepared_answers(rt: HostRuntime) {
    let octets = request(&rt, rt.alloc(), INSTALL);
    let (piece, other) = pieces_of(&rt, rt.alloc(), &octets);
    let answers = answers_behind(&rt, rt.alloc(), &octets, &piece, (1, 1));
    let without = answers_behind(&rt, rt.alloc(), &octets, &other, (0, 1));
    same_text(&rt, without.as_str(), answers.as_str());
}
