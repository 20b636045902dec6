// One session in pieces.
ghost use Rattle.std.specs.Prelude.{◌≡◌, ◌≢◌, false, All, ℕ, ◌≤◌, ◌-◌, List, [], ◌∷◌, ◌++◌, IfOk, vec_len, vec_capacity, length, take};
ghost use Rattle.dict_proto.specs.Meaning.{meaning};
ghost use Rattle.dict_proto.specs.Told.{Tells};
ghost use Rattle.dict_proto.specs.Replies.{banner_octets};
ghost use Rattle.dict_session.specs.Answers.{answer_to};
ghost use Rattle.dict_session.specs.declared.step.Step.TheVariants.{More};
ghost use Rattle.dict_catalogue.specs.Steps.{Catalogue};
ghost use Rattle.dict_session.specs.Desks.{condition, Stays};

use crate::answer::{answer_line, put_line};
use crate::step::{Course, Step};
use dict_desk::Lookup;
use dict_proto::{LineFault, MAX_LINE_OCTETS, Reply, Request, Sink, parse_line};
use std::alloc::{AllocError, Global};

pub mod run;

/// A session: the unfinished line that it has read, and how its last call ended.
#[derive(Drop)]
pub struct Session<'h> {
    host: &'h str,
    connection: u64,
    held: Vec<u8>,
    is_overlong: bool,
    after_cr: bool,
    last: Course,
    ghost room: { 6144 ≤ vec_capacity held },
    ghost short: { vec_len held ≤ 6144 },
}

impl<'h> Session<'h> {
    ghost use Rattle.dict_session.specs.Session.{HasUnfinished, LeavesSession, IsSameSession, course_of, step_of, session_host, connection_of};
    ghost use Rattle.dict_session.specs.Ending.{PutsLine};
    ghost use Rattle.dict_session.specs.Through.{AnswersLine, LeavesThrough, looks_up};
    ghost use Rattle.dict_session.specs.Lines.{HasNoLineEnd, cut};

    /// A session that has read nothing, with the name of the server's host and the connection's number. The line's
    /// room is taken here, and never grows.
    pub fn new(alloc: Global, host: &'h str, connection: u64) -> Result<Session<'h>, AllocError>
        ensures line { IfOk result (λ s. HasUnfinished s []) }
        ensures step { IfOk result (λ s. step_of s ≡ More) }
        ensures host { IfOk result (λ s. session_host s ≡ host.now) }
        ensures connection { IfOk result (λ s. connection_of s ≡ connection) }
    {
        let held = Vec::with_capacity(alloc, MAX_LINE_OCTETS)?;
        Ok(Session {
            host,
            connection,
            held,
            is_overlong: false,
            after_cr: false,
            last: Course::More,
        })
    }

    /// Puts the greeting. Once a call of the session ended by `Quit` or `Broken`, it answers the same and puts nothing.
    pub fn greet<K: Sink>(&mut self, sink: &mut K) -> Step
        ensures greeting { step_of self.old ≡ More
            → PutsLine (course_of self.new) (K.stream sink.old) (K.stream sink.new) (banner_octets (session_host self.old) (connection_of self.old)) }
        ensures line { (rest : List ℕ) → HasUnfinished self.old rest → HasUnfinished self.new rest }
        ensures step { step_of self.new ≡ result }
        ensures same { IsSameSession self.old self.new }
        ensures ended { step_of self.old ≢ More → (result ≡ step_of self.old) × (K.stream sink.new ≡ K.stream sink.old) }
    {
        if self.last != Course::More {
            return self.last.step();
        }
        let banner = Reply::Banner {
            host: self.host,
            connection: self.connection,
        };
        self.last = put_line(&banner, sink);
        self.last.step()
    }

    /// Takes the next piece of what the client sent, and puts the answer to each line that it ends, up to that of
    /// a QUIT. A line of more than 6,144 octets is answered once, at its end. Where memory is refused or the desk fails
    /// before an answer's first octet, 420 is put in its place. Once a call of the session ended by `Quit` or `Broken`,
    /// it answers the same, puts nothing and asks nothing.
    pub fn feed<L: Lookup, K: Sink>(
        &mut self,
        alloc: Global,
        piece: &[u8],
        desk: &mut L,
        sink: &mut K,
    ) -> Step
        ensures answers { step_of self.old ≡ More → L.is_trusted desk.new → (M : Catalogue) → L.shows desk.old M → (rest : List ℕ) → HasUnfinished self.old rest
            → LeavesSession (answer_to M (session_host self.old)) (condition L.has_failed L.is_closed desk.new) (course_of self.new) self.new (K.stream sink.old) (K.stream sink.new) (rest ++ piece.now) }
        ensures through { step_of self.old ≡ More → L.is_trusted desk.new → (M : Catalogue) → L.shows desk.old M → (rest : List ℕ) → HasUnfinished self.old rest
            → LeavesThrough (answer_to M (session_host self.old)) (looks_up M) (L.is_closed desk.old) (condition L.has_failed L.is_closed desk.new) (course_of self.new) self.new (K.stream sink.old) (K.stream sink.new) (rest ++ piece.now) }
        ensures quiet { step_of self.old ≡ More → L.is_trusted desk.new → (M : Catalogue) → L.shows desk.old M → (rest : List ℕ) → HasUnfinished self.old rest
            → All (λ line. looks_up M (meaning line) ≡ false) (cut (rest ++ piece.now)).lines → desk.new ≡ desk.old }
        ensures desk { Stays L.shows L.leaves_one_of L.keeps_beside L.is_trusted L.is_closed desk.old desk.new }
        ensures step { step_of self.new ≡ result }
        ensures same { IsSameSession self.old self.new }
        ensures ended { step_of self.old ≢ More → (result ≡ step_of self.old) × (K.stream sink.new ≡ K.stream sink.old) × (desk.new ≡ desk.old) }
    {
        self.advance(alloc, piece, desk, sink).step()
    }

    // The same, and what broke the session off.
    pub(crate) fn advance<L: Lookup, K: Sink>(
        &mut self,
        alloc: Global,
        piece: &[u8],
        desk: &mut L,
        sink: &mut K,
    ) -> Course
        ensures answers { step_of self.old ≡ More → L.is_trusted desk.new → (M : Catalogue) → L.shows desk.old M → (rest : List ℕ) → HasUnfinished self.old rest
            → LeavesSession (answer_to M (session_host self.old)) (condition L.has_failed L.is_closed desk.new) result self.new (K.stream sink.old) (K.stream sink.new) (rest ++ piece.now) }
        ensures through { step_of self.old ≡ More → L.is_trusted desk.new → (M : Catalogue) → L.shows desk.old M → (rest : List ℕ) → HasUnfinished self.old rest
            → LeavesThrough (answer_to M (session_host self.old)) (looks_up M) (L.is_closed desk.old) (condition L.has_failed L.is_closed desk.new) result self.new (K.stream sink.old) (K.stream sink.new) (rest ++ piece.now) }
        ensures quiet { step_of self.old ≡ More → L.is_trusted desk.new → (M : Catalogue) → L.shows desk.old M → (rest : List ℕ) → HasUnfinished self.old rest
            → All (λ line. looks_up M (meaning line) ≡ false) (cut (rest ++ piece.now)).lines → desk.new ≡ desk.old }
        ensures desk { Stays L.shows L.leaves_one_of L.keeps_beside L.is_trusted L.is_closed desk.old desk.new }
        ensures course { course_of self.new ≡ result }
        ensures same { IsSameSession self.old self.new }
        ensures ended { step_of self.old ≢ More → (result ≡ course_of self.old) × (K.stream sink.new ≡ K.stream sink.old) × (desk.new ≡ desk.old) }
    {
        if self.last != Course::More {
            return self.last;
        }
        let course = self.read(alloc, piece, desk, sink);
        self.note(course);
        course
    }

    // Notes how a call ended.
    fn note(&mut self, course: Course)
        ensures course { course_of self.new ≡ course }
        ensures line { (rest : List ℕ) → HasUnfinished self.old rest → HasUnfinished self.new rest }
        ensures same { IsSameSession self.old self.new }
    {
        self.last = course;
    }

    // The same for a session that goes on.
    fn read<L: Lookup, K: Sink>(
        &mut self,
        alloc: Global,
        piece: &[u8],
        desk: &mut L,
        sink: &mut K,
    ) -> Course
        ensures answers { L.is_trusted desk.new → (M : Catalogue) → L.shows desk.old M → (rest : List ℕ) → HasUnfinished self.old rest
            → LeavesThrough (answer_to M (session_host self.old)) (looks_up M) (L.is_closed desk.old) (condition L.has_failed L.is_closed desk.new) result self.new (K.stream sink.old) (K.stream sink.new) (rest ++ piece.now) }
        ensures quiet { L.is_trusted desk.new → (M : Catalogue) → L.shows desk.old M → (rest : List ℕ) → HasUnfinished self.old rest
            → All (λ line. looks_up M (meaning line) ≡ false) (cut (rest ++ piece.now)).lines → desk.new ≡ desk.old }
        ensures desk { Stays L.shows L.leaves_one_of L.keeps_beside L.is_trusted L.is_closed desk.old desk.new }
        ensures same { IsSameSession self.old self.new }
    {
        for octet in piece {
            match self.take(alloc, *octet, desk, sink) {
                Course::More => {}
                course => return course,
            }
        }
        Course::More
    }

    // Takes one octet.
    fn take<L: Lookup, K: Sink>(
        &mut self,
        alloc: Global,
        octet: u8,
        desk: &mut L,
        sink: &mut K,
    ) -> Course
        ensures answers { L.is_trusted desk.new → (M : Catalogue) → L.shows desk.old M → (rest : List ℕ) → HasUnfinished self.old rest
            → LeavesThrough (answer_to M (session_host self.old)) (looks_up M) (L.is_closed desk.old) (condition L.has_failed L.is_closed desk.new) result self.new (K.stream sink.old) (K.stream sink.new) (rest ++ octet ∷ []) }
        ensures quiet { L.is_trusted desk.new → (M : Catalogue) → L.shows desk.old M → (rest : List ℕ) → HasUnfinished self.old rest
            → All (λ line. looks_up M (meaning line) ≡ false) (cut (rest ++ octet ∷ [])).lines → desk.new ≡ desk.old }
        ensures desk { Stays L.shows L.leaves_one_of L.keeps_beside L.is_trusted L.is_closed desk.old desk.new }
        ensures same { IsSameSession self.old self.new }
    {
        if octet == b'\n' && self.after_cr {
            self.end_line(alloc, desk, sink)
        } else {
            self.hold(octet);
            Course::More
        }
    }

    // Adds an octet that ends no line.
    fn hold(&mut self, octet: u8)
        ensures line { (rest : List ℕ) → HasUnfinished self.old rest → HasNoLineEnd (rest ++ octet ∷ []) → HasUnfinished self.new (rest ++ octet ∷ []) }
        ensures same { IsSameSession self.old self.new }
    {
        if self.held.len() < MAX_LINE_OCTETS {
            self.held.push_reserved(octet);
        } else {
            self.is_overlong = true;
        }
        self.after_cr = octet == b'\r';
    }

    // The octets held but for the last.
    fn line(&self) -> &[u8]
        ensures { result.now ≡ take (length self.now.held.items - 1) self.now.held.items }
    {
        let length = self.held.len().saturating_sub(1);
        &self.held.as_slice()[..length]
    }

    // What the line asks whose CR was read last.
    fn request(&self, alloc: Global) -> Result<Request, LineFault>
        ensures { (rest : List ℕ) → HasUnfinished self.now rest → Tells result (meaning (take (length rest - 1) rest)) }
    {
        if self.is_overlong {
            Err(LineFault::NotRecognized)
        } else {
            parse_line(alloc, self.line())
        }
    }

    // Answers the line whose CR was read last, at its LF.
    fn end_line<L: Lookup, K: Sink>(&mut self, alloc: Global, desk: &mut L, sink: &mut K) -> Course
        ensures answers { L.is_trusted desk.new → (M : Catalogue) → L.shows desk.old M → (rest : List ℕ) → HasUnfinished self.old rest
            → AnswersLine (answer_to M (session_host self.old)) (looks_up M) (L.is_closed desk.old) (condition L.has_failed L.is_closed desk.new) result self.new (K.stream sink.old) (K.stream sink.new) (take (length rest - 1) rest) }
        ensures quiet { (M : Catalogue) → L.shows desk.old M → (rest : List ℕ) → HasUnfinished self.old rest → looks_up M (meaning (take (length rest - 1) rest)) ≡ false → desk.new ≡ desk.old }
        ensures desk { Stays L.shows L.leaves_one_of L.keeps_beside L.is_trusted L.is_closed desk.old desk.new }
        ensures same { IsSameSession self.old self.new }
    {
        match answer_line(alloc, desk, self.host, self.request(alloc), sink) {
            Course::More => {
                self.clear();
                Course::More
            }
            course => course,
        }
    }

    fn clear(&mut self)
        ensures line { HasUnfinished self.new [] }
        ensures same { IsSameSession self.old self.new }
    {
        self.held.clear();
        self.is_overlong = false;
        self.after_cr = false;
    }
}
